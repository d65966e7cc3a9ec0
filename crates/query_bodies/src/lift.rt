//! Terms under several binders more.

ghost use Rattle.std.specs.Prelude.{◌≡◌, ◌+◌, IfOk};
ghost use Rattle.rp_lang.specs.Views.{expr_view, exprs_view};
ghost use Rattle.query_bodies.specs.Expanded.{all_lifted_by, lifted_by};

use crate::node::node_of;
use rp_lang::Expr;
use rp_value::{Boxed, List, Memory, copy_bytes};
use std::alloc::Global;

/// Under so many binders more.
pub(crate) fn under(bound: u32, by: u32) -> Result<u32, Memory>
    ensures { IfOk result (λ under. under ≡ bound + by) }
{
    bound.checked_add(by).ok_or(Memory)
}

/// Copies a term under so many binders more.
#[cycle(lifting)]
#[tactic(auto, using(rp_lang::proofs::ExprViews::expr_views, crate::proofs::Lifts::lifts))]
pub(crate) fn lifted(alloc: Global, by: u32, e: &Expr) -> Result<Expr, Memory>
    ensures { IfOk result (λ made. expr_view made ≡ lifted_by by (expr_view e.now)) }
{
    match e {
        Expr::Slot(slot) => Ok(Expr::Slot(*slot)),
        Expr::Bound(n) => node_of!(under(*n, by), made => Expr::Bound(made)),
        Expr::Int(n) => Ok(Expr::Int(*n)),
        Expr::Str(bytes) => node_of!(copy_bytes(alloc, bytes.as_slice()), made => Expr::Str(made)),
        Expr::Con(con, args) =>
            node_of!(all_lifted(alloc, by, args.as_slice()), made => Expr::Con(*con, made)),
        Expr::Plus(a, n) => node_of!(boxed(alloc, by, a.get()), made => Expr::Plus(made, *n)),
        Expr::Add(a, b) => {
            let a = boxed(alloc, by, a.get())?;
            node_of!(boxed(alloc, by, b.get()), made => Expr::Add(a, made))
        }
        Expr::Sub(a, b) => {
            let a = boxed(alloc, by, a.get())?;
            node_of!(boxed(alloc, by, b.get()), made => Expr::Sub(a, made))
        }
        Expr::Query(query, args) =>
            node_of!(all_lifted(alloc, by, args.as_slice()), made => Expr::Query(*query, made)),
        Expr::OpOf(call) => node_of!(boxed(alloc, by, call.get()), made => Expr::OpOf(made)),
        Expr::OpTerm(op, args) =>
            node_of!(all_lifted(alloc, by, args.as_slice()), made => Expr::OpTerm(*op, made)),
        Expr::OriginOf(call) =>
            node_of!(boxed(alloc, by, call.get()), made => Expr::OriginOf(made)),
        Expr::InfoOf(inv) => node_of!(boxed(alloc, by, inv.get()), made => Expr::InfoOf(made)),
        Expr::InfoTerm(proc, args) =>
            node_of!(all_lifted(alloc, by, args.as_slice()), made => Expr::InfoTerm(*proc, made)),
        Expr::ResultOf(inv) => node_of!(boxed(alloc, by, inv.get()), made => Expr::ResultOf(made)),
        Expr::ResultTerm(proc, value) => match value {
            Some(value) =>
                node_of!(boxed(alloc, by, value.get()), made => Expr::ResultTerm(*proc, Some(made))),
            None => Ok(Expr::ResultTerm(*proc, None)),
        },
        Expr::Unreturned => Ok(Expr::Unreturned),
    }
}

#[cycle(lifting)]
fn boxed(alloc: Global, by: u32, e: &Expr) -> Result<Boxed<Expr>, Memory>
    ensures { IfOk result (λ made. expr_view made ≡ lifted_by by (expr_view e.now)) }
{
    Boxed::new(alloc, lifted(alloc, by, e)?)
}

#[cycle(lifting)]
fn all_lifted(alloc: Global, by: u32, exprs: &[Expr]) -> Result<List<Expr>, Memory>
    ensures { IfOk result (λ made. exprs_view made ≡ all_lifted_by by (exprs_view exprs.now)) }
{
    let mut made = List::new(alloc);
    for e in exprs {
        made.push(lifted(alloc, by, e)?)?;
    }
    Ok(made)
}
