//! The terms of expressions.
ghost use Rattle.std.specs.Prelude.{◌≡◌, IfOk, map, slice_get};
ghost use Rattle.rp_lang.specs.ProgramView.{program_view};
ghost use Rattle.rp_lang.specs.Views.{expr_view, exprs_view};
ghost use Rattle.rp_logic.specs.Terms as tm;
ghost use Rattle.rp_logic.specs.Views.{term_view, terms_view};
ghost use Rattle.rp_symbols.specs.Numbers as number;
ghost use Rattle.crdt_enc.specs.FormulaFormulas as spec;
ghost use Rattle.formula_enc.specs.Settings.{place_view, around_view};

use crate::bounds::{Bounds, false_term};
use crate::setting::Setting;
use program_sigs::{info_con, op_con, outcome_con, unreturned_con, val_fn};
use query_enc::applied;
use rp_lang::Expr;
use rp_logic::Term;
use rp_value::{Boxed, List, Memory, copy_bytes};
use std::alloc::Global;

/// The term in a slot.
fn slot_term(alloc: Global, slots: &[Term], slot: u32) -> Result<Term, Memory>
    ensures { IfOk result (λ t. term_view t ≡ spec.or_false_tm (slice_get (map term_view slots.now) slot)) }
{
    match slots.get(slot as usize) {
        Some(t) => t.copy(alloc),
        None => Ok(false_term(alloc)),
    }
}

/// The function at two terms.
#[tactic(auto, using(rp_logic::proofs::TermViews::term_views))]
fn pair(alloc: Global, f: u32, t: Boxed<Term>, u: Boxed<Term>) -> Result<Term, Memory>
    ensures { IfOk result (λ made. term_view made ≡ tm.Fn f (tm.also_tm (term_view t) (tm.also_tm (term_view u) tm.no_tm))) }
{
    let mut args = List::new(alloc);
    args.push(t.into_inner())?;
    args.push(u.into_inner())?;
    Ok(Term::Fn(f, args))
}

/// The function of what the query gives.
#[tactic(auto, using(rp_logic::proofs::TermViews::term_views))]
fn value_term(s: &Setting, query: u32, args: List<Term>) -> Result<Term, Memory>
    ensures { IfOk result (λ t. term_view t ≡ tm.Fn (number.val_fn (program_view s.now.program.now) s.now.at.view query) (terms_view args)) }
{
    Ok(Term::Fn(val_fn(s.program, s.at.view, query)?, args))
}

#[tactic(auto, using(rp_logic::proofs::TermViews::term_views))]
fn operation_term(s: &Setting, op: u32, args: List<Term>) -> Result<Term, Memory>
    ensures { IfOk result (λ t. term_view t ≡ tm.Con (number.op_con (program_view s.now.program.now) op) (terms_view args)) }
{
    Ok(Term::Con(op_con(s.program, op)?, args))
}

#[tactic(auto, using(rp_logic::proofs::TermViews::term_views))]
fn info_term(s: &Setting, proc: u32, args: List<Term>) -> Result<Term, Memory>
    ensures { IfOk result (λ t. term_view t ≡ tm.Con (number.info_con (program_view s.now.program.now) proc) (terms_view args)) }
{
    Ok(Term::Con(info_con(s.program, proc)?, args))
}

/// That a procedure returned, with these values.
#[tactic(auto, using(rp_logic::proofs::TermViews::term_views))]
fn outcome_term(s: &Setting, proc: u32, values: List<Term>) -> Result<Term, Memory>
    ensures { IfOk result (λ t. term_view t ≡ tm.Con (number.outcome_con (program_view s.now.program.now) proc) (terms_view values)) }
{
    Ok(Term::Con(outcome_con(s.program, proc)?, values))
}

/// That a procedure returned, with this value.
fn outcome_over(alloc: Global, s: &Setting, proc: u32, value: Term) -> Result<Term, Memory>
    ensures { IfOk result (λ t. term_view t ≡ tm.Con (number.outcome_con (program_view s.now.program.now) proc) (tm.also_tm (term_view value) tm.no_tm)) }
{
    let mut values = List::new(alloc);
    values.push(value)?;
    outcome_term(s, proc, values)
}

#[tactic(auto, using(rp_logic::proofs::TermViews::term_views))]
fn unreturned_term(alloc: Global, s: &Setting) -> Result<Term, Memory>
    ensures { IfOk result (λ t. term_view t ≡ tm.Con (number.unreturned_con (program_view s.now.program.now)) tm.no_tm) }
{
    Ok(Term::Con(unreturned_con(s.program)?, List::new(alloc)))
}

/// The term of an expression.
#[cycle(term_of)]
#[tactic(auto, using(rp_lang::proofs::ExprViews::expr_views, rp_logic::proofs::TermViews::term_views))]
pub fn term_of(alloc: Global, s: &Setting, bounds: &Bounds, e: &Expr) -> Result<Term, Memory>
    ensures { IfOk result (λ t. term_view t ≡ spec.term_of (program_view s.now.program.now) (place_view s.now.at) (around_view s.now bounds.now) (expr_view e.now)) }
{
    match e {
        Expr::Slot(slot) => slot_term(alloc, s.slots, *slot),
        Expr::Bound(n) => bounds.term(alloc, *n),
        Expr::Int(n) => Ok(Term::Int(*n)),
        Expr::Str(bytes) => Ok(Term::Str(copy_bytes(alloc, bytes.as_slice())?)),
        Expr::Con(con, args) => {
            let args = terms_of(alloc, s, bounds, args.as_slice())?;
            Ok(Term::Con(*con, args))
        }
        Expr::Plus(e, n) => {
            let left = Boxed::new(alloc, term_of(alloc, s, bounds, e.get())?)?;
            Ok(Term::Plus(left, *n))
        }
        Expr::Add(a, b) => {
            let left = Boxed::new(alloc, term_of(alloc, s, bounds, a.get())?)?;
            let right = Boxed::new(alloc, term_of(alloc, s, bounds, b.get())?)?;
            pair(alloc, 5, left, right)
        }
        Expr::Sub(a, b) => {
            let left = Boxed::new(alloc, term_of(alloc, s, bounds, a.get())?)?;
            let right = Boxed::new(alloc, term_of(alloc, s, bounds, b.get())?)?;
            pair(alloc, 6, left, right)
        }
        Expr::Query(query, args) => {
            let args = terms_of(alloc, s, bounds, args.as_slice())?;
            value_term(s, *query, args)
        }
        Expr::OpOf(call) => applied(alloc, 0, term_of(alloc, s, bounds, call.get())?),
        Expr::OpTerm(op, args) => {
            let args = terms_of(alloc, s, bounds, args.as_slice())?;
            operation_term(s, *op, args)
        }
        Expr::OriginOf(call) => applied(alloc, 1, term_of(alloc, s, bounds, call.get())?),
        Expr::InfoOf(inv) => applied(alloc, 2, term_of(alloc, s, bounds, inv.get())?),
        Expr::InfoTerm(proc, args) => {
            let args = terms_of(alloc, s, bounds, args.as_slice())?;
            info_term(s, *proc, args)
        }
        Expr::ResultOf(inv) => {
            applied(alloc, s.at.results, term_of(alloc, s, bounds, inv.get())?)
        }
        Expr::ResultTerm(proc, None) => outcome_term(s, *proc, List::new(alloc)),
        Expr::ResultTerm(proc, Some(value)) => {
            let made = term_of(alloc, s, bounds, value.get())?;
            outcome_over(alloc, s, *proc, made)
        }
        Expr::Unreturned => unreturned_term(alloc, s),
    }
}

/// The terms of the expressions, in their order.
#[cycle(term_of)]
#[tactic(auto)]
pub fn terms_of(
    alloc: Global,
    s: &Setting,
    bounds: &Bounds,
    exprs: &[Expr],
) -> Result<List<Term>, Memory>
    ensures { IfOk result (λ ts. terms_view ts ≡ spec.terms_of (program_view s.now.program.now) (place_view s.now.at) (around_view s.now bounds.now) (exprs_view exprs.now)) }
{
    let mut made = List::new(alloc);
    for e in exprs {
        made.push(term_of(alloc, s, bounds, e)?)?;
    }
    Ok(made)
}
