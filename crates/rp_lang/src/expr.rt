ghost use Rattle.std.specs.Prelude.{◌≡◌, ◌≤◌, ◌↔◌, min, IsTrue};
ghost use Rattle.rp_lang.specs.Sizes.{ex_depth, exs_depth, ex_nodes, exs_nodes};
ghost use Rattle.rp_lang.specs.Views.{expr_view, exprs_view};

use rp_value::{Boxed, Bytes, List};

/// An expression of a program. Operations, queries, procedures and constructors go by their numbers.
#[derive(Drop)]
pub enum Expr {
    Slot(u32),
    /// The variable of the n-th enclosing binder, from 0 for the innermost.
    Bound(u32),
    Int(i128),
    Str(Bytes),
    Con(u32, List<Expr>),
    Plus(Boxed<Expr>, i128),
    Add(Boxed<Expr>, Boxed<Expr>),
    Sub(Boxed<Expr>, Boxed<Expr>),
    Query(u32, List<Expr>),
    /// The operation of a call.
    OpOf(Boxed<Expr>),
    OpTerm(u32, List<Expr>),
    /// The invocation that made a call.
    OriginOf(Boxed<Expr>),
    /// The procedure and the arguments of an invocation.
    InfoOf(Boxed<Expr>),
    InfoTerm(u32, List<Expr>),
    /// The outcome of an invocation.
    ResultOf(Boxed<Expr>),
    /// That a procedure returned, with its value if it has one.
    ResultTerm(u32, Option<Boxed<Expr>>),
    /// The outcome of an invocation that has not returned.
    Unreturned,
}

impl Expr {
    /// Whether the depth is at most `limit`.
    #[cycle(expr_depth)]
    #[tactic(auto, using(crate::proofs::ExprViews::expr_views))]
    pub fn is_within(&self, limit: u32) -> bool
        ensures { IsTrue result ↔ (ex_depth (expr_view self.now) ≤ limit) }
    {
        if limit == 0 {
            return false;
        }
        let less = limit - 1;
        match self {
            Expr::Slot(_)
            | Expr::Bound(_)
            | Expr::Int(_)
            | Expr::Str(_)
            | Expr::ResultTerm(_, None)
            | Expr::Unreturned => true,
            Expr::Con(_, args)
            | Expr::Query(_, args)
            | Expr::OpTerm(_, args)
            | Expr::InfoTerm(_, args) => are_within(args.as_slice(), less),
            Expr::Plus(e, _)
            | Expr::OpOf(e)
            | Expr::OriginOf(e)
            | Expr::InfoOf(e)
            | Expr::ResultOf(e)
            | Expr::ResultTerm(_, Some(e)) => e.get().is_within(less),
            Expr::Add(a, b) | Expr::Sub(a, b) => a.get().is_within(less) && b.get().is_within(less),
        }
    }
}

#[cycle(expr_depth)]
#[tactic(auto, using(crate::proofs::ExprViews::expr_views))]
fn are_within(exprs: &[Expr], limit: u32) -> bool
    ensures { IsTrue result ↔ (exs_depth (exprs_view exprs.now) ≤ limit) }
{
    for e in exprs {
        if !e.is_within(limit) {
            return false;
        }
    }
    true
}

impl Expr {
    /// The number of nodes, or the greatest number where there are more.
    #[cycle(expr_nodes)]
    #[tactic(auto, using(crate::proofs::ExprViews::expr_views))]
    pub fn nodes(&self) -> u64
        ensures { result ≡ min (ex_nodes (expr_view self.now)) 18446744073709551615 }
    {
        match self {
            Expr::Slot(_)
            | Expr::Bound(_)
            | Expr::Int(_)
            | Expr::Str(_)
            | Expr::ResultTerm(_, None)
            | Expr::Unreturned => 1,
            Expr::Con(_, args)
            | Expr::Query(_, args)
            | Expr::OpTerm(_, args)
            | Expr::InfoTerm(_, args) => exprs_nodes(args.as_slice()).saturating_add(1),
            Expr::Plus(e, _)
            | Expr::OpOf(e)
            | Expr::OriginOf(e)
            | Expr::InfoOf(e)
            | Expr::ResultOf(e)
            | Expr::ResultTerm(_, Some(e)) => e.get().nodes().saturating_add(1),
            Expr::Add(a, b) | Expr::Sub(a, b) => a
                .get()
                .nodes()
                .saturating_add(b.get().nodes())
                .saturating_add(1),
        }
    }
}

#[cycle(expr_nodes)]
#[tactic(auto, using(crate::proofs::ExprViews::expr_views))]
fn exprs_nodes(exprs: &[Expr]) -> u64
    ensures { result ≡ min (exs_nodes (exprs_view exprs.now)) 18446744073709551615 }
{
    let mut nodes: u64 = 0;
    for e in exprs {
        nodes = nodes.saturating_add(e.nodes());
    }
    nodes
}
