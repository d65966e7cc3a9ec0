ghost use Rattle.std.specs.Prelude.{◌≡◌, ◌+◌, ◌≤◌, ◌↔◌, max, min, IsTrue};
ghost use Rattle.rp_lang.specs.Sizes.{ex_depth, ex_nodes, fo_depth, fos_depth, arms_depth, fo_nodes, fos_nodes, arms_nodes};
ghost use Rattle.rp_lang.specs.Views.{expr_view, formula_view, formulas_view, arms_view};

use crate::expr::Expr;
use rp_value::{Boxed, List, Ty};

/// A formula of a program.
#[cycle(formula)]
#[derive(Drop)]
pub enum Formula {
    And(List<Formula>),
    Or(List<Formula>),
    Not(Boxed<Formula>),
    Implies(Boxed<Formula>, Boxed<Formula>),
    All(Ty, Boxed<Formula>),
    Any(Ty, Boxed<Formula>),
    /// The `Bool` expression is true.
    Holds(Expr),
    Equal(Expr, Expr),
    Less(Expr, Expr),
    AtMost(Expr, Expr),
    Visible(Expr),
    /// The first call happened before the second.
    Before(Expr, Expr),
    /// Both calls are of one transaction.
    Same(Expr, Expr),
    Match(Expr, List<Arm>),
}

/// An arm of a `Formula::Match`. It binds one variable a field of its constructor, the last field innermost.
#[cycle(formula)]
#[derive(Drop)]
pub struct Arm {
    pub con: u32,
    pub body: Formula,
}

impl Formula {
    /// Whether the depth is at most `limit`. The expressions in it are parts of it.
    #[cycle(formula_depth)]
    #[tactic(auto, using(crate::proofs::FormulaViews::formula_views))]
    pub fn is_within(&self, limit: u32) -> bool
        ensures { IsTrue result ↔ (fo_depth (formula_view self.now) ≤ limit) }
    {
        if limit == 0 {
            return false;
        }
        let less = limit - 1;
        match self {
            Formula::And(parts) | Formula::Or(parts) => are_within(parts.as_slice(), less),
            Formula::Not(f) | Formula::All(_, f) | Formula::Any(_, f) => f.get().is_within(less),
            Formula::Implies(a, b) => a.get().is_within(less) && b.get().is_within(less),
            Formula::Holds(e) | Formula::Visible(e) => e.is_within(less),
            Formula::Equal(a, b)
            | Formula::Less(a, b)
            | Formula::AtMost(a, b)
            | Formula::Before(a, b)
            | Formula::Same(a, b) => are_both_within(a, b, less),
            Formula::Match(on, arms) => on.is_within(less)
                && arms_are_within(arms.as_slice(), less),
        }
    }
}

fn are_both_within(a: &Expr, b: &Expr, limit: u32) -> bool
    ensures { IsTrue result ↔ (max (ex_depth (expr_view a.now)) (ex_depth (expr_view b.now)) ≤ limit) }
{
    a.is_within(limit) && b.is_within(limit)
}

#[cycle(formula_depth)]
#[tactic(auto, using(crate::proofs::FormulaViews::formula_views))]
fn are_within(parts: &[Formula], limit: u32) -> bool
    ensures { IsTrue result ↔ (fos_depth (formulas_view parts.now) ≤ limit) }
{
    for part in parts {
        if !part.is_within(limit) {
            return false;
        }
    }
    true
}

#[cycle(formula_depth)]
#[tactic(auto, using(crate::proofs::FormulaViews::formula_views))]
fn arms_are_within(arms: &[Arm], limit: u32) -> bool
    ensures { IsTrue result ↔ (arms_depth (arms_view arms.now) ≤ limit) }
{
    for arm in arms {
        if !arm.body.is_within(limit) {
            return false;
        }
    }
    true
}

impl Formula {
    /// The number of nodes, or the greatest number where there are more.
    #[cycle(formula_nodes)]
    #[tactic(auto, using(crate::proofs::FormulaViews::formula_views))]
    pub fn nodes(&self) -> u64
        ensures { result ≡ min (fo_nodes (formula_view self.now)) 18446744073709551615 }
    {
        match self {
            Formula::And(parts) | Formula::Or(parts) => formulas_nodes(
                parts.as_slice(),
            ).saturating_add(1),
            Formula::Not(f) | Formula::All(_, f) | Formula::Any(_, f) => f
                .get()
                .nodes()
                .saturating_add(1),
            Formula::Implies(a, b) => a
                .get()
                .nodes()
                .saturating_add(b.get().nodes())
                .saturating_add(1),
            Formula::Holds(e) | Formula::Visible(e) => e.nodes().saturating_add(1),
            Formula::Equal(a, b)
            | Formula::Less(a, b)
            | Formula::AtMost(a, b)
            | Formula::Before(a, b)
            | Formula::Same(a, b) => nodes_of_both(a, b).saturating_add(1),
            Formula::Match(on, arms) => on
                .nodes()
                .saturating_add(arms_nodes(arms.as_slice()))
                .saturating_add(1),
        }
    }
}

fn nodes_of_both(a: &Expr, b: &Expr) -> u64
    ensures { result ≡ min (ex_nodes (expr_view a.now) + ex_nodes (expr_view b.now)) 18446744073709551615 }
{
    a.nodes().saturating_add(b.nodes())
}

#[cycle(formula_nodes)]
#[tactic(auto, using(crate::proofs::FormulaViews::formula_views))]
fn formulas_nodes(parts: &[Formula]) -> u64
    ensures { result ≡ min (fos_nodes (formulas_view parts.now)) 18446744073709551615 }
{
    let mut nodes: u64 = 0;
    for part in parts {
        nodes = nodes.saturating_add(part.nodes());
    }
    nodes
}

#[cycle(formula_nodes)]
#[tactic(auto, using(crate::proofs::FormulaViews::formula_views))]
fn arms_nodes(arms: &[Arm]) -> u64
    ensures { result ≡ min (arms_nodes (arms_view arms.now)) 18446744073709551615 }
{
    let mut nodes: u64 = 0;
    for arm in arms {
        nodes = nodes.saturating_add(arm.body.nodes());
    }
    nodes
}
