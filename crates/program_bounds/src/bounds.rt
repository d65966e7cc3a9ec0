//! Limits on one expression or formula: depth, nodes, and variables inside one another.
ghost use Rattle.std.specs.Prelude.{◌≡◌, ◌≤◌, ◌↔◌, ◌+◌, min, unwrap_or, slice_get, IsTrue};
ghost use Rattle.rp_lang.specs.Bounds as spec;
ghost use Rattle.program_bounds.specs.UsesView.{uses_view};
ghost use Rattle.rp_lang.specs.Types as types;
ghost use Rattle.rp_lang.specs.Views.{expr_view, exprs_view, formula_view, formulas_view, arms_view};

use rp_lang::{Arm, Expr, Formula};
use rp_value::{ConTable, Ty};

/// The greatest depth of an expression or a formula.
const DEPTH: u32 = 64;

/// The most nodes of an expression or a formula.
const NODES: u64 = 100_000;

/// The most variables of quantifiers and arms inside one another.
const BINDERS: usize = 16;

/// The types of a constructor's fields.
pub fn fields_of(cons: &ConTable, con: u32) -> &[Ty]
    ensures { result.now ≡ types.fields_of cons.now con }
{
    match cons.cons.as_slice().get(con as usize) {
        Some(con) => con.fields.as_slice(),
        None => &[],
    }
}

/// How much each use of an open variable counts, the innermost first.
#[derive(Drop)]
pub enum Uses<'a> {
    Closed,
    Quantified(&'a Uses<'a>),
    /// So many variables of an arm, and the nodes of the expression that is matched.
    Fields(usize, u64, &'a Uses<'a>),
}

impl<'a> Uses<'a> {
    /// How much a use of the n-th enclosing variable counts.
    pub fn get(&self, n: u32) -> u64
        ensures { result ≡ unwrap_or (slice_get (uses_view self.now) n) 1 }
    {
        match self {
            Uses::Closed => 1,
            Uses::Quantified(outer) => if n == 0 { 1 } else { outer.get(n - 1) },
            Uses::Fields(count, each, outer) => if (n as usize) < *count {
                *each
            } else {
                outer.get(n - *count as u32)
            },
        }
    }
}

/// The sum, or 100,001 where it is more than 100,000.
fn plus(a: u64, b: u64) -> u64
    ensures { result ≡ min (a + b) 100001 }
{
    a.saturating_add(b).min(NODES + 1)
}

/// The nodes of an expression, or 100,001 where there are more than 100,000.
#[cycle(ex_weight)]
#[tactic(auto, using(rp_lang::proofs::ExprViews::expr_views))]
fn ex_weight(e: &Expr, uses: &Uses) -> u64
    ensures { result ≡ min (spec.ex_weight (uses_view uses.now) (expr_view e.now)) 100001 }
{
    match e {
        Expr::Bound(n) => uses.get(*n).min(NODES + 1),
        Expr::Slot(_)
        | Expr::Int(_)
        | Expr::Str(_)
        | Expr::ResultTerm(_, None)
        | Expr::Unreturned => 1,
        Expr::Con(_, args)
        | Expr::Query(_, args)
        | Expr::OpTerm(_, args)
        | Expr::InfoTerm(_, args) => plus(1, exs_weight(args.as_slice(), uses)),
        Expr::Plus(e, _)
        | Expr::OpOf(e)
        | Expr::OriginOf(e)
        | Expr::InfoOf(e)
        | Expr::ResultOf(e)
        | Expr::ResultTerm(_, Some(e)) => plus(1, ex_weight(e.get(), uses)),
        Expr::Add(a, b) | Expr::Sub(a, b) => {
            let left = ex_weight(a.get(), uses);
            plus(plus(1, left), ex_weight(b.get(), uses))
        }
    }
}

#[cycle(ex_weight)]
#[tactic(auto, using(rp_lang::proofs::ExprViews::expr_views))]
fn exs_weight(exprs: &[Expr], uses: &Uses) -> u64
    ensures { result ≡ min (spec.exs_weight (uses_view uses.now) (exprs_view exprs.now)) 100001 }
{
    let mut sum: u64 = 0;
    for e in exprs {
        sum = plus(sum, ex_weight(e, uses));
    }
    sum
}

/// The nodes of two expressions and one around them.
fn pair_weight(a: &Expr, b: &Expr, uses: &Uses) -> u64
    ensures { result ≡ min (1 + spec.ex_weight (uses_view uses.now) (expr_view a.now) + spec.ex_weight (uses_view uses.now) (expr_view b.now)) 100001 }
{
    plus(plus(1, ex_weight(a, uses)), ex_weight(b, uses))
}

/// The nodes of a formula, or 100,001 where there are more than 100,000.
#[cycle(fo_weight)]
#[tactic(auto, using(rp_lang::proofs::FormulaViews::formula_views, crate::proofs::UsesViews::uses_views))]
fn fo_weight(f: &Formula, cons: &ConTable, uses: &Uses) -> u64
    ensures { result ≡ min (spec.fo_weight cons.now (uses_view uses.now) (formula_view f.now)) 100001 }
{
    match f {
        Formula::And(parts) | Formula::Or(parts) => plus(
            1,
            fos_weight(parts.as_slice(), cons, uses),
        ),
        Formula::Not(part) => plus(1, fo_weight(part.get(), cons, uses)),
        Formula::Implies(a, b) => {
            let left = fo_weight(a.get(), cons, uses);
            plus(plus(1, left), fo_weight(b.get(), cons, uses))
        }
        Formula::All(_, body) | Formula::Any(_, body) => plus(
            1,
            fo_weight(body.get(), cons, &Uses::Quantified(&*uses)),
        ),
        Formula::Holds(e) | Formula::Visible(e) => plus(1, ex_weight(e, uses)),
        Formula::Equal(a, b)
        | Formula::Less(a, b)
        | Formula::AtMost(a, b)
        | Formula::Before(a, b)
        | Formula::Same(a, b) => pair_weight(a, b, uses),
        Formula::Match(on, arms) => {
            let each = ex_weight(on, uses);
            if each > NODES {
                return each;
            }
            plus(
                plus(1, each),
                arms_weight(arms.as_slice(), cons, uses, each),
            )
        }
    }
}

#[cycle(fo_weight)]
#[tactic(auto, using(rp_lang::proofs::FormulaViews::formula_views, crate::proofs::UsesViews::uses_views))]
fn fos_weight(parts: &[Formula], cons: &ConTable, uses: &Uses) -> u64
    ensures { result ≡ min (spec.fos_weight cons.now (uses_view uses.now) (formulas_view parts.now)) 100001 }
{
    let mut sum: u64 = 0;
    for part in parts {
        sum = plus(sum, fo_weight(part, cons, uses));
    }
    sum
}

#[cycle(fo_weight)]
#[tactic(auto, using(rp_lang::proofs::FormulaViews::formula_views, crate::proofs::UsesViews::uses_views))]
fn arms_weight(arms: &[Arm], cons: &ConTable, uses: &Uses, each: u64) -> u64
    ensures { result ≡ min (spec.arms_weight cons.now (uses_view uses.now) each (arms_view arms.now)) 100001 }
{
    let mut sum: u64 = 0;
    for arm in arms {
        let count = fields_of(cons, arm.con).len();
        let inside = fo_weight(&arm.body, cons, &Uses::Fields(count, each, &*uses));
        sum = plus(sum, inside);
    }
    sum
}

/// Whether at most so many variables of quantifiers and arms are inside one another.
#[cycle(has_binders_within)]
#[tactic(auto, using(rp_lang::proofs::FormulaViews::formula_views))]
fn has_binders_within(f: &Formula, cons: &ConTable, limit: usize) -> bool
    ensures { IsTrue result ↔ (spec.fo_binders cons.now (formula_view f.now) ≤ limit) }
{
    match f {
        Formula::And(parts) | Formula::Or(parts) => have_binders_within(
            parts.as_slice(),
            cons,
            limit,
        ),
        Formula::Not(part) => has_binders_within(part.get(), cons, limit),
        Formula::Implies(a, b) => has_binders_within(a.get(), cons, limit)
            && has_binders_within(b.get(), cons, limit),
        Formula::All(_, body) | Formula::Any(_, body) => limit > 0
            && has_binders_within(body.get(), cons, limit - 1),
        Formula::Holds(_) => true,
        Formula::Visible(_) => true,
        Formula::Equal(_, _) => true,
        Formula::Less(_, _) => true,
        Formula::AtMost(_, _) => true,
        Formula::Before(_, _) => true,
        Formula::Same(_, _) => true,
        Formula::Match(_, arms) => arms_have_binders_within(arms.as_slice(), cons, limit),
    }
}

#[cycle(has_binders_within)]
#[tactic(auto, using(rp_lang::proofs::FormulaViews::formula_views))]
fn have_binders_within(parts: &[Formula], cons: &ConTable, limit: usize) -> bool
    ensures { IsTrue result ↔ (spec.fos_binders cons.now (formulas_view parts.now) ≤ limit) }
{
    for part in parts {
        if !has_binders_within(part, cons, limit) {
            return false;
        }
    }
    true
}

#[cycle(has_binders_within)]
#[tactic(auto, using(rp_lang::proofs::FormulaViews::formula_views))]
fn arms_have_binders_within(arms: &[Arm], cons: &ConTable, limit: usize) -> bool
    ensures { IsTrue result ↔ (spec.arms_binders cons.now (arms_view arms.now) ≤ limit) }
{
    for arm in arms {
        let count = fields_of(cons, arm.con).len();
        if count > limit || !has_binders_within(&arm.body, cons, limit - count) {
            return false;
        }
    }
    true
}

/// Whether the expression is within the limits.
pub fn is_small_ex(e: &Expr) -> bool
    ensures { result ≡ spec.is_small_ex (expr_view e.now) }
{
    e.is_within(DEPTH) && e.nodes() <= NODES
}

pub fn are_small_exs(exprs: &[Expr]) -> bool
    ensures { result ≡ spec.are_small_exs (exprs_view exprs.now) }
{
    for e in exprs {
        if !is_small_ex(e) {
            return false;
        }
    }
    true
}

/// Whether the formula is within the limits.
#[tactic(auto, using(crate::proofs::UsesViews::uses_views))]
pub fn is_small_fo(f: &Formula, cons: &ConTable) -> bool
    ensures { result ≡ spec.is_small_fo cons.now (formula_view f.now) }
{
    f.is_within(DEPTH)
        && has_binders_within(f, cons, BINDERS)
        && fo_weight(f, cons, &Uses::Closed) <= NODES
}
