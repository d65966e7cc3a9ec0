// How much work the truth of a formula takes, counted.
ghost use Rattle.std.specs.Prelude.{◌≡◌, ◌<◌, length, min};
ghost use Rattle.rp_lang.specs.Views.{expr_view, exprs_view, formula_view, formulas_view, arms_view};
ghost use Rattle.crdt_truth.specs.Breadths as spec;
ghost use Rattle.crdt_truth.specs.Readings.{parts_view};

use crate::ranges::{bound, is_in_range};
use crate::reading::Reading;
use rp_lang::{Arm, Expr, Formula};
use rp_value::Ty;

/// The breadth of a call's query, one more than the calls of the history.
fn query_breadth(r: &Reading) -> u64
    ensures { result ≡ spec.query_breadth (parts_view r.now) }
{
    u64::from(r.history.len()) + 1
}

/// What the store queries of an expression add.
#[cycle(expr_breadth)]
#[tactic(auto, using(rp_lang::proofs::ExprViews::expr_views))]
fn expr_breadth(e: &Expr, r: &Reading) -> u64
    ensures { result ≡ min (spec.ex_breadth (parts_view r.now) (expr_view e.now)) 18446744073709551615 }
{
    match e {
        Expr::Slot(_) => 0,
        Expr::Bound(_) => 0,
        Expr::Int(_) => 0,
        Expr::Str(_) => 0,
        Expr::Con(_, args) => exprs_breadth(args.as_slice(), r),
        Expr::Plus(e, _) => expr_breadth(e.get(), r),
        Expr::Add(a, b) => expr_breadth(a.get(), r).saturating_add(expr_breadth(b.get(), r)),
        Expr::Sub(a, b) => expr_breadth(a.get(), r).saturating_add(expr_breadth(b.get(), r)),
        Expr::Query(_, args) => query_breadth(r).saturating_add(exprs_breadth(args.as_slice(), r)),
        Expr::OpOf(call) => expr_breadth(call.get(), r),
        Expr::OpTerm(_, args) => exprs_breadth(args.as_slice(), r),
        Expr::OriginOf(call) => expr_breadth(call.get(), r),
        Expr::InfoOf(inv) => expr_breadth(inv.get(), r),
        Expr::InfoTerm(_, args) => exprs_breadth(args.as_slice(), r),
        Expr::ResultOf(inv) => expr_breadth(inv.get(), r),
        Expr::ResultTerm(_, None) => 0,
        Expr::ResultTerm(_, Some(e)) => expr_breadth(e.get(), r),
        Expr::Unreturned => 0,
    }
}

#[cycle(expr_breadth)]
#[tactic(auto, using(rp_lang::proofs::ExprViews::expr_views))]
fn exprs_breadth(exprs: &[Expr], r: &Reading) -> u64
    ensures { result ≡ min (spec.exs_breadth (parts_view r.now) (exprs_view exprs.now)) 18446744073709551615 }
{
    let mut sum: u64 = 0;
    for e in exprs {
        sum = sum.saturating_add(expr_breadth(e, r));
    }
    sum
}

fn pair_breadth(a: &Expr, b: &Expr, r: &Reading) -> u64
    ensures { result ≡ min (spec.pair_breadth (parts_view r.now) (expr_view a.now) (expr_view b.now)) 18446744073709551615 }
{
    expr_breadth(a, r)
        .saturating_add(expr_breadth(b, r))
        .saturating_add(1)
}

/// How many a quantifier over the type ranges over.
#[tactic(auto, using(crate::proofs::RangeLemmas::in_range_more))]
fn range_size(r: &Reading, over: Ty) -> u64
    requires { length r.now.infos.now < 4294967296 }
    ensures { result ≡ spec.range_size (parts_view r.now) over }
{
    let mut size: u64 = 0;
    for n in 0..bound(r, over) {
        if is_in_range(r, over, n) {
            size += 1;
        }
    }
    size
}

/// The breadth of a formula, or the greatest number where it is more: 1 for an atom, and for each store query in it one
/// more than the calls of the history; for a connective 1 and the sum of its parts; for a quantifier 1 and its range's
/// size times the breadth of its body; for a `match` 1, what the queries of its value add, and the sum of its arms.
#[cycle(breadth)]
#[tactic(auto, using(rp_lang::proofs::FormulaViews::formula_views, crate::proofs::RangeLemmas::product_cut))]
pub fn breadth(f: &Formula, r: &Reading) -> u64
    requires few { length r.now.infos.now < 4294967296 }
    ensures { result ≡ min (spec.breadth (parts_view r.now) (formula_view f.now)) 18446744073709551615 }
{
    match f {
        Formula::And(parts) => breadths(parts.as_slice(), r).saturating_add(1),
        Formula::Or(parts) => breadths(parts.as_slice(), r).saturating_add(1),
        Formula::Not(part) => breadth(part.get(), r).saturating_add(1),
        Formula::Implies(a, b) => breadth(a.get(), r)
            .saturating_add(breadth(b.get(), r))
            .saturating_add(1),
        Formula::All(over, body) => range_size(r, *over)
            .saturating_mul(breadth(body.get(), r))
            .saturating_add(1),
        Formula::Any(over, body) => range_size(r, *over)
            .saturating_mul(breadth(body.get(), r))
            .saturating_add(1),
        Formula::Holds(e) => expr_breadth(e, r).saturating_add(1),
        Formula::Equal(a, b) => pair_breadth(a, b, r),
        Formula::Less(a, b) => pair_breadth(a, b, r),
        Formula::AtMost(a, b) => pair_breadth(a, b, r),
        Formula::Visible(call) => expr_breadth(call, r).saturating_add(1),
        Formula::Before(a, b) => pair_breadth(a, b, r),
        Formula::Same(a, b) => pair_breadth(a, b, r),
        Formula::Match(on, arms) => expr_breadth(on, r)
            .saturating_add(arms_breadth(arms.as_slice(), r))
            .saturating_add(1),
    }
}

#[cycle(breadth)]
#[tactic(auto, using(rp_lang::proofs::FormulaViews::formula_views))]
fn breadths(parts: &[Formula], r: &Reading) -> u64
    requires few { length r.now.infos.now < 4294967296 }
    ensures { result ≡ min (spec.breadths (parts_view r.now) (formulas_view parts.now)) 18446744073709551615 }
{
    let mut sum: u64 = 0;
    for part in parts {
        sum = sum.saturating_add(breadth(part, r));
    }
    sum
}

#[cycle(breadth)]
#[tactic(auto, using(rp_lang::proofs::FormulaViews::formula_views))]
fn arms_breadth(arms: &[Arm], r: &Reading) -> u64
    requires few { length r.now.infos.now < 4294967296 }
    ensures { result ≡ min (spec.arms_breadth (parts_view r.now) (arms_view arms.now)) 18446744073709551615 }
{
    let mut sum: u64 = 0;
    for arm in arms {
        sum = sum.saturating_add(breadth(&arm.body, r));
    }
    sum
}
