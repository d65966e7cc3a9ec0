// Truth of formulas.
ghost use Rattle.std.specs.Prelude.{◌≡◌, ◌<◌, IfOk, true, not, ◌&&◌, ◌||◌, length, ◌∷◌, int_lt, int_le};
ghost use Rattle.rp_value.specs.ValueView.{value_view, values_view};
ghost use Rattle.crdt_truth.specs.Meanings.{no_vals};
ghost use Rattle.rp_lang.specs.Views.{expr_view, formula_view, formulas_view, arms_view};
ghost use Rattle.crdt_defs.specs.Calls.{calls_view};
ghost use Rattle.crdt_defs.specs.Parts as parts;
ghost use Rattle.crdt_defs.specs.Parts.{each_member, some_member};
ghost use Rattle.crdt_defs.specs.Truths as spec;
ghost use Rattle.crdt_truth.specs.Open.{binders_view};
ghost use Rattle.crdt_truth.specs.Readings.{parts_view, reading_view};
ghost use Rattle.crdt_truth.specs.means.Done.{AreDone, IsReady};
ghost use Rattle.crdt_truth.specs.Within.{ExWithin, FoWithin, EachWithin, FosWithin, ArmWithin};

use crate::binders::Binders;
use crate::exprs::value;
use crate::meaning::{are_same, stands_for};
use crate::numbers::number;
use crate::ranges::{bound, is_before, is_in_range, is_same, is_visible, member};
use crate::reading::Reading;
use rp_lang::{Arm, Expr, Formula};
use rp_value::{List, Memory, Ty, Value};
use std::alloc::Global;

fn are_none(values: &[Value]) -> bool
    ensures { result ≡ no_vals (values_view values.now) }
{
    match values {
        [] => true,
        [_, ..] => false,
    }
}

/// Whether the value is `true`.
#[tactic(auto, using(rp_value::proofs::ValueViews::value_views, crate::proofs::RangeLemmas::true_built))]
fn is_true(value: &Value) -> bool
    ensures { result ≡ spec.is_true (value_view value.now) }
{
    match value {
        Value::Con { con, args } => *con == 1 && are_none(args.as_slice()),
        Value::Int(_) => false,
        Value::Str(_) => false,
        Value::Atom { .. } => false,
        Value::Call(_) => false,
        Value::Inv(_) => false,
    }
}

fn holds(alloc: Global, r: &Reading, binders: &Binders, e: &Expr) -> Result<bool, Memory>
    requires { ExWithin (reading_view r.now) (binders_view binders.now) (expr_view e.now) }
    ensures { IfOk result (λ t. t ≡ spec.is_true (spec.value (reading_view r.now) (binders_view binders.now) (expr_view e.now))) }
{
    Ok(is_true(&value(alloc, r, binders, e)?))
}

fn are_equal(
    alloc: Global,
    r: &Reading,
    binders: &Binders,
    a: &Expr,
    b: &Expr,
) -> Result<bool, Memory>
    requires left { ExWithin (reading_view r.now) (binders_view binders.now) (expr_view a.now) }
    requires right { ExWithin (reading_view r.now) (binders_view binders.now) (expr_view b.now) }
    ensures { IfOk result (λ t. t
        ≡ spec.same_meant (spec.meant (reading_view r.now) (binders_view binders.now) (expr_view a.now))
        (spec.meant (reading_view r.now) (binders_view binders.now) (expr_view b.now))) }
{
    let left = stands_for(alloc, r, binders, a)?;
    let right = stands_for(alloc, r, binders, b)?;
    Ok(are_same(&left, &right))
}

fn is_less(
    alloc: Global,
    r: &Reading,
    binders: &Binders,
    a: &Expr,
    b: &Expr,
) -> Result<bool, Memory>
    requires left { ExWithin (reading_view r.now) (binders_view binders.now) (expr_view a.now) }
    requires right { ExWithin (reading_view r.now) (binders_view binders.now) (expr_view b.now) }
    ensures { IfOk result (λ t. t
        ≡ int_lt (spec.number (spec.value (reading_view r.now) (binders_view binders.now) (expr_view a.now)))
        (spec.number (spec.value (reading_view r.now) (binders_view binders.now) (expr_view b.now)))) }
{
    let left = value(alloc, r, binders, a)?;
    let right = value(alloc, r, binders, b)?;
    Ok(number(&left) < number(&right))
}

fn is_at_most(
    alloc: Global,
    r: &Reading,
    binders: &Binders,
    a: &Expr,
    b: &Expr,
) -> Result<bool, Memory>
    requires left { ExWithin (reading_view r.now) (binders_view binders.now) (expr_view a.now) }
    requires right { ExWithin (reading_view r.now) (binders_view binders.now) (expr_view b.now) }
    ensures { IfOk result (λ t. t
        ≡ int_le (spec.number (spec.value (reading_view r.now) (binders_view binders.now) (expr_view a.now)))
        (spec.number (spec.value (reading_view r.now) (binders_view binders.now) (expr_view b.now)))) }
{
    let left = value(alloc, r, binders, a)?;
    let right = value(alloc, r, binders, b)?;
    Ok(number(&left) <= number(&right))
}

fn sees(alloc: Global, r: &Reading, binders: &Binders, call: &Expr) -> Result<bool, Memory>
    requires { ExWithin (reading_view r.now) (binders_view binders.now) (expr_view call.now) }
    ensures { IfOk result (λ t. t
        ≡ spec.is_visible (reading_view r.now)
        (spec.value (reading_view r.now) (binders_view binders.now) (expr_view call.now))) }
{
    Ok(is_visible(r, &value(alloc, r, binders, call)?))
}

fn comes_before(
    alloc: Global,
    r: &Reading,
    done: &[List<u32>],
    binders: &Binders,
    a: &Expr,
    b: &Expr,
) -> Result<bool, Memory>
    requires done { AreDone (parts_view r.now) (length (calls_view r.now.history.now)) done.now }
    requires left { ExWithin (reading_view r.now) (binders_view binders.now) (expr_view a.now) }
    requires right { ExWithin (reading_view r.now) (binders_view binders.now) (expr_view b.now) }
    ensures { IfOk result (λ t. t
        ≡ spec.is_before (parts_view r.now) (spec.value (reading_view r.now) (binders_view binders.now) (expr_view a.now))
        (spec.value (reading_view r.now) (binders_view binders.now) (expr_view b.now))) }
{
    let left = value(alloc, r, binders, a)?;
    let right = value(alloc, r, binders, b)?;
    Ok(is_before(r, done, &left, &right))
}

fn are_of_one(
    alloc: Global,
    r: &Reading,
    binders: &Binders,
    a: &Expr,
    b: &Expr,
) -> Result<bool, Memory>
    requires left { ExWithin (reading_view r.now) (binders_view binders.now) (expr_view a.now) }
    requires right { ExWithin (reading_view r.now) (binders_view binders.now) (expr_view b.now) }
    ensures { IfOk result (λ t. t
        ≡ spec.is_same (parts_view r.now) (spec.value (reading_view r.now) (binders_view binders.now) (expr_view a.now))
        (spec.value (reading_view r.now) (binders_view binders.now) (expr_view b.now))) }
{
    let left = value(alloc, r, binders, a)?;
    let right = value(alloc, r, binders, b)?;
    Ok(is_same(r, &left, &right))
}

/// Whether the formula is true at these open variables, where each sum and difference that it may come to has 128 bits.
#[cycle(truth)]
#[tactic(auto, using(rp_lang::proofs::FormulaViews::formula_views, crate::proofs::OpenViews::binders_views))]
pub(crate) fn truth(
    alloc: Global,
    r: &Reading,
    done: &[List<u32>],
    binders: &Binders,
    f: &Formula,
) -> Result<bool, Memory>
    requires ready { IsReady r.now done.now }
    requires within { FoWithin (reading_view r.now) (binders_view binders.now) (formula_view f.now) }
    ensures { IfOk result (λ t. t ≡ spec.truth (reading_view r.now) (binders_view binders.now) (formula_view f.now)) }
{
    match f {
        Formula::And(parts) => all_true(alloc, r, done, binders, parts.as_slice()),
        Formula::Or(parts) => any_true(alloc, r, done, binders, parts.as_slice()),
        Formula::Not(part) => Ok(!truth(alloc, r, done, binders, part.get())?),
        Formula::Implies(a, b) => {
            if !truth(alloc, r, done, binders, a.get())? {
                return Ok(true);
            }
            truth(alloc, r, done, binders, b.get())
        }
        Formula::All(over, body) => each_true(alloc, r, done, binders, *over, body.get()),
        Formula::Any(over, body) => some_true(alloc, r, done, binders, *over, body.get()),
        Formula::Holds(e) => holds(alloc, r, binders, e),
        Formula::Equal(a, b) => are_equal(alloc, r, binders, a, b),
        Formula::Less(a, b) => is_less(alloc, r, binders, a, b),
        Formula::AtMost(a, b) => is_at_most(alloc, r, binders, a, b),
        Formula::Visible(call) => sees(alloc, r, binders, call),
        Formula::Before(a, b) => comes_before(alloc, r, done, binders, a, b),
        Formula::Same(a, b) => are_of_one(alloc, r, binders, a, b),
        Formula::Match(on, arms) => {
            let on = value(alloc, r, binders, on)?;
            arm_true(alloc, r, done, binders, &on, arms.as_slice())
        }
    }
}

#[cycle(truth)]
#[tactic(auto, using(rp_lang::proofs::FormulaViews::formula_views, crate::proofs::OpenViews::binders_views))]
fn all_true(
    alloc: Global,
    r: &Reading,
    done: &[List<u32>],
    binders: &Binders,
    parts: &[Formula],
) -> Result<bool, Memory>
    requires ready { IsReady r.now done.now }
    requires within { FosWithin (reading_view r.now) (binders_view binders.now) (formulas_view parts.now) }
    ensures { IfOk result (λ t. t ≡ spec.all_true (reading_view r.now) (binders_view binders.now) (formulas_view parts.now)) }
{
    for part in parts {
        if !truth(alloc, r, done, binders, part)? {
            return Ok(false);
        }
    }
    Ok(true)
}

#[cycle(truth)]
#[tactic(auto, using(rp_lang::proofs::FormulaViews::formula_views, crate::proofs::OpenViews::binders_views))]
fn any_true(
    alloc: Global,
    r: &Reading,
    done: &[List<u32>],
    binders: &Binders,
    parts: &[Formula],
) -> Result<bool, Memory>
    requires ready { IsReady r.now done.now }
    requires within { FosWithin (reading_view r.now) (binders_view binders.now) (formulas_view parts.now) }
    ensures { IfOk result (λ t. t ≡ spec.any_true (reading_view r.now) (binders_view binders.now) (formulas_view parts.now)) }
{
    for part in parts {
        if truth(alloc, r, done, binders, part)? {
            return Ok(true);
        }
    }
    Ok(false)
}

/// Whether the body is true of the one with this number, where the quantifier ranges over it.
#[cycle(truth)]
#[tactic(auto, using(rp_lang::proofs::FormulaViews::formula_views, crate::proofs::OpenViews::binders_views))]
fn is_kept(
    alloc: Global,
    r: &Reading,
    done: &[List<u32>],
    binders: &Binders,
    over: Ty,
    n: u32,
    body: &Formula,
) -> Result<bool, Memory>
    requires ready { IsReady r.now done.now }
    requires within { parts.is_in_range (parts_view r.now) over n ≡ true
        → FoWithin (reading_view r.now) (parts.member over n ∷ binders_view binders.now) (formula_view body.now) }
    ensures { IfOk result (λ t. t
        ≡ (not (parts.is_in_range (parts_view r.now) over n)
        || spec.truth (reading_view r.now) (parts.member over n ∷ binders_view binders.now) (formula_view body.now))) }
{
    if !is_in_range(r, over, n) {
        return Ok(true);
    }
    let one = member(alloc, over, n);
    truth(alloc, r, done, &Binders::One(&one, &*binders), body)
}

/// Whether the quantifier ranges over the one with this number, and the body is true of it.
#[cycle(truth)]
#[tactic(auto, using(rp_lang::proofs::FormulaViews::formula_views, crate::proofs::OpenViews::binders_views))]
fn is_met(
    alloc: Global,
    r: &Reading,
    done: &[List<u32>],
    binders: &Binders,
    over: Ty,
    n: u32,
    body: &Formula,
) -> Result<bool, Memory>
    requires ready { IsReady r.now done.now }
    requires within { parts.is_in_range (parts_view r.now) over n ≡ true
        → FoWithin (reading_view r.now) (parts.member over n ∷ binders_view binders.now) (formula_view body.now) }
    ensures { IfOk result (λ t. t
        ≡ (parts.is_in_range (parts_view r.now) over n
        && spec.truth (reading_view r.now) (parts.member over n ∷ binders_view binders.now) (formula_view body.now))) }
{
    if !is_in_range(r, over, n) {
        return Ok(false);
    }
    let one = member(alloc, over, n);
    truth(alloc, r, done, &Binders::One(&one, &*binders), body)
}

#[cycle(truth)]
#[tactic(auto, using(crate::proofs::RangeLemmas::all_more))]
fn each_true(
    alloc: Global,
    r: &Reading,
    done: &[List<u32>],
    binders: &Binders,
    over: Ty,
    body: &Formula,
) -> Result<bool, Memory>
    requires ready { IsReady r.now done.now }
    requires within { EachWithin (reading_view r.now) (binders_view binders.now) over (formula_view body.now) }
    ensures { IfOk result (λ t. t
        ≡ each_member (parts_view r.now) over
        (λ v. spec.truth (reading_view r.now) (v ∷ binders_view binders.now) (formula_view body.now))) }
{
    for n in 0..bound(r, over) {
        if !is_kept(alloc, r, done, binders, over, n, body)? {
            return Ok(false);
        }
    }
    Ok(true)
}

#[cycle(truth)]
#[tactic(auto, using(crdt_defs::proofs::BelowLemmas::any_more))]
fn some_true(
    alloc: Global,
    r: &Reading,
    done: &[List<u32>],
    binders: &Binders,
    over: Ty,
    body: &Formula,
) -> Result<bool, Memory>
    requires ready { IsReady r.now done.now }
    requires within { EachWithin (reading_view r.now) (binders_view binders.now) over (formula_view body.now) }
    ensures { IfOk result (λ t. t
        ≡ some_member (parts_view r.now) over
        (λ v. spec.truth (reading_view r.now) (v ∷ binders_view binders.now) (formula_view body.now))) }
{
    for n in 0..bound(r, over) {
        if is_met(alloc, r, done, binders, over, n, body)? {
            return Ok(true);
        }
    }
    Ok(false)
}

/// The arm of the constructor that the value is built with.
#[cycle(truth)]
#[tactic(auto, using(rp_lang::proofs::FormulaViews::formula_views, crate::proofs::OpenViews::binders_views))]
fn arm_true(
    alloc: Global,
    r: &Reading,
    done: &[List<u32>],
    binders: &Binders,
    on: &Value,
    arms: &[Arm],
) -> Result<bool, Memory>
    requires ready { IsReady r.now done.now }
    requires within { ArmWithin (reading_view r.now) (binders_view binders.now) (value_view on.now) (arms_view arms.now) }
    ensures { IfOk result (λ t. t
        ≡ spec.arm_true (reading_view r.now) (binders_view binders.now) (value_view on.now) (arms_view arms.now)) }
{
    match on {
        Value::Con { con, args } => {
            for arm in arms {
                if arm.con == *con {
                    return truth(
                        alloc,
                        r,
                        done,
                        &Binders::Fields(args.as_slice(), &*binders),
                        &arm.body,
                    );
                }
            }
            Ok(false)
        }
        Value::Int(_) => Ok(false),
        Value::Str(_) => Ok(false),
        Value::Atom { .. } => Ok(false),
        Value::Call(_) => Ok(false),
        Value::Inv(_) => Ok(false),
    }
}
