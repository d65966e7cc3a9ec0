// Values of expressions.
ghost use Rattle.std.specs.Prelude.{◌≡◌, IfOk, map, slice_get, option_map};
ghost use Rattle.rp_value.specs.ValueView.{value_view, values_view};
ghost use Rattle.rp_lang.specs.Views.{expr_view, exprs_view};
ghost use Rattle.crdt_defs.specs.Truths as spec;
ghost use Rattle.crdt_truth.specs.Open.{binders_view};
ghost use Rattle.crdt_truth.specs.Readings.{reading_view};
ghost use Rattle.crdt_truth.specs.Within.{ExWithin, ExsWithin};

use crate::binders::Binders;
use crate::numbers::{false_value, minus, number, plus};
use crate::reading::Reading;
use crate::stored::{asked, origin};
use rp_lang::Expr;
use rp_value::{List, Memory, Value, copy_bytes};
use std::alloc::Global;

/// The value in a slot.
fn slot_value(alloc: Global, slots: &[Option<Value>], s: u32) -> Result<Value, Memory>
    ensures { IfOk result (λ v. value_view v ≡ spec.slot_value (slice_get (map (option_map value_view) slots.now) s)) }
{
    match slots.get(s as usize) {
        Some(Some(value)) => value.copy(alloc),
        Some(None) => Ok(false_value(alloc)),
        None => Ok(false_value(alloc)),
    }
}

/// The value of an expression at these open variables, where each sum and difference in it has 128 bits.
#[cycle(value)]
#[tactic(auto, using(rp_lang::proofs::ExprViews::expr_views, rp_value::proofs::ValueViews::value_views))]
pub fn value(alloc: Global, r: &Reading, binders: &Binders, e: &Expr) -> Result<Value, Memory>
    requires { ExWithin (reading_view r.now) (binders_view binders.now) (expr_view e.now) }
    ensures { IfOk result (λ v. value_view v ≡ spec.value (reading_view r.now) (binders_view binders.now) (expr_view e.now)) }
{
    match e {
        Expr::Slot(s) => slot_value(alloc, r.slots, *s),
        Expr::Bound(n) => binders.value(alloc, *n),
        Expr::Int(n) => Ok(Value::Int(*n)),
        Expr::Str(bytes) => Ok(Value::Str(copy_bytes(alloc, bytes.as_slice())?)),
        Expr::Con(con, args) => Ok(Value::Con {
            con: *con,
            args: values(alloc, r, binders, args.as_slice())?,
        }),
        Expr::Plus(e, n) => {
            let left = integer(alloc, r, binders, e.get())?;
            Ok(Value::Int(plus(left, *n)))
        }
        Expr::Add(a, b) => {
            let left = integer(alloc, r, binders, a.get())?;
            let right = integer(alloc, r, binders, b.get())?;
            Ok(Value::Int(plus(left, right)))
        }
        Expr::Sub(a, b) => {
            let left = integer(alloc, r, binders, a.get())?;
            let right = integer(alloc, r, binders, b.get())?;
            Ok(Value::Int(minus(left, right)))
        }
        Expr::Query(query, args) => {
            let args = values(alloc, r, binders, args.as_slice())?;
            asked(alloc, r, *query, args.as_slice())
        }
        Expr::OriginOf(call) => {
            let call = value(alloc, r, binders, call.get())?;
            Ok(origin(alloc, r, &call))
        }
        Expr::OpOf(_)
        | Expr::OpTerm(_, _)
        | Expr::InfoOf(_)
        | Expr::InfoTerm(_, _)
        | Expr::ResultOf(_)
        | Expr::ResultTerm(_, _)
        | Expr::Unreturned => Ok(false_value(alloc)),
    }
}

/// The integer that an expression is.
#[cycle(value)]
#[tactic(auto)]
fn integer(alloc: Global, r: &Reading, binders: &Binders, e: &Expr) -> Result<i128, Memory>
    requires { ExWithin (reading_view r.now) (binders_view binders.now) (expr_view e.now) }
    ensures { IfOk result (λ n. n ≡ spec.number (spec.value (reading_view r.now) (binders_view binders.now) (expr_view e.now))) }
{
    let value = value(alloc, r, binders, e)?;
    Ok(number(&value))
}

/// The values of the expressions, in their order.
#[cycle(value)]
#[tactic(auto)]
pub fn values(
    alloc: Global,
    r: &Reading,
    binders: &Binders,
    exprs: &[Expr],
) -> Result<List<Value>, Memory>
    requires { ExsWithin (reading_view r.now) (binders_view binders.now) (exprs_view exprs.now) }
    ensures { IfOk result (λ vs. values_view vs
        ≡ spec.values (reading_view r.now) (binders_view binders.now) (exprs_view exprs.now)) }
{
    let mut made = List::new(alloc);
    for e in exprs {
        made.push(value(alloc, r, binders, e)?)?;
    }
    Ok(made)
}
