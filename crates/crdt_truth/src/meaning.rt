// What expressions stand for: values, and what else an invariant may compare.
ghost use Rattle.std.specs.Prelude.{◌≡◌, IfOk, slice_get, map};
ghost use Rattle.rp_value.specs.Values.{false_val};
ghost use Rattle.rp_value.specs.ValueView.{value_view, values_view};
ghost use Rattle.crdt_defs.specs.SameValues.{same_val, same_vals};
ghost use Rattle.rp_lang.specs.Views.{expr_view};
ghost use Rattle.crdt_defs.specs.Calls.{call_view, calls_view};
ghost use Rattle.crdt_defs.specs.Truths as spec;
ghost use Rattle.crdt_truth.specs.Meanings.{meant_view};
ghost use Rattle.crdt_truth.specs.Open.{binders_view};
ghost use Rattle.crdt_truth.specs.Readings.{info_view, outcome_view, reading_view};
ghost use Rattle.crdt_truth.specs.Within.{ExWithin};

use crate::binders::Binders;
use crate::exprs::{value, values};
use crate::numbers::false_value;
use crate::reading::{Info, Outcome, Reading};
use crdt_lib::History;
use rp_lang::Expr;
use rp_value::{List, Memory, Value, copy_values};
use std::alloc::Global;

/// What an expression stands for.
#[derive(Drop)]
pub enum Meant {
    Plain(Value),
    /// An operation with its arguments.
    Operation(u32, List<Value>),
    /// A procedure with its arguments.
    Invoked(u32, List<Value>),
    Running,
    /// A procedure that has returned, without a value or with one.
    Ended(u32),
    EndedWith(u32, Value),
}

fn nothing(alloc: Global) -> Meant
    ensures { meant_view result ≡ spec.Plain false_val }
{
    Meant::Plain(false_value(alloc))
}

fn operation_at(alloc: Global, h: &History, c: u32) -> Result<Meant, Memory>
    ensures { IfOk result (λ m. meant_view m ≡ spec.operation_of (slice_get (calls_view h.now) c)) }
{
    if c < h.len() {
        let call = h.call(c);
        Ok(Meant::Operation(call.op, copy_values(alloc, call.args.as_slice())?))
    } else {
        Ok(nothing(alloc))
    }
}

/// The operation of a call.
#[tactic(auto, using(rp_value::proofs::ValueViews::value_views))]
fn operation_of(alloc: Global, r: &Reading, call: &Value) -> Result<Meant, Memory>
    ensures { IfOk result (λ m. meant_view m
        ≡ spec.operation_of (spec.call_at (reading_view r.now).parts (value_view call.now))) }
{
    match call {
        Value::Call(c) => operation_at(alloc, r.history, *c),
        Value::Int(_) => Ok(nothing(alloc)),
        Value::Str(_) => Ok(nothing(alloc)),
        Value::Atom { .. } => Ok(nothing(alloc)),
        Value::Con { .. } => Ok(nothing(alloc)),
        Value::Inv(_) => Ok(nothing(alloc)),
    }
}

fn info_at(alloc: Global, infos: &[Info], i: u32) -> Result<Meant, Memory>
    ensures { IfOk result (λ m. meant_view m ≡ spec.info_of (slice_get (map info_view infos.now) i)) }
{
    match infos.get(i as usize) {
        Some(info) => Ok(Meant::Invoked(info.proc, copy_values(alloc, info.args.as_slice())?)),
        None => Ok(nothing(alloc)),
    }
}

/// The procedure and the arguments of an invocation.
#[tactic(auto, using(rp_value::proofs::ValueViews::value_views))]
fn info_of(alloc: Global, r: &Reading, inv: &Value) -> Result<Meant, Memory>
    ensures { IfOk result (λ m. meant_view m ≡ spec.info_of (spec.info_at (reading_view r.now).parts (value_view inv.now))) }
{
    match inv {
        Value::Inv(i) => info_at(alloc, r.infos, *i),
        Value::Int(_) => Ok(nothing(alloc)),
        Value::Str(_) => Ok(nothing(alloc)),
        Value::Atom { .. } => Ok(nothing(alloc)),
        Value::Con { .. } => Ok(nothing(alloc)),
        Value::Call(_) => Ok(nothing(alloc)),
    }
}

fn ended(alloc: Global, proc: u32, outcome: &Outcome) -> Result<Meant, Memory>
    ensures { IfOk result (λ m. meant_view m ≡ spec.ended proc (outcome_view outcome.now)) }
{
    match outcome {
        Outcome::Unreturned => Ok(Meant::Running),
        Outcome::Returned => Ok(Meant::Ended(proc)),
        Outcome::ReturnedWith(value) => Ok(Meant::EndedWith(proc, value.copy(alloc)?)),
    }
}

fn result_at(alloc: Global, infos: &[Info], i: u32) -> Result<Meant, Memory>
    ensures { IfOk result (λ m. meant_view m ≡ spec.result_of (slice_get (map info_view infos.now) i)) }
{
    match infos.get(i as usize) {
        Some(info) => ended(alloc, info.proc, &info.outcome),
        None => Ok(nothing(alloc)),
    }
}

/// The outcome of an invocation.
#[tactic(auto, using(rp_value::proofs::ValueViews::value_views))]
fn result_of(alloc: Global, r: &Reading, inv: &Value) -> Result<Meant, Memory>
    ensures { IfOk result (λ m. meant_view m ≡ spec.result_of (spec.info_at (reading_view r.now).parts (value_view inv.now))) }
{
    match inv {
        Value::Inv(i) => result_at(alloc, r.infos, *i),
        Value::Int(_) => Ok(nothing(alloc)),
        Value::Str(_) => Ok(nothing(alloc)),
        Value::Atom { .. } => Ok(nothing(alloc)),
        Value::Con { .. } => Ok(nothing(alloc)),
        Value::Call(_) => Ok(nothing(alloc)),
    }
}

fn plain(alloc: Global, r: &Reading, binders: &Binders, e: &Expr) -> Result<Meant, Memory>
    requires { ExWithin (reading_view r.now) (binders_view binders.now) (expr_view e.now) }
    ensures { IfOk result (λ m. meant_view m
        ≡ spec.Plain (spec.value (reading_view r.now) (binders_view binders.now) (expr_view e.now))) }
{
    Ok(Meant::Plain(value(alloc, r, binders, e)?))
}

/// What an expression stands for, where each sum and difference in it has 128 bits.
#[tactic(auto, using(rp_lang::proofs::ExprViews::expr_views))]
pub fn stands_for(alloc: Global, r: &Reading, binders: &Binders, e: &Expr) -> Result<Meant, Memory>
    requires { ExWithin (reading_view r.now) (binders_view binders.now) (expr_view e.now) }
    ensures { IfOk result (λ m. meant_view m ≡ spec.meant (reading_view r.now) (binders_view binders.now) (expr_view e.now)) }
{
    match e {
        Expr::OpOf(call) => operation_of(alloc, r, &value(alloc, r, binders, call.get())?),
        Expr::OpTerm(op, args) => Ok(Meant::Operation(
            *op,
            values(alloc, r, binders, args.as_slice())?,
        )),
        Expr::InfoOf(inv) => info_of(alloc, r, &value(alloc, r, binders, inv.get())?),
        Expr::InfoTerm(proc, args) => Ok(Meant::Invoked(
            *proc,
            values(alloc, r, binders, args.as_slice())?,
        )),
        Expr::ResultOf(inv) => result_of(alloc, r, &value(alloc, r, binders, inv.get())?),
        Expr::ResultTerm(proc, None) => Ok(Meant::Ended(*proc)),
        Expr::ResultTerm(proc, Some(e)) => Ok(Meant::EndedWith(
            *proc,
            value(alloc, r, binders, e.get())?,
        )),
        Expr::Unreturned => Ok(Meant::Running),
        Expr::Slot(_) => plain(alloc, r, binders, e),
        Expr::Bound(_) => plain(alloc, r, binders, e),
        Expr::Int(_) => plain(alloc, r, binders, e),
        Expr::Str(_) => plain(alloc, r, binders, e),
        Expr::Con(_, _) => plain(alloc, r, binders, e),
        Expr::Plus(_, _) => plain(alloc, r, binders, e),
        Expr::Add(_, _) => plain(alloc, r, binders, e),
        Expr::Sub(_, _) => plain(alloc, r, binders, e),
        Expr::Query(_, _) => plain(alloc, r, binders, e),
        Expr::OriginOf(_) => plain(alloc, r, binders, e),
    }
}

fn same(a: &Value, b: &Value) -> bool
    ensures { result ≡ same_val (value_view a.now) (value_view b.now) }
{
    a.same(b)
}

fn same_all(a: &[Value], b: &[Value]) -> bool
    ensures { result ≡ same_vals (values_view a.now) (values_view b.now) }
{
    match a {
        [] => match b {
            [] => true,
            [_, ..] => false,
        },
        [v, rest @ ..] => match b {
            [] => false,
            [w, others @ ..] => same(v, w) && same_all(rest, others),
        },
    }
}

/// Whether both stand for the same.
pub fn are_same(a: &Meant, b: &Meant) -> bool
    ensures { result ≡ spec.same_meant (meant_view a.now) (meant_view b.now) }
{
    match (a, b) {
        (Meant::Plain(v), Meant::Plain(w)) => same(v, w),
        (Meant::Operation(op, args), Meant::Operation(other, others)) => *op == *other
            && same_all(args.as_slice(), others.as_slice()),
        (Meant::Invoked(proc, args), Meant::Invoked(other, others)) => *proc == *other
            && same_all(args.as_slice(), others.as_slice()),
        (Meant::Running, Meant::Running) => true,
        (Meant::Ended(proc), Meant::Ended(other)) => *proc == *other,
        (Meant::EndedWith(proc, v), Meant::EndedWith(other, w)) => *proc == *other && same(v, w),
        _ => false,
    }
}
