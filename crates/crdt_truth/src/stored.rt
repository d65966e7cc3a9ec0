// What the store answers, as values.
ghost use Rattle.std.specs.Prelude.{◌≡◌, IfOk, slice_get, slice_index_or, map};
ghost use Rattle.rp_value.specs.Values.{Con, no_val, also_val};
ghost use Rattle.rp_value.specs.ValueView.{value_view, values_view};
ghost use Rattle.rp_lang.specs.ProgramView.{program_view};
ghost use Rattle.crdt_defs.specs.declared.asked.Answer.TheVariants as answer;
ghost use Rattle.crdt_defs.specs.Calls.{call_view, calls_view};
ghost use Rattle.crdt_defs.specs.Doing.{own_of, own_argument};
ghost use Rattle.crdt_defs.specs.Truths as spec;
ghost use Rattle.crdt_truth.specs.Readings.{reading_view};

use crate::numbers::{built, false_value, truth_value};
use crate::reading::Reading;
use crdt_defs::{Answer, CallRec, Found};
use crdt_lib::{History, answer_of, keys_in};
use rp_lang::{OpDecl, Program};
use rp_value::{List, Memory, Ty, TypeTable, Value};
use std::alloc::Global;

fn nth(cons: &[u32], n: u32) -> u32
    ensures { result ≡ slice_index_or cons.now n 0 }
{
    match cons.get(n as usize) {
        Some(con) => *con,
        None => 0,
    }
}

fn con_of(types: &TypeTable, d: u32, n: u32) -> u32
    ensures { result ≡ spec.con_of (slice_get types.now.datatypes d) n }
{
    match types.datatypes.as_slice().get(d as usize) {
        Some(decl) => nth(decl.cons.as_slice(), n),
        None => 0,
    }
}

/// The n-th constructor of a datatype.
fn nth_con(p: &Program, ty: Ty, n: u32) -> u32
    ensures { result ≡ spec.nth_con (program_view p.now) ty n }
{
    match ty {
        Ty::Datatype(d) => con_of(&p.types, d, n),
        Ty::Int => 0,
        Ty::Str => 0,
        Ty::Atom(_) => 0,
        Ty::Call => 0,
        Ty::Inv => 0,
        Ty::Operation => 0,
        Ty::Info => 0,
        Ty::Outcome => 0,
    }
}

/// The value with this number among the arguments.
fn value_at(alloc: Global, args: &[Value], i: usize) -> Result<Value, Memory>
    ensures { IfOk result (λ v. value_view v ≡ spec.or_false (slice_get (map value_view args.now) i)) }
{
    match args.get(i) {
        Some(arg) => arg.copy(alloc),
        None => Ok(false_value(alloc)),
    }
}

/// A call's argument behind the keys of its path.
fn own_value(alloc: Global, ops: &[OpDecl], call: &CallRec) -> Result<Value, Memory>
    ensures { IfOk result (λ v. value_view v ≡ spec.or_false (own_of (call_view call.now) (slice_get ops.now call.now.op))) }
{
    match ops.get(call.op as usize) {
        Some(op) => value_at(alloc, call.args.as_slice(), keys_in(op.path.as_slice())),
        None => Ok(false_value(alloc)),
    }
}

fn own_value_of(alloc: Global, ops: &[OpDecl], h: &History, c: u32) -> Result<Value, Memory>
    ensures { IfOk result (λ v. value_view v ≡ spec.or_false (own_argument ops.now (slice_get (calls_view h.now) c))) }
{
    if c < h.len() {
        own_value(alloc, ops, h.call(c))
    } else {
        Ok(false_value(alloc))
    }
}

/// The constructor with one field.
#[tactic(auto, using(rp_value::proofs::ValueViews::value_views))]
fn around(alloc: Global, con: u32, field: Value) -> Result<Value, Memory>
    ensures { IfOk result (λ v. value_view v ≡ Con con (also_val (value_view field) no_val)) }
{
    let mut args = List::new(alloc);
    args.push(field)?;
    Ok(Value::Con { con, args })
}

/// What was found, where the query's result is of this type.
#[tactic(auto, using(rp_value::proofs::ValueViews::value_views))]
fn found_value(
    alloc: Global,
    p: &Program,
    h: &History,
    ty: Ty,
    found: Found,
) -> Result<Value, Memory>
    ensures { IfOk result (λ v. value_view v ≡ spec.found_val (program_view p.now) (calls_view h.now) ty found) }
{
    match found {
        Found::Sum(n) => Ok(Value::Int(n)),
        Found::At(c) => {
            let field = own_value_of(alloc, p.ops.as_slice(), h, c)?;
            around(alloc, nth_con(p, ty, 1), field)
        }
        Found::Nothing => Ok(built(alloc, nth_con(p, ty, 0))),
    }
}

/// What the query with this number found. It has an answer alone where the program has the query.
fn found_by(
    alloc: Global,
    p: &Program,
    h: &History,
    query: u32,
    found: Found,
) -> Result<Value, Memory>
    ensures { IfOk result (λ v. value_view v
        ≡ spec.answer_val (program_view p.now) (calls_view h.now) (slice_get p.now.queries query) (answer.Value found)) }
{
    match p.queries.as_slice().get(query as usize) {
        Some(query) => found_value(alloc, p, h, query.result, found),
        None => Ok(false_value(alloc)),
    }
}

/// The answer of a store query at the visible calls.
#[tactic(auto, using(crate::proofs::ListValues::list_back))]
pub fn asked(alloc: Global, r: &Reading, query: u32, args: &[Value]) -> Result<Value, Memory>
    ensures { IfOk result (λ v. value_view v ≡ spec.asked (reading_view r.now) query (spec.list_of (values_view args.now))) }
{
    match answer_of(r.program, r.history, r.view, query, args) {
        Answer::Truth(holds) => Ok(truth_value(alloc, holds)),
        Answer::Value(found) => found_by(alloc, r.program, r.history, query, found),
    }
}

/// The invocation that a call is of.
#[tactic(auto, using(rp_value::proofs::ValueViews::value_views))]
fn origin_at(alloc: Global, h: &History, c: u32) -> Value
    ensures { value_view result ≡ spec.origin_of (slice_get (calls_view h.now) c) }
{
    if c < h.len() {
        Value::Inv(h.call(c).inv)
    } else {
        false_value(alloc)
    }
}

#[tactic(auto, using(rp_value::proofs::ValueViews::value_views))]
pub fn origin(alloc: Global, r: &Reading, call: &Value) -> Value
    ensures { value_view result ≡ spec.origin_of (spec.call_at (reading_view r.now).parts (value_view call.now)) }
{
    match call {
        Value::Call(c) => origin_at(alloc, r.history, *c),
        Value::Int(_) => false_value(alloc),
        Value::Str(_) => false_value(alloc),
        Value::Atom { .. } => false_value(alloc),
        Value::Con { .. } => false_value(alloc),
        Value::Inv(_) => false_value(alloc),
    }
}
