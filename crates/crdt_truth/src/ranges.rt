// What quantifiers range over, and which of two calls or invocations is before the other.
ghost use Rattle.std.specs.Prelude.{◌≡◌, ◌<◌, ◌≤◌, ◌&&◌, ◌||◌, not, nat_eq, length, option_copied, slice_get};
ghost use Rattle.rp_value.specs.ValueView.{value_view};
ghost use Rattle.crdt_defs.specs.Calls.{calls_view};
ghost use Rattle.crdt_defs.specs.Counting.{all_below};
ghost use Rattle.crdt_defs.specs.Histories.{before, call_is, same_tx as one_tx, some_call};
ghost use Rattle.crdt_defs.specs.Parts as parts;
ghost use Rattle.crdt_defs.specs.Snapshots.{bit};
ghost use Rattle.crdt_defs.specs.Truths as spec;
ghost use Rattle.crdt_truth.specs.Readings.{parts_view, reading_view};
ghost use Rattle.crdt_truth.specs.means.Done.{AreDone};

use crate::done::lists_before;
use crate::numbers::false_value;
use crate::reading::Reading;
use crdt_lib::View;
use rp_value::{List, Ty, Value};
use std::alloc::Global;

/// All that a quantifier over the type ranges over have numbers below this one.
pub fn bound(r: &Reading, over: Ty) -> u32
    requires { length r.now.infos.now < 4294967296 }
    ensures { result ≡ parts.bound (parts_view r.now) over }
{
    match over {
        Ty::Atom(_) => r.universe,
        Ty::Call => r.history.len(),
        Ty::Inv => r.infos.len() as u32,
        Ty::Int => 0,
        Ty::Str => 0,
        Ty::Datatype(_) => 0,
        Ty::Operation => 0,
        Ty::Info => 0,
        Ty::Outcome => 0,
    }
}

/// Whether the transaction is committed.
fn is_tx_committed(committed: &[bool], tx: u32) -> bool
    ensures { result ≡ bit committed.now tx }
{
    match committed.get(tx as usize) {
        Some(is_committed) => *is_committed,
        None => false,
    }
}

/// Whether c is a call of a committed transaction.
pub(crate) fn is_done(r: &Reading, c: u32) -> bool
    ensures { result ≡ parts.is_committed (parts_view r.now) c }
{
    c < r.history.len() && is_tx_committed(r.committed, r.history.call(c).tx)
}

/// Whether a quantifier ranges over it: of calls over the committed ones alone.
pub fn is_in_range(r: &Reading, over: Ty, n: u32) -> bool
    ensures { result ≡ parts.is_in_range (parts_view r.now) over n }
{
    match over {
        Ty::Call => is_done(r, n),
        Ty::Atom(_) => true,
        Ty::Inv => true,
        Ty::Int => true,
        Ty::Str => true,
        Ty::Datatype(_) => true,
        Ty::Operation => true,
        Ty::Info => true,
        Ty::Outcome => true,
    }
}

/// The one with this number.
#[tactic(auto, using(rp_value::proofs::ValueViews::value_views))]
pub fn member(alloc: Global, over: Ty, n: u32) -> Value
    ensures { value_view result ≡ parts.member over n }
{
    match over {
        Ty::Atom(ty) => Value::Atom { ty, num: n },
        Ty::Call => Value::Call(n),
        Ty::Inv => Value::Inv(n),
        Ty::Int => false_value(alloc),
        Ty::Str => false_value(alloc),
        Ty::Datatype(_) => false_value(alloc),
        Ty::Operation => false_value(alloc),
        Ty::Info => false_value(alloc),
        Ty::Outcome => false_value(alloc),
    }
}

/// Whether c is a committed call of the invocation.
fn is_done_by(r: &Reading, i: u32, c: u32) -> bool
    requires { c < length r.now.history.now }
    ensures { result ≡ parts.is_done_by (parts_view r.now) i c }
{
    is_done(r, c) && r.history.call(c).inv == i
}

/// Whether c is before each committed call of the invocation.
#[tactic(auto, using(crate::proofs::RangeLemmas::all_more))]
fn is_before_all_of(r: &Reading, j: u32, c: u32) -> bool
    ensures { result ≡ parts.is_before_all_of (parts_view r.now) j c }
{
    for d in 0..r.history.len() {
        if !leaves_before(r, j, c, d) {
            return false;
        }
    }
    true
}

/// Whether d isn't a committed call of the invocation, or c is before it.
fn leaves_before(r: &Reading, j: u32, c: u32, d: u32) -> bool
    requires { d < length r.now.history.now }
    ensures { result ≡ (not (parts.is_done_by (parts_view r.now) j d) || before (calls_view r.now.history.now) c d) }
{
    !is_done_by(r, j, d) || r.history.before(c, d)
}

/// Whether the invocation has a committed call.
#[tactic(auto, using(crdt_defs::proofs::BelowLemmas::any_more))]
fn has_done(r: &Reading, i: u32) -> bool
    ensures { result ≡ some_call (calls_view r.now.history.now) (parts.is_done_by (parts_view r.now) i) }
{
    for c in 0..r.history.len() {
        if is_done_by(r, i, c) {
            return true;
        }
    }
    false
}

/// Whether each committed call of i is before each one of j.
#[tactic(auto, using(crate::proofs::RangeLemmas::all_more))]
fn are_before(r: &Reading, i: u32, j: u32) -> bool
    ensures { result
        ≡ all_below (λ c. not (parts.is_done_by (parts_view r.now) i c) || parts.is_before_all_of (parts_view r.now) j c)
        (length (calls_view r.now.history.now)) }
{
    for c in 0..r.history.len() {
        if !is_early(r, i, j, c) {
            return false;
        }
    }
    true
}

/// Whether c isn't a committed call of i, or is before each one of j.
fn is_early(r: &Reading, i: u32, j: u32, c: u32) -> bool
    requires { c < length r.now.history.now }
    ensures { result ≡ (not (parts.is_done_by (parts_view r.now) i c) || parts.is_before_all_of (parts_view r.now) j c) }
{
    !is_done_by(r, i, c) || is_before_all_of(r, j, c)
}

/// Whether both invocations have a committed call, and each one of i is before each one of j, by walks over the history.
fn walked_before(r: &Reading, i: u32, j: u32) -> bool
    ensures { result ≡ parts.inv_before (parts_view r.now) i j }
{
    has_done(r, i) && has_done(r, j) && are_before(r, i, j)
}

/// The list with the number, if there is one.
fn list_of(done: &[List<u32>], i: u32) -> Option<&List<u32>>
    ensures { option_copied result ≡ slice_get done.now i }
{
    done.get(i as usize)
}

/// The same, by the lists of their calls, if both have one.
fn inv_before(r: &Reading, done: &[List<u32>], i: u32, j: u32) -> bool
    requires { AreDone (parts_view r.now) (length (calls_view r.now.history.now)) done.now }
    ensures { result ≡ parts.inv_before (parts_view r.now) i j }
{
    match list_of(done, i) {
        Some(early) => match list_of(done, j) {
            Some(late) => lists_before(r, early.as_slice(), late.as_slice()),
            None => walked_before(r, i, j),
        },
        None => walked_before(r, i, j),
    }
}

pub(crate) fn call_before(r: &Reading, c: u32, d: u32) -> bool
    ensures { result ≡ before (calls_view r.now.history.now) c d }
{
    d < r.history.len() && r.history.before(c, d)
}

/// Whether the first is before the second: two calls, or two invocations.
#[tactic(auto, using(rp_value::proofs::ValueViews::value_views))]
pub fn is_before(r: &Reading, done: &[List<u32>], a: &Value, b: &Value) -> bool
    requires { AreDone (parts_view r.now) (length (calls_view r.now.history.now)) done.now }
    ensures { result ≡ spec.is_before (parts_view r.now) (value_view a.now) (value_view b.now) }
{
    match a {
        Value::Call(c) => match b {
            Value::Call(d) => call_before(r, *c, *d),
            Value::Int(_) => false,
            Value::Str(_) => false,
            Value::Atom { .. } => false,
            Value::Con { .. } => false,
            Value::Inv(_) => false,
        },
        Value::Inv(i) => match b {
            Value::Inv(j) => inv_before(r, done, *i, *j),
            Value::Int(_) => false,
            Value::Str(_) => false,
            Value::Atom { .. } => false,
            Value::Con { .. } => false,
            Value::Call(_) => false,
        },
        Value::Int(_) => false,
        Value::Str(_) => false,
        Value::Atom { .. } => false,
        Value::Con { .. } => false,
    }
}

/// Whether d is a call of the transaction.
fn is_of_tx(r: &Reading, tx: u32, d: u32) -> bool
    ensures { result ≡ call_is (calls_view r.now.history.now) (λ b. nat_eq tx b.tx) d }
{
    d < r.history.len() && tx == r.history.call(d).tx
}

fn same_tx(r: &Reading, c: u32, d: u32) -> bool
    ensures { result ≡ one_tx (calls_view r.now.history.now) c d }
{
    c < r.history.len() && is_of_tx(r, r.history.call(c).tx, d)
}

/// Whether both are calls of one transaction.
#[tactic(auto, using(rp_value::proofs::ValueViews::value_views))]
pub fn is_same(r: &Reading, a: &Value, b: &Value) -> bool
    ensures { result ≡ spec.is_same (parts_view r.now) (value_view a.now) (value_view b.now) }
{
    match a {
        Value::Call(c) => match b {
            Value::Call(d) => same_tx(r, *c, *d),
            Value::Int(_) => false,
            Value::Str(_) => false,
            Value::Atom { .. } => false,
            Value::Con { .. } => false,
            Value::Inv(_) => false,
        },
        Value::Int(_) => false,
        Value::Str(_) => false,
        Value::Atom { .. } => false,
        Value::Con { .. } => false,
        Value::Inv(_) => false,
    }
}

/// Whether it is a visible call.
#[tactic(auto, using(rp_value::proofs::ValueViews::value_views))]
pub fn is_visible(r: &Reading, call: &Value) -> bool
    ensures { result ≡ spec.is_visible (reading_view r.now) (value_view call.now) }
{
    match call {
        Value::Call(c) => r.view.has(*c),
        Value::Int(_) => false,
        Value::Str(_) => false,
        Value::Atom { .. } => false,
        Value::Con { .. } => false,
        Value::Inv(_) => false,
    }
}
