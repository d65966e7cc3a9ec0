// What is asked of the calls that count.
ghost use Rattle.std.specs.Prelude.{◌≡◌, ◌<◌, ◌≤◌, ◌+◌, ◌&&◌, not, ℤ, pos, negsuc, ◌+ℤ◌, ◌≤ℤ◌, if◌then◌else◌, length, slice_get, map, Some, [], ◌∷◌, IfSome, All};
ghost use Rattle.rp_value.specs.ValueView.{value_view};
ghost use Rattle.rp_lang.specs.declared.op.OpKind.TheVariants.{Add, Remove, Assign};
ghost use Rattle.crdt_defs.specs.Calls.{call_view, calls_view};
ghost use Rattle.crdt_defs.specs.Histories.{some_call};
ghost use Rattle.crdt_defs.specs.Snapshots.{bit};
ghost use Rattle.crdt_defs.specs.Doing as spec;
ghost use Rattle.crdt_defs.specs.means.Newest.{better};
ghost use Rattle.crdt_defs.specs.Meaning.{among, at_key, one_stays, contains_add_wins, contains_remove_wins, contains_value, stamp_of, latest, counter_sum};
ghost use Rattle.crdt_lib.specs.means.Picked.{listed};
ghost use Rattle.crdt_defs.specs.Queries.{answer_at, at_call};

use crate::doing::keys_in;
use crate::history::{History, MOST};
use crate::picked::{any_stays, is_any, pick, pick_kind};
use crate::row::{any, is_here, narrow};
use crdt_defs::{Answer, CallRec, Found, Question, Winner};
use rp_lang::{OpDecl, OpKind};
use rp_value::Value;

/// Whether x is in a set where adds win.
fn in_add_wins(h: &History, ops: &[OpDecl], counted: &[bool], x: &Value) -> bool
    requires row { length counted.now ≡ length h.now }
    ensures { result ≡ contains_add_wins ops.now (calls_view h.now) (bit counted.now) (value_view x.now) }
{
    let mut removes = [0; MOST];
    let count = pick(h, ops, counted, OpKind::Remove, x, &mut removes);
    any_stays(h, ops, counted, OpKind::Add, x, &removes[..count])
}

/// Whether some call is listed, and each remove of x is before a listed call.
fn outlives(h: &History, ops: &[OpDecl], counted: &[bool], x: &Value, adds: &[u32]) -> bool
    requires row { length counted.now ≡ length h.now }
    requires adds { All (λ d. d < length h.now) adds.now }
    ensures { result ≡ (some_call (calls_view h.now) (listed adds.now) && not (one_stays (calls_view h.now) (among (calls_view h.now) (bit counted.now) (spec.does ops.now Remove (value_view x.now))) (listed adds.now))) }
{
    is_any(h, adds) && !any_stays(h, ops, counted, OpKind::Remove, x, adds)
}

/// Whether x is in a set where removes win.
fn in_remove_wins(h: &History, ops: &[OpDecl], counted: &[bool], x: &Value) -> bool
    requires row { length counted.now ≡ length h.now }
    ensures { result ≡ contains_remove_wins ops.now (calls_view h.now) (bit counted.now) (value_view x.now) }
{
    let mut adds = [0; MOST];
    let count = pick(h, ops, counted, OpKind::Add, x, &mut adds);
    outlives(h, ops, counted, x, &adds[..count])
}

/// Whether x is a value of a register of many values.
fn has_value(h: &History, ops: &[OpDecl], counted: &[bool], x: &Value) -> bool
    requires row { length counted.now ≡ length h.now }
    ensures { result ≡ contains_value ops.now (calls_view h.now) (bit counted.now) (value_view x.now) }
{
    let mut assigns = [0; MOST];
    let count = pick_kind(h, ops, counted, OpKind::Assign, &mut assigns);
    any_stays(h, ops, counted, OpKind::Assign, x, &assigns[..count])
}

/// Whether a map has the key k.
fn has_key(
    h: &History,
    ops: &[OpDecl],
    winner: Winner,
    depth: usize,
    counted: &[bool],
    k: &Value,
    spare: &mut [bool],
) -> bool
    requires row { length counted.now ≡ length h.now }
    requires spare { length spare.old ≡ length h.now }
    ensures { result ≡ some_call (calls_view h.now) (at_key ops.now (calls_view h.now) winner depth (value_view k.now) (bit counted.now)) }
{
    narrow(h, ops, winner, depth, counted, k, spare);
    any(h, spare)
}

fn stamp(h: &History, c: u32) -> u64
    requires { c < length h.now }
    ensures { result ≡ stamp_of (slice_get (calls_view h.now) c) }
{
    h.call(c).stamp
}

/// Of the best call so far and c the one with the greater stamp, the best where they have one stamp.
fn newer(h: &History, best: Option<u32>, c: u32) -> Option<u32>
    requires best { IfSome best (λ b. b < length h.now) }
    requires at_c { c < length h.now }
    ensures { result ≡ better (λ d. stamp_of (slice_get (calls_view h.now) d)) best c }
{
    match best {
        None => Some(c),
        Some(b) => if stamp(h, b) < stamp(h, c) {
            Some(c)
        } else {
            Some(b)
        },
    }
}

fn newest_of(
    h: &History,
    ops: &[OpDecl],
    counted: &[bool],
    best: Option<u32>,
    c: u32,
) -> Option<u32>
    requires row { length counted.now ≡ length h.now }
    requires best { IfSome best (λ b. b < c) }
    requires at_c { c < length h.now }
    ensures value { result ≡ (if among (calls_view h.now) (bit counted.now) (spec.is_of ops.now Assign) c then better (λ d. stamp_of (slice_get (calls_view h.now) d)) best c else best) }
    ensures within { IfSome result (λ b. b < c + 1) }
{
    if is_here(h, ops, counted, OpKind::Assign, c) {
        newer(h, best, c)
    } else {
        best
    }
}

/// The assign with the greatest stamp.
#[tactic(auto, using(crdt_defs::proofs::NewestLemmas::newest_is_latest, crdt_defs::proofs::NewestLemmas::newest_more))]
fn newest(h: &History, ops: &[OpDecl], counted: &[bool]) -> Option<u32>
    requires { length counted.now ≡ length h.now }
    ensures { result ≡ latest ops.now (calls_view h.now) (bit counted.now) }
{
    let mut best = None;
    for c in 0..h.len() {
        best = newest_of(h, ops, counted, best, c);
    }
    best
}

#[tactic(auto, using(rp_value::proofs::ValueViews::value_views))]
fn int_in(value: &Value) -> i128
    ensures { result ≡ spec.int_of (Some (value_view value.now)) }
{
    match value {
        Value::Int(n) => *n,
        Value::Str(_) => 0,
        Value::Atom { .. } => 0,
        Value::Con { .. } => 0,
        Value::Call(_) => 0,
        Value::Inv(_) => 0,
    }
}

#[tactic(auto, using(crdt_defs::proofs::SameLemmas::arg_seen))]
fn int_at(args: &[Value], i: usize) -> i128
    ensures { result ≡ spec.int_of (slice_get (map value_view args.now) i) }
{
    match args.get(i) {
        Some(value) => int_in(value),
        None => 0,
    }
}

fn amount_by(op: &OpDecl, args: &[Value]) -> i128
    ensures { result ≡ spec.amount_by op.now.kind (slice_get (map value_view args.now) (spec.keys_in op.now.path)) }
{
    let keys = keys_in(op.path.as_slice());
    match op.kind {
        OpKind::Increment => int_at(args, keys),
        OpKind::Tx | OpKind::Add | OpKind::Remove | OpKind::Assign | OpKind::Delete => 0,
    }
}

fn amount_of(ops: &[OpDecl], call: &CallRec) -> i128
    ensures { result ≡ spec.amount_of (call_view call.now) (slice_get ops.now call.now.op) }
{
    match ops.get(call.op as usize) {
        Some(op) => amount_by(op, call.args.as_slice()),
        None => 0,
    }
}

/// What c adds to a counter.
fn amount(h: &History, ops: &[OpDecl], c: u32) -> i128
    requires { c < length h.now }
    ensures value { result ≡ spec.amount ops.now (slice_get (calls_view h.now) c) }
    ensures least { negsuc 9223372036854775807 ≤ℤ result }
    ensures most { result ≤ℤ pos 9223372036854775807 }
{
    let _calls = h.len();
    amount_of(ops, h.call(c))
}

/// What c adds to a counter, where it counts.
fn amount_here(h: &History, ops: &[OpDecl], counted: &[bool], c: u32) -> i128
    requires row { length counted.now ≡ length h.now }
    requires at_c { c < length h.now }
    ensures value { result ≡ (if bit counted.now c then spec.amount ops.now (slice_get (calls_view h.now) c) else pos 0) }
    ensures least { negsuc 9223372036854775807 ≤ℤ result }
    ensures most { result ≤ℤ pos 9223372036854775807 }
{
    if counted[c as usize] {
        amount(h, ops, c)
    } else {
        0
    }
}

/// The sum, far from the ends of the range.
fn plus(sum: i128, more: i128) -> i128
    requires sum_least { pos 0 ≤ℤ (sum +ℤ pos 1267650600228229401496703205376) }
    requires sum_most { sum ≤ℤ pos 1267650600228229401496703205376 }
    requires least { negsuc 9223372036854775807 ≤ℤ more }
    requires most { more ≤ℤ pos 9223372036854775807 }
    ensures { result ≡ (sum +ℤ more) }
{
    sum + more
}

/// The sum of the amounts.
#[tactic(auto, using(crdt_defs::proofs::BelowLemmas::sum_more))]
fn total(h: &History, ops: &[OpDecl], counted: &[bool]) -> i128
    requires { length counted.now ≡ length h.now }
    ensures { result ≡ counter_sum ops.now (calls_view h.now) (bit counted.now) }
{
    let mut sum: i128 = 0;
    for c in 0..h.len() {
        sum = plus(sum, amount_here(h, ops, counted, c));
    }
    sum
}

fn last(h: &History, ops: &[OpDecl], counted: &[bool]) -> Found
    requires { length counted.now ≡ length h.now }
    ensures { result ≡ at_call (latest ops.now (calls_view h.now) (bit counted.now)) }
{
    match newest(h, ops, counted) {
        Some(c) => Found::At(c),
        None => Found::Nothing,
    }
}

/// The answer of a question with one argument.
fn answer_one(
    h: &History,
    ops: &[OpDecl],
    depth: usize,
    counted: &[bool],
    question: Question,
    x: &Value,
    spare: &mut [bool],
) -> Answer
    requires row { length counted.now ≡ length h.now }
    requires spare { length spare.old ≡ length h.now }
    ensures { result ≡ answer_at ops.now (calls_view h.now) depth (bit counted.now) question (value_view x.now ∷ []) }
{
    match question {
        Question::AddWins => Answer::Truth(in_add_wins(h, ops, counted, x)),
        Question::RemoveWins => Answer::Truth(in_remove_wins(h, ops, counted, x)),
        Question::ManyValues => Answer::Truth(has_value(h, ops, counted, x)),
        Question::AtKey(winner) => Answer::Truth(has_key(h, ops, winner, depth, counted, x, spare)),
        Question::Latest => Answer::Truth(false),
        Question::Total => Answer::Truth(false),
        Question::NoQuestion => Answer::Truth(false),
    }
}

/// The answer of a question without an argument.
fn answer_none(
    h: &History,
    ops: &[OpDecl],
    depth: usize,
    counted: &[bool],
    question: Question,
) -> Answer
    requires { length counted.now ≡ length h.now }
    ensures { result ≡ answer_at ops.now (calls_view h.now) depth (bit counted.now) question [] }
{
    match question {
        Question::AddWins => Answer::Truth(false),
        Question::RemoveWins => Answer::Truth(false),
        Question::ManyValues => Answer::Truth(false),
        Question::AtKey(_) => Answer::Truth(false),
        Question::Latest => Answer::Value(last(h, ops, counted)),
        Question::Total => Answer::Value(Found::Sum(total(h, ops, counted))),
        Question::NoQuestion => Answer::Truth(false),
    }
}

/// The answer at the calls that count at the end of a path of `depth` steps.
pub(crate) fn answer(
    h: &History,
    ops: &[OpDecl],
    depth: usize,
    counted: &[bool],
    question: Question,
    args: &[Value],
    spare: &mut [bool],
) -> Answer
    requires row { length counted.now ≡ length h.now }
    requires spare { length spare.old ≡ length h.now }
    ensures { result ≡ answer_at ops.now (calls_view h.now) depth (bit counted.now) question (map value_view args.now) }
{
    match args {
        [] => answer_none(h, ops, depth, counted, question),
        [x] => answer_one(h, ops, depth, counted, question, x, spare),
        [_, _, ..] => Answer::Truth(false),
    }
}
