// Sets of calls as rows of bits, one for each call of the history.
ghost use Rattle.std.specs.Prelude.{◌≡◌, ◌<◌, ℕ, ◌&&◌, not, length};
ghost use Rattle.std.specs.FinSet as set;
ghost use Rattle.rp_value.specs.ValueView.{value_view};
ghost use Rattle.crdt_defs.specs.Calls.{calls_view};
ghost use Rattle.crdt_defs.specs.Histories.{call_is, some_call};
ghost use Rattle.crdt_defs.specs.Snapshots.{bit};
ghost use Rattle.crdt_defs.specs.Doing as spec;
ghost use Rattle.crdt_defs.specs.Meaning.{among, in_field, at_key, loses};

use crate::doing::{deletes, does, goes_to_field, goes_to_key, is_of, on_root};
use crate::history::History;
use crate::view::View;
use crdt_defs::Winner;
use rp_lang::{OpDecl, OpKind};
use rp_value::Value;

/// Whether c is visible, and on the root.
fn is_seen<V: View>(h: &History, ops: &[OpDecl], view: &V, root: u32, c: u32) -> bool
    requires { c < length h.now }
    ensures { result ≡ among (calls_view h.now) (set.contains (V.calls view.now)) (spec.on_root ops.now root) c }
{
    view.has(c) && on_root(ops, root, h.call(c))
}

/// Marks the visible calls on the root.
pub(crate) fn mark<V: View>(h: &History, ops: &[OpDecl], view: &V, root: u32, row: &mut [bool])
    requires { length row.old ≡ length h.now }
    ensures { bit row.new ≡ among (calls_view h.now) (set.contains (V.calls view.now)) (spec.on_root ops.now root) }
{
    for c in 0..h.len() {
        row[c as usize] = is_seen(h, ops, view, root, c);
    }
}

/// Whether c counts and goes on to the field.
fn is_in_field(h: &History, ops: &[OpDecl], depth: usize, counted: &[bool], n: u32, c: u32) -> bool
    requires row { length counted.now ≡ length h.now }
    requires at_c { c < length h.now }
    ensures { result ≡ among (calls_view h.now) (bit counted.now) (spec.goes_to_field ops.now depth n) c }
{
    counted[c as usize] && goes_to_field(ops, depth, n, h.call(c))
}

/// Marks those of `counted` that count for the field n.
pub(crate) fn enter_field(
    h: &History,
    ops: &[OpDecl],
    depth: usize,
    counted: &[bool],
    n: u32,
    row: &mut [bool],
)
    requires from { length counted.now ≡ length h.now }
    requires to { length row.old ≡ length h.now }
    ensures { bit row.new ≡ in_field ops.now (calls_view h.now) depth n (bit counted.now) }
{
    for c in 0..h.len() {
        row[c as usize] = is_in_field(h, ops, depth, counted, n, c);
    }
}

/// Whether c counts and goes on to the key.
fn is_at_key(h: &History, ops: &[OpDecl], depth: usize, counted: &[bool], k: &Value, c: u32) -> bool
    requires row { length counted.now ≡ length h.now }
    requires at_c { c < length h.now }
    ensures { result ≡ among (calls_view h.now) (bit counted.now) (spec.goes_to_key ops.now depth (value_view k.now)) c }
{
    counted[c as usize] && goes_to_key(ops, depth, k, h.call(c))
}

/// Marks those of `counted` that go on to the key k.
fn enter_key(
    h: &History,
    ops: &[OpDecl],
    depth: usize,
    counted: &[bool],
    k: &Value,
    row: &mut [bool],
)
    requires from { length counted.now ≡ length h.now }
    requires to { length row.old ≡ length h.now }
    ensures { bit row.new ≡ among (calls_view h.now) (bit counted.now) (spec.goes_to_key ops.now depth (value_view k.now)) }
{
    for c in 0..h.len() {
        row[c as usize] = is_at_key(h, ops, depth, counted, k, c);
    }
}

/// Whether c gives way to the delete d.
fn gives_way(h: &History, winner: Winner, c: u32, d: u32) -> bool
    requires at_c { c < length h.now }
    requires at_d { d < length h.now }
    ensures { result ≡ loses (calls_view h.now) winner c d }
{
    match winner {
        Winner::Update => h.before(c, d),
        Winner::Delete => !h.before(d, c),
    }
}

/// Takes the calls that give way to the delete d out of the row.
fn strike(h: &History, winner: Winner, d: u32, row: &mut [bool])
    requires row { length row.old ≡ length h.now }
    requires at_d { d < length h.now }
    ensures { (c : ℕ) → bit row.new c ≡ (bit row.old c && not (loses (calls_view h.now) winner c d)) }
{
    for c in 0..h.len() {
        row[c as usize] = row[c as usize] && !gives_way(h, winner, c, d);
    }
}

/// Whether d counts and deletes the key.
fn is_delete(h: &History, ops: &[OpDecl], depth: usize, counted: &[bool], k: &Value, d: u32) -> bool
    requires row { length counted.now ≡ length h.now }
    requires at_d { d < length h.now }
    ensures { result ≡ among (calls_view h.now) (bit counted.now) (spec.deletes ops.now depth (value_view k.now)) d }
{
    counted[d as usize] && deletes(ops, depth, k, h.call(d))
}

/// Takes the calls that give way to d out of the row, where d counts and deletes the key.
fn strike_where(
    h: &History,
    ops: &[OpDecl],
    winner: Winner,
    depth: usize,
    counted: &[bool],
    k: &Value,
    d: u32,
    row: &mut [bool],
)
    requires from { length counted.now ≡ length h.now }
    requires to { length row.old ≡ length h.now }
    requires at_d { d < length h.now }
    ensures { (c : ℕ) → bit row.new c ≡ (bit row.old c && not (among (calls_view h.now) (bit counted.now) (spec.deletes ops.now depth (value_view k.now)) d && loses (calls_view h.now) winner c d)) }
{
    if is_delete(h, ops, depth, counted, k, d) {
        strike(h, winner, d, row);
    }
}

/// Takes the calls out of the row that give way to a delete of the key which counts.
fn hide(
    h: &History,
    ops: &[OpDecl],
    winner: Winner,
    depth: usize,
    counted: &[bool],
    k: &Value,
    row: &mut [bool],
)
    requires from { length counted.now ≡ length h.now }
    requires to { length row.old ≡ length h.now }
    ensures { bit row.new ≡ (λ c. bit row.old c && not (some_call (calls_view h.now) (λ d. among (calls_view h.now) (bit counted.now) (spec.deletes ops.now depth (value_view k.now)) d && loses (calls_view h.now) winner c d))) }
{
    for d in 0..h.len() {
        strike_where(h, ops, winner, depth, counted, k, d, row);
    }
}

/// Marks those of `counted` that count for the key k.
pub(crate) fn narrow(
    h: &History,
    ops: &[OpDecl],
    winner: Winner,
    depth: usize,
    counted: &[bool],
    k: &Value,
    row: &mut [bool],
)
    requires from { length counted.now ≡ length h.now }
    requires to { length row.old ≡ length h.now }
    ensures { bit row.new ≡ at_key ops.now (calls_view h.now) winner depth (value_view k.now) (bit counted.now) }
{
    enter_key(h, ops, depth, counted, k, row);
    hide(h, ops, winner, depth, counted, k, row);
}

/// Whether c counts and does this with x.
pub(crate) fn does_here(
    h: &History,
    ops: &[OpDecl],
    counted: &[bool],
    kind: OpKind,
    x: &Value,
    c: u32,
) -> bool
    requires row { length counted.now ≡ length h.now }
    requires at_c { c < length h.now }
    ensures { result ≡ among (calls_view h.now) (bit counted.now) (spec.does ops.now kind (value_view x.now)) c }
{
    counted[c as usize] && does(ops, kind, x, h.call(c))
}

/// Whether c counts and is of this kind.
pub(crate) fn is_here(h: &History, ops: &[OpDecl], counted: &[bool], kind: OpKind, c: u32) -> bool
    requires row { length counted.now ≡ length h.now }
    requires at_c { c < length h.now }
    ensures { result ≡ among (calls_view h.now) (bit counted.now) (spec.is_of ops.now kind) c }
{
    counted[c as usize] && is_of(ops, kind, h.call(c))
}

fn is_marked(row: &[bool], c: u32) -> bool
    requires { c < length row.now }
    ensures { result ≡ bit row.now c }
{
    row[c as usize]
}

/// Whether some call is marked.
#[tactic(auto, using(crdt_defs::proofs::BelowLemmas::any_more))]
pub(crate) fn any(h: &History, row: &[bool]) -> bool
    requires { length row.now ≡ length h.now }
    ensures { result ≡ some_call (calls_view h.now) (bit row.now) }
{
    for c in 0..h.len() {
        if is_marked(row, c) {
            return true;
        }
    }
    false
}
