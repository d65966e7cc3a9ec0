ghost use Rattle.std.specs.Prelude.{◌≡◌, ◌<◌, ◌↔◌, IsTrue, ℕ, ◌+◌, ◌&&◌, ◌||◌, false, length, slice_get, nat_eq, not};
ghost use Rattle.std.specs.List.{list_all};
ghost use Rattle.std.specs.FinSet as set;
ghost use Rattle.crdt_defs.specs.Calls.{calls_view};
ghost use Rattle.crdt_defs.specs.Counting.{any_below};
ghost use Rattle.crdt_defs.specs.Histories.{call_is, past_of};
ghost use Rattle.crdt_defs.specs.Snapshots.{bit, IsSnapshot};
ghost use Rattle.crdt_lib.specs.means.Members.{caused_at, AreCaused};
ghost use Rattle.crdt_lib.specs.means.Blocks as spec;

use crate::history::History;
use crate::view::View;

/// How many transactions one pass over the calls looks at.
const BLOCK: usize = 16_384;

/// Whether the view is a consistent snapshot, where `committed` says of each transaction whether it is committed; one
/// past its end isn't. It takes no memory.
pub fn is_snapshot<V: View>(h: &History, committed: &[bool], view: &V) -> bool
    ensures { IsTrue result ↔ IsSnapshot (calls_view h.now) committed.now (set.contains (V.calls view.now)) }
{
    match caused_members(h, committed, view) {
        Some(members) => members == view.size() && !splits_one(h, view, committed.len()),
        None => false,
    }
}

/// How many calls of the history are visible, where each of them is committed and its past is visible.
fn caused_members<V: View>(h: &History, committed: &[bool], view: &V) -> Option<u32>
    ensures { AreCaused (calls_view h.now) committed.now (V.calls view.now) result }
{
    let mut members = 0;
    for c in 0..h.len() {
        if view.has(c) {
            if !is_caused(h, committed, view, c) {
                return None;
            }
            members += 1;
        }
    }
    Some(members)
}

fn is_caused<V: View>(h: &History, committed: &[bool], view: &V, c: u32) -> bool
    requires { c < length h.now }
    ensures { result ≡ caused_at (calls_view h.now) committed.now (set.contains (V.calls view.now)) c }
{
    is_committed(h, committed, c) && sees_past(h, view, c)
}

fn is_committed(h: &History, committed: &[bool], c: u32) -> bool
    requires { c < length h.now }
    ensures { result ≡ call_is (calls_view h.now) (λ call. bit committed.now call.tx) c }
{
    is_set(committed, h.call(c).tx as usize)
}

/// The bit n of the row, which is false past its end.
#[tactic(auto, using(std::proofs::lemmas::List::get_or_past))]
fn is_set(row: &[bool], n: usize) -> bool
    ensures { result ≡ bit row.now n }
{
    if n < row.len() { row[n] } else { false }
}

/// Whether each call in the past of c is visible.
fn sees_past<V: View>(h: &History, view: &V, c: u32) -> bool
    requires { c < length h.now }
    ensures { result ≡ list_all (set.contains (V.calls view.now)) (past_of (slice_get (calls_view h.now) c)) }
{
    sees_all(view, h.call(c).past.as_slice())
}

fn sees_all<V: View>(view: &V, calls: &[u32]) -> bool
    ensures { result ≡ list_all (set.contains (V.calls view.now)) calls.now }
{
    for c in calls {
        if !view.has(*c) {
            return false;
        }
    }
    true
}

/// Whether some transaction below the bound is visible in part.
#[tactic(auto, using(crdt_defs::proofs::BelowLemmas::any_more))]
fn splits_one<V: View>(h: &History, view: &V, bound: usize) -> bool
    ensures { result ≡ spec.splits_one (calls_view h.now) (set.contains (V.calls view.now)) bound }
{
    for block in 0..bound / BLOCK + 1 {
        if splits_in(h, view, block) {
            return true;
        }
    }
    false
}

/// Whether some transaction of the block is visible in part.
fn splits_in<V: View>(h: &History, view: &V, block: usize) -> bool
    requires { block < 1125899906842624 }
    ensures { result ≡ spec.splits (calls_view h.now) (set.contains (V.calls view.now)) block }
{
    let mut seen = [false; BLOCK];
    mark_seen(h, view, block * BLOCK, &mut seen);
    misses_one(h, view, block * BLOCK, &seen)
}

/// Marks the transactions of the block from `base` on that have a visible call.
fn mark_seen<V: View>(h: &History, view: &V, base: usize, seen: &mut [bool])
    requires block { length seen.old ≡ 16384 }
    requires none { (t : ℕ) → bit seen.old t ≡ false }
    ensures block { length seen.new ≡ 16384 }
    ensures seen { (t : ℕ) → t < 16384 → bit seen.new t ≡ spec.is_seen (calls_view h.now) (set.contains (V.calls view.now)) (base + t) }
{
    for c in 0..h.len() {
        if view.has(c) {
            mark(seen, base, h.call(c).tx as usize);
        }
    }
}

/// Marks the transaction, where it is of the block.
fn mark(seen: &mut [bool], base: usize, tx: usize)
    requires block { length seen.old ≡ 16384 }
    ensures block { length seen.new ≡ 16384 }
    ensures seen { (t : ℕ) → t < 16384 → bit seen.new t ≡ (nat_eq tx (base + t) || bit seen.old t) }
{
    if base <= tx && tx - base < BLOCK {
        seen[tx - base] = true;
    }
}

/// Whether some call isn't visible, and is of a marked transaction.
#[tactic(auto, using(crdt_defs::proofs::BelowLemmas::any_more))]
fn misses_one<V: View>(h: &History, view: &V, base: usize, seen: &[bool]) -> bool
    requires block { length seen.now ≡ 16384 }
    ensures { result ≡ any_below (λ d. call_is (calls_view h.now) (λ call. spec.is_marked base seen.now call.tx) d && not (set.contains (V.calls view.now) d)) (length (calls_view h.now)) }
{
    for d in 0..h.len() {
        if is_missed(h, view, base, seen, d) {
            return true;
        }
    }
    false
}

/// Whether d is of a marked transaction and isn't visible.
fn is_missed<V: View>(h: &History, view: &V, base: usize, seen: &[bool], d: u32) -> bool
    requires block { length seen.now ≡ 16384 }
    requires at_d { d < length h.now }
    ensures { result ≡ (call_is (calls_view h.now) (λ call. spec.is_marked base seen.now call.tx) d && not (set.contains (V.calls view.now) d)) }
{
    is_marked(base, seen, h.call(d).tx as usize) && !view.has(d)
}

/// Whether the transaction is of the block and marked.
fn is_marked(base: usize, seen: &[bool], tx: usize) -> bool
    requires block { length seen.now ≡ 16384 }
    ensures { result ≡ spec.is_marked base seen.now tx }
{
    base <= tx && is_set(seen, tx - base)
}
