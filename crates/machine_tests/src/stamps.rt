// Stamps of calls.
ghost use Rattle.std.specs.Prelude.{◌≡◌, ◌<◌, ◌||◌, length, nat_eq, slice_get, if◌then◌else◌};
ghost use Rattle.std.specs.List.{list_any};
ghost use Rattle.std.specs.List.Sorted.{IsStrictlyIncreasing};
ghost use Rattle.crdt_defs.specs.Calls.{calls_view};
ghost use Rattle.crdt_defs.specs.Histories.{call_is};
ghost use Rattle.crdt_defs.specs.Meaning.{stamp_of};
ghost use Rattle.crdt_defs.specs.Snapshots.{bit};
ghost use Rattle.event_machine.specs.Machine as spec;

use crate::indexed::IndexedHistory;
use crate::rows::{MOST, mark_read};
use crate::sets::reads_nothing;

fn is_stamped(h: &IndexedHistory, stamp: u64, c: u32) -> bool
    requires { c < length h.now }
    ensures { result ≡ call_is (calls_view h.now) (λ call. nat_eq call.stamp stamp) c }
{
    h.call(c).stamp == stamp
}

/// Whether a call has the stamp.
#[tactic(auto, using(crdt_defs::proofs::BelowLemmas::any_more, crate::proofs::StampLemmas::any_numbered))]
pub fn has_stamp(h: &IndexedHistory, stamp: u64) -> bool
    ensures { result ≡ list_any (λ call. nat_eq call.stamp stamp) (calls_view h.now) }
{
    if h.is_above_all(stamp) {
        return false;
    }
    for c in 0..h.len() {
        if is_stamped(h, stamp, c) {
            return true;
        }
    }
    false
}

/// The stamp of c, where c is marked; else 0.
fn stamp_read(h: &IndexedHistory, row: &[bool], c: u32) -> u64
    requires within { c < length h.now }
    requires row { length row.now ≡ 16384 }
    ensures { result ≡ (if bit row.now c then stamp_of (slice_get (calls_view h.now) c) else 0) }
{
    let _calls = h.len();
    if row[c as usize] { h.call(c).stamp } else { 0 }
}

/// The greatest stamp of the marked calls, or 0.
#[tactic(auto, using(crate::proofs::StampLemmas::greatest_more))]
fn greatest_marked(h: &IndexedHistory, row: &[bool]) -> u64
    requires { length row.now ≡ 16384 }
    ensures { result ≡ spec.greatest_stamp (calls_view h.now) (bit row.now) (length (calls_view h.now)) }
{
    let mut greatest: u64 = 0;
    for c in 0..h.len() {
        let stamp = stamp_read(h, row, c);
        if stamp > greatest {
            greatest = stamp;
        }
    }
    greatest
}

/// The greatest stamp of the calls of these transactions and of the open one, or 0.
pub fn greatest_stamp(h: &IndexedHistory, sees: &[u32], tx: Option<u32>) -> u64
    requires { IsStrictlyIncreasing sees.now }
    ensures { result
        ≡ spec.greatest_stamp (calls_view h.now)
        (λ c. spec.calls_of (calls_view h.now) sees.now c || spec.own_calls (calls_view h.now) tx c) (length (calls_view h.now)) }
{
    if reads_nothing(sees, tx) {
        return 0;
    }
    let mut row = [false; MOST];
    mark_read(h, sees, tx, &mut row);
    greatest_marked(h, &row)
}
