// Whether transactions are seen with all that is before them.
ghost use Rattle.std.specs.Prelude.{◌≡◌, ◌<◌, ◌≤◌, ◌+◌, ◌&&◌, ◌||◌, not, ℕ, Bool, false, IsTrue, [], length};
ghost use Rattle.std.specs.List.Sorted.{IsStrictlyIncreasing};
ghost use Rattle.crdt_defs.specs.Calls.{calls_view};
ghost use Rattle.crdt_defs.specs.Counting.{first_below};
ghost use Rattle.crdt_defs.specs.Histories.{IsHistory};
ghost use Rattle.crdt_defs.specs.Meaning.{is_before_one};
ghost use Rattle.crdt_defs.specs.Snapshots.{bit};
ghost use Rattle.event_machine.specs.Machine as spec;
ghost use Rattle.event_machine.specs.States.{State};
ghost use Rattle.machine_tests.specs.Transitive.{IsTransitive};
ghost use Rattle.machine_tests.specs.means.Causes.{AreCausesFrom, is_needed};

use crate::indexed::IndexedHistory;
use crate::rows::{MOST, mark, mark_all, mark_seen};
use crate::sets::is_in;

/// Whether neither has a transaction.
fn sees_nothing(sees: &[u32], earlier: &[u32]) -> bool
    ensures { IsTrue result → (sees.now ≡ []) × (earlier.now ≡ []) }
{
    sees.is_empty() && earlier.is_empty()
}

/// Whether d is a seen call, by the row that says so of each.
fn is_seen(h: &IndexedHistory, sees: &[u32], seen: &[bool], d: u32) -> bool
    requires within { d < length h.now }
    requires row { length seen.now ≡ 16384 }
    requires seen { ◌≡◌ {A = ℕ → Bool} (bit seen.now) (spec.calls_of (calls_view h.now) sees.now) }
    ensures { result ≡ spec.calls_of (calls_view h.now) sees.now d }
{
    let _calls = h.len();
    seen[d as usize]
}

/// The least of the first `txs` transactions that isn't seen and has a call before one that is, or a call of those that
/// were seen earlier.
pub fn missing(h: &IndexedHistory, txs: u32, sees: &[u32], earlier: &[u32]) -> Option<u32>
    requires transitive { IsTransitive (calls_view h.now) }
    requires few { txs ≤ length h.now }
    requires sees { IsStrictlyIncreasing sees.now }
    requires earlier { IsStrictlyIncreasing earlier.now }
    ensures { (s : State) → s.calls ≡ calls_view h.now
        → result ≡ first_below (spec.is_missing s sees.now (spec.calls_of s.calls earlier.now)) txs }
{
    if sees_nothing(sees, earlier) {
        return None;
    }
    let mut seen = [false; MOST];
    mark_seen(h, sees, &mut seen);
    let mut causes = [false; MOST];
    mark_causes(h, sees, &seen, &mut causes);
    let mut early = [false; MOST];
    mark_seen(h, earlier, &mut early);
    let mut needed = [false; MOST];
    mark_needed(h, earlier, &early, &causes, &mut needed);
    first_unseen(txs, sees, &needed)
}

/// Marks the calls that are before one of these transactions. It goes from the last call down, and what is before a
/// marked call is marked already.
fn mark_causes(h: &IndexedHistory, sees: &[u32], seen: &[bool], row: &mut [bool])
    requires transitive { IsTransitive (calls_view h.now) }
    requires length { length seen.now ≡ 16384 }
    requires seen { ◌≡◌ {A = ℕ → Bool} (bit seen.now) (spec.calls_of (calls_view h.now) sees.now) }
    requires row { length row.old ≡ 16384 }
    requires none { (b : ℕ) → bit row.old b ≡ false }
    ensures few { length h.now ≤ 16384 }
    ensures row { length row.new ≡ 16384 }
    ensures causes { (b : ℕ) → bit row.new b ≡ is_before_one (calls_view h.now) (spec.calls_of (calls_view h.now) sees.now) b }
{
    for i in 0..h.len() {
        mark_past(h, sees, seen, h.len() - 1 - i, row);
    }
}

/// Marks what is before the call, if it is seen and isn't marked itself.
fn mark_past(h: &IndexedHistory, sees: &[u32], seen: &[bool], d: u32, row: &mut [bool])
    requires history { IsHistory (calls_view h.now) }
    requires transitive { IsTransitive (calls_view h.now) }
    requires length { length seen.now ≡ 16384 }
    requires seen { ◌≡◌ {A = ℕ → Bool} (bit seen.now) (spec.calls_of (calls_view h.now) sees.now) }
    requires within { d < length h.now }
    requires row { length row.old ≡ 16384 }
    requires later { AreCausesFrom (calls_view h.now) (spec.calls_of (calls_view h.now) sees.now) (d + 1) (bit row.old) }
    ensures row { length row.new ≡ 16384 }
    ensures causes { AreCausesFrom (calls_view h.now) (spec.calls_of (calls_view h.now) sees.now) d (bit row.new) }
{
    if !row[d as usize] {
        if is_seen(h, sees, seen, d) {
            mark_all(h.call(d).past.as_slice(), row);
        }
    }
}

/// Whether c is of the transactions that were seen earlier, or a cause.
fn is_wanted(h: &IndexedHistory, earlier: &[u32], early: &[bool], causes: &[bool], c: u32) -> bool
    requires history { IsHistory (calls_view h.now) }
    requires length { length early.now ≡ 16384 }
    requires early { ◌≡◌ {A = ℕ → Bool} (bit early.now) (spec.calls_of (calls_view h.now) earlier.now) }
    requires within { c < length h.now }
    requires row { length causes.now ≡ 16384 }
    ensures { result ≡ (spec.calls_of (calls_view h.now) earlier.now c || bit causes.now c) }
{
    is_seen(h, earlier, early, c) || causes[c as usize]
}

/// Marks the transactions of the wanted calls.
fn mark_needed(
    h: &IndexedHistory,
    earlier: &[u32],
    early: &[bool],
    causes: &[bool],
    row: &mut [bool],
)
    requires length { length early.now ≡ 16384 }
    requires early { ◌≡◌ {A = ℕ → Bool} (bit early.now) (spec.calls_of (calls_view h.now) earlier.now) }
    requires causes { length causes.now ≡ 16384 }
    requires row { length row.old ≡ 16384 }
    requires none { (t : ℕ) → bit row.old t ≡ false }
    ensures row { length row.new ≡ 16384 }
    ensures needed { (t : ℕ) → t < 16384 → bit row.new t
        ≡ is_needed (calls_view h.now) (λ c. spec.calls_of (calls_view h.now) earlier.now c || bit causes.now c) t
        (length (calls_view h.now)) }
{
    for c in 0..h.len() {
        if is_wanted(h, earlier, early, causes, c) {
            mark(row, h.call(c).tx);
        }
    }
}

/// Whether the transaction is needed and isn't seen.
fn is_unseen(sees: &[u32], needed: &[bool], tx: u32) -> bool
    requires ascending { IsStrictlyIncreasing sees.now }
    requires within { tx < length needed.now }
    ensures { result ≡ (not (spec.is_in sees.now tx) && bit needed.now tx) }
{
    if needed[tx as usize] {
        !is_in(sees, tx)
    } else {
        false
    }
}

/// The first transaction that is needed and isn't seen.
#[tactic(auto, using(crate::proofs::ClosedLemmas::first_more))]
fn first_unseen(txs: u32, sees: &[u32], needed: &[bool]) -> Option<u32>
    requires few { txs ≤ 16384 }
    requires ascending { IsStrictlyIncreasing sees.now }
    requires row { length needed.now ≡ 16384 }
    ensures { result ≡ first_below (λ tx. not (spec.is_in sees.now tx) && bit needed.now tx) txs }
{
    for tx in 0..txs {
        if is_unseen(sees, needed, tx) {
            return Some(tx);
        }
    }
    None
}
