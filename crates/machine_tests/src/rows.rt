// Rows of bits, one for each call or transaction that there may be.
ghost use Rattle.std.specs.Prelude.{◌≡◌, ◌<◌, ◌≤◌, ◌||◌, ℕ, Bool, false, All, IfOk, length, nat_eq, Option};
ghost use Rattle.std.specs.List.Sorted.{IsStrictlyIncreasing};
ghost use Rattle.crdt_defs.specs.Calls.{calls_view};
ghost use Rattle.crdt_defs.specs.Snapshots.{bit};
ghost use Rattle.event_machine.specs.Machine as spec;

use crate::indexed::IndexedHistory;
use rp_value::{List, Memory};
use std::alloc::Global;

/// No history has more calls.
pub(crate) const MOST: usize = 16_384;

pub(crate) fn mark_all(numbers: &[u32], row: &mut [bool])
    requires row { length row.old ≡ 16384 }
    requires below { All (λ n. n < 16384) numbers.now }
    ensures row { length row.new ≡ 16384 }
    ensures marked { (n : ℕ) → bit row.new n ≡ (spec.is_in numbers.now n || bit row.old n) }
{
    for n in numbers {
        row[*n as usize] = true;
    }
}

/// Marks the number, where it has a place in the row.
pub(crate) fn mark(row: &mut [bool], n: u32)
    requires { length row.old ≡ 16384 }
    ensures row { length row.new ≡ 16384 }
    ensures marked { (t : ℕ) → t < 16384 → bit row.new t ≡ (nat_eq n t || bit row.old t) }
{
    if (n as usize) < MOST {
        row[n as usize] = true;
    }
}

/// Marks the calls of these transactions.
fn mark_txs(h: &IndexedHistory, sees: &[u32], row: &mut [bool])
    requires { length row.old ≡ 16384 }
    ensures row { length row.new ≡ 16384 }
    ensures marked { (n : ℕ) → bit row.new n ≡ (spec.calls_of (calls_view h.now) sees.now n || bit row.old n) }
{
    for tx in sees {
        mark_all(h.of_tx(*tx), row);
    }
}

/// Marks the calls of the open transaction.
fn mark_own(h: &IndexedHistory, tx: Option<u32>, row: &mut [bool])
    requires { length row.old ≡ 16384 }
    ensures row { length row.new ≡ 16384 }
    ensures marked { (n : ℕ) → bit row.new n ≡ (spec.own_calls (calls_view h.now) tx n || bit row.old n) }
{
    match tx {
        Some(tx) => mark_all(h.of_tx(tx), row),
        None => (),
    }
}

/// Marks the calls of these transactions, and no other.
pub(crate) fn mark_seen(h: &IndexedHistory, sees: &[u32], row: &mut [bool])
    requires row { length row.old ≡ 16384 }
    requires none { (n : ℕ) → bit row.old n ≡ false }
    ensures row { length row.new ≡ 16384 }
    ensures marked { ◌≡◌ {A = ℕ → Bool} (bit row.new) (spec.calls_of (calls_view h.now) sees.now) }
{
    mark_txs(h, sees, row);
}

/// Marks the calls of these transactions and of the open one, and no other.
pub(crate) fn mark_read(h: &IndexedHistory, sees: &[u32], tx: Option<u32>, row: &mut [bool])
    requires row { length row.old ≡ 16384 }
    requires none { (n : ℕ) → bit row.old n ≡ false }
    ensures row { length row.new ≡ 16384 }
    ensures marked { ◌≡◌ {A = ℕ → Bool} (bit row.new)
        (λ c. spec.calls_of (calls_view h.now) sees.now c || spec.own_calls (calls_view h.now) tx c) }
{
    mark_txs(h, sees, row);
    mark_own(h, tx, row);
}

/// How many numbers below n are marked. No answer hangs on it, only how much room a list of them is given.
fn room(row: &[bool], n: u32) -> usize
    requires { n ≤ length row.now }
{
    let mut count: usize = 0;
    for c in 0..n {
        if row[c as usize] {
            count += 1;
        }
    }
    count
}

/// The marked numbers below n, ascending.
#[tactic(auto, using(crate::proofs::SetLemmas::listed_more))]
pub(crate) fn marked(alloc: Global, row: &[bool], n: u32) -> Result<List<u32>, Memory>
    requires few { n ≤ 16384 }
    requires row { length row.now ≡ 16384 }
    ensures calls { IfOk result (λ calls. calls ≡ spec.listed (bit row.now) n) }
    ensures ascending { IfOk result (λ calls. IsStrictlyIncreasing calls) }
{
    let mut calls = Vec::with_capacity(alloc, room(row, n))?;
    for c in 0..n {
        if row[c as usize] {
            calls.push(c)?;
        }
    }
    Ok(List::from_vec(calls))
}
