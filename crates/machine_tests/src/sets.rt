// Sets of calls: those of the transactions that are seen, and what an invocation reads.
ghost use Rattle.std.specs.Prelude.{◌≡◌, ◌||◌, IfOk, IsTrue, None, [], length};
ghost use Rattle.std.specs.List.Sorted.{IsStrictlyIncreasing};
ghost use Rattle.crdt_defs.specs.Calls.{calls_view};
ghost use Rattle.event_machine.specs.Machine as spec;

use crate::indexed::IndexedHistory;
use crate::rows::{MOST, mark_read, marked};
use rp_value::{List, Memory};
use std::alloc::Global;

/// Whether n stands in a strictly ascending list.
pub(crate) fn is_in(list: &[u32], n: u32) -> bool
    requires { IsStrictlyIncreasing list.now }
    ensures { result ≡ spec.is_in list.now n }
{
    list.binary_search(&n).is_ok()
}

/// Whether there is neither a transaction that is seen nor an open one.
pub(crate) fn reads_nothing(sees: &[u32], tx: Option<u32>) -> bool
    ensures { IsTrue result → (sees.now ≡ []) × (tx ≡ None) }
{
    sees.is_empty() && tx.is_none()
}

/// The calls of these transactions and of the open one, ascending.
pub fn calls_read(
    alloc: Global,
    h: &IndexedHistory,
    sees: &[u32],
    tx: Option<u32>,
) -> Result<List<u32>, Memory>
    requires { IsStrictlyIncreasing sees.now }
    ensures calls { IfOk result (λ calls. calls
        ≡ spec.listed (λ c. spec.calls_of (calls_view h.now) sees.now c || spec.own_calls (calls_view h.now) tx c)
        (length (calls_view h.now))) }
    ensures ascending { IfOk result (λ calls. IsStrictlyIncreasing calls) }
{
    if reads_nothing(sees, tx) {
        return Ok(List::new(alloc));
    }
    let mut row = [false; MOST];
    mark_read(h, sees, tx, &mut row);
    marked(alloc, &row, h.len())
}
