// Writes into the slots of an invocation.
ghost use Rattle.std.specs.Prelude.{◌≡◌, ◌<◌, length, reverse, slice_set, Some, IfOk, if◌then◌else◌};
ghost use Rattle.rp_value.specs.Values.{Con, no_val};
ghost use Rattle.rp_value.specs.ValueView.{value_view};
ghost use Rattle.crdt_defs.specs.Truths.{truth_val};
ghost use Rattle.event_machine.specs.WellFormed.{At};
ghost use Rattle.machine_locals.specs.Slots.{filled};
ghost use Rattle.machine_state.specs.declared.state.Run.{Run};

use machine_state::{Run, Table};
use rp_value::{List, Memory, Value};
use std::alloc::Global;

/// The value is put into the slot, and the invocation goes on from the point.
pub(crate) fn assign(runs: &mut Table<Run>, i: u32, slot: u32, value: Value, behind: u64)
    requires { i < length runs.old }
    ensures { (run : Run) → At runs.old i run
        → runs.new ≡ slice_set runs.old i (record run { slots = slice_set run.slots slot (Some value); at = behind }) }
{
    runs.put(i, slot, value);
    runs.go_on(i, behind);
}

/// The values are put into the slots, from the list's end on.
pub(crate) fn fill(runs: &mut Table<Run>, i: u32, slots: &[u32], mut values: List<Value>)
    requires { i < length runs.old }
    ensures { (run : Run) → At runs.old i run
        → runs.new ≡ slice_set runs.old i (record run { slots = filled slots.now (reverse values) run.slots }) }
{
    for slot in slots {
        let Some(value) = values.pop() else {
            return;
        };
        runs.put(i, *slot, value);
    }
}

/// The list, turned around.
pub(crate) fn turned<T: Drop>(alloc: Global, mut values: List<T>) -> Result<List<T>, Memory>
    ensures { IfOk result (λ others. others ≡ reverse values) }
{
    let mut others = List::new(alloc);
    while let Some(value) = values.pop() {
        others.push(value)?;
    }
    Ok(others)
}

/// The constructor without fields.
#[tactic(auto, using(rp_value::proofs::ValueViews::value_views))]
fn bare(alloc: Global, con: u32) -> Value
    ensures { value_view result ≡ Con con no_val }
{
    Value::Con {
        con,
        args: List::new(alloc),
    }
}

/// A truth value as a value.
pub(crate) fn truth_value(alloc: Global, holds: bool) -> Value
    ensures { value_view result ≡ truth_val holds }
{
    if holds {
        bare(alloc, 1)
    } else {
        bare(alloc, 0)
    }
}

/// The point on the one way or on the other.
pub(crate) fn way(holds: bool, first: u64, other: u64) -> u64
    ensures { result ≡ (if holds then first else other) }
{
    if holds { first } else { other }
}
