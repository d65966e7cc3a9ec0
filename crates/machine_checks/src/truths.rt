// Truth at a view of a state.
ghost use Rattle.std.specs.Prelude.{◌≡◌, ◌<◌, ℕ, [], true, length, IfOk};
ghost use Rattle.std.specs.FinSet as set;
ghost use Rattle.std.specs.List.Sorted.{IsStrictlyIncreasing};
ghost use Rattle.rp_lang.specs.ProgramView.{program_view};
ghost use Rattle.rp_lang.specs.Views.{formula_view};
ghost use Rattle.crdt_defs.specs.Truths as truths;
ghost use Rattle.crdt_truth.specs.Within.{FoWithin};
ghost use Rattle.event_machine.specs.Machine as spec;
ghost use Rattle.machine_state.specs.Fits.{Fits};
ghost use Rattle.machine_state.specs.StateView.{state_view};

use crate::checks::snapshot;
use crdt_lib::{ListView, View};
use crdt_truth::{Binders, truth as truth_of};
use machine_state::State;
use rp_lang::{Formula, Program};
use rp_value::{List, Memory};
use std::alloc::Global;

/// The numbers below n that are in the view, ascending.
#[tactic(auto, using(machine_tests::proofs::SetLemmas::listed_more))]
fn members<V: View>(alloc: Global, view: &V, n: u32) -> Result<List<u32>, Memory>
    ensures calls { IfOk result (λ calls. calls ≡ spec.listed (set.contains (V.calls view.now)) n) }
    ensures ascending { IfOk result (λ calls. IsStrictlyIncreasing calls) }
{
    let mut calls = List::new(alloc);
    for c in 0..n {
        if view.has(c) {
            calls.push(c)?;
        }
    }
    Ok(calls)
}

/// Whether a formula without slots is true at a view of the state.
pub fn truth<V: View>(
    alloc: Global,
    s: &State,
    p: &Program,
    view: &V,
    f: &Formula,
) -> Result<bool, Memory>
    requires fits { Fits p.now s.now }
    requires calls { (c : ℕ) → set.contains (V.calls view.now) c ≡ true → c < length s.now.history }
    requires within { FoWithin (spec.at_snapshot (program_view p.now) (state_view (program_view p.now) s.now)
        (set.contains (V.calls view.now))) [] (formula_view f.now) }
    ensures { IfOk result (λ t. t ≡ truths.truth (spec.at_snapshot (program_view p.now) (state_view (program_view p.now) s.now)
        (set.contains (V.calls view.now))) [] (formula_view f.now)) }
{
    let seen = ListView::new(members(alloc, view, s.history.len())?);
    truth_of(alloc, &snapshot(s, p, &seen), &Binders::Closed, f)
}
