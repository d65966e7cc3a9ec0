// Invariants at the snapshot of some transactions.
ghost use Rattle.std.specs.Prelude.{◌≡◌, ◌<◌, ℕ, [], length, map, min, IfOk, IfErr};
ghost use Rattle.std.specs.List.Sorted.{IsStrictlyIncreasing};
ghost use Rattle.rp_lang.specs.Programs.{Inv};
ghost use Rattle.rp_lang.specs.ProgramView.{program_view};
ghost use Rattle.rp_lang.specs.Views.{inv_view};
ghost use Rattle.crdt_truth.specs.Readings.{parts_view, reading_view, seen_in};
ghost use Rattle.crdt_truth.specs.Within.{FoWithin};
ghost use Rattle.event_machine.specs.Machine as spec;
ghost use Rattle.event_machine.specs.States as label;
ghost use Rattle.event_machine.specs.WellFormed.{At};
ghost use Rattle.machine_checks.specs.Checking.{answer_of};
ghost use Rattle.machine_effects.specs.Limits.{of_all};
ghost use Rattle.machine_effects.specs.Steps.{Does, Meets};
ghost use Rattle.machine_state.specs.Fits.{Fits};
ghost use Rattle.machine_state.specs.StateView.{state_view};

use crdt_lib::ListView;
use crdt_truth::{Binders, Reading, breadth, truth};
use machine_effects::StepErr;
use machine_state::State;
use machine_tests::calls_read;
use rp_lang::{Event, InvDecl, LimitName, Program, What};
use rp_value::{List, Memory};
use std::alloc::Global;

/// The greatest breadth of all invariants together.
const WIDEST: u64 = 50_000_000;

/// What invariants read, where these calls are visible.
pub(crate) fn snapshot<'a>(s: &'a State, p: &'a Program, view: &'a ListView) -> Reading<'a>
    requires { Fits p.now s.now }
    ensures is { reading_view result ≡ spec.at_snapshot (program_view p.now) (state_view (program_view p.now) s.now) (seen_in view.now) }
    ensures few { length result.infos.now < 4294967296 }
{
    Reading {
        program: p,
        universe: s.universe,
        history: s.history.history(),
        committed: s.committed.as_slice(),
        infos: s.infos.as_slice(),
        view,
        slots: &[],
    }
}

/// The breadth of all invariants together, or the greatest number where it is more.
fn breadth_of_all(invs: &[InvDecl], r: &Reading) -> u64
    requires { length r.now.infos.now < 4294967296 }
    ensures { result ≡ min (of_all (parts_view r.now) (map inv_view invs.now)) 18446744073709551615 }
{
    let mut sum: u64 = 0;
    for inv in invs {
        sum = sum.saturating_add(breadth(&inv.body, r));
    }
    sum
}

/// The number of the first invariant that is false.
fn first_false(alloc: Global, invs: &List<InvDecl>, r: &Reading) -> Result<Option<u32>, Memory>
    requires few { length r.now.infos.now < 4294967296 }
    requires within { (n : ℕ) (inv : Inv) → At (map inv_view invs.now) n inv → FoWithin (reading_view r.now) [] inv.body }
    ensures { IfOk result (λ found. answer_of found ≡ spec.checked (reading_view r.now) 0 (map inv_view invs.now)) }
{
    for n in 0..invs.count() {
        let inv = invs.get(n as usize);
        let holds = truth(alloc, r, &Binders::Closed, &inv.body)?;
        if !holds {
            return Ok(Some(n));
        }
    }
    Ok(None)
}

/// Evaluates each invariant at the snapshot of these transactions, up to the first that is false.
pub fn check(s: &State, alloc: Global, p: &Program, sees: &[u32]) -> Result<Event, StepErr>
    requires fits { Fits p.now s.now }
    requires ascending { IsStrictlyIncreasing sees.now }
    ensures ok { IfOk result (λ told. Does p.now s.now (label.Check sees.now) s.now told) }
    ensures err { IfErr result (λ why. Meets p.now s.now (label.Check sees.now) why) }
{
    let _calls = s.history.len();
    let view = ListView::new(calls_read(alloc, &s.history, sees, None)?);
    let r = snapshot(s, p, &view);
    if breadth_of_all(p.invs.as_slice(), &r) > WIDEST {
        return Err(StepErr::Limit(LimitName::Breadth));
    }
    let found = first_false(alloc, &p.invs, &r)?;
    match found {
        Some(n) => Ok(Event::Violated(What::Invariant(n))),
        None => Ok(Event::Checked),
    }
}
