// Calls of an open transaction.
ghost use Rattle.std.specs.Prelude.{◌≡◌, ◌<◌, true, length, IfOk, IfErr};
ghost use Rattle.event_machine.specs.States as label;
ghost use Rattle.event_machine.specs.WellFormed.{At};
ghost use Rattle.machine_state.specs.Accessors.{is_running};
ghost use Rattle.machine_state.specs.Fits.{Fits};
ghost use Rattle.machine_state.specs.declared.state.Run.{Run};
ghost use Rattle.machine_effects.specs.Steps.{Does, Stops};

use crdt_defs::CallRec;
use machine_effects::{StepErr, behind_operation};
use machine_next::next_is_within;
use machine_reads::{calls_of, values_at};
use machine_state::State;
use machine_tests::all_ints_fit;
use rp_lang::{Event, LimitName, Program};
use std::alloc::Global;

/// The greatest number of calls.
const MOST: u32 = 16_384;

/// Adds a call of the open transaction.
pub fn operate(
    s: &mut State,
    alloc: Global,
    p: &Program,
    i: u32,
    stamp: u64,
) -> Result<Event, StepErr>
    requires fits { Fits p.now s.old }
    requires within { i < length s.old.infos }
    requires running { (run : Run) → At s.old.runs i run → is_running run.standing ≡ true }
    ensures ok { IfOk result (λ told. Does p.now s.old (label.Op i stamp) s.new told) }
    ensures err { IfErr result (λ why. Stops p.now s.old (label.Op i stamp) s.new why) }
{
    if s.history.len() >= MOST {
        return Err(StepErr::Limit(LimitName::Calls));
    }
    let Some((op, exprs, at)) = behind_operation(s, p, i) else {
        return Ok(Event::Moved);
    };
    next_is_within(s, p, i);
    let args = values_at(s, alloc, p, i, exprs)?;
    if !all_ints_fit(args.as_slice()) {
        return Err(StepErr::Limit(LimitName::Integer));
    }
    let Some(tx) = s.runs.get(i).tx else {
        return Ok(Event::Moved);
    };
    let past = calls_of(s, alloc, i)?;
    s.history.push(CallRec {
        op,
        args,
        inv: i,
        tx,
        stamp,
        past,
    })?;
    s.runs.go_on(i, at);
    Ok(Event::Moved)
}
