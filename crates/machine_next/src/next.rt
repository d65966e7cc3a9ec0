// What a running invocation evaluates next.
ghost use Rattle.std.specs.Prelude.{◌≡◌, true};
ghost use Rattle.event_machine.specs.States.{Invocation};
ghost use Rattle.event_machine.specs.WellFormed.{At};
ghost use Rattle.machine_bounds.specs.NextWithin.{NextWithin};
ghost use Rattle.machine_reads.specs.Reads.{Viewed, read_at};
ghost use Rattle.machine_state.specs.declared.state.Run.{Run};
ghost use Rattle.machine_state.specs.Accessors.{is_running};
ghost use Rattle.machine_state.specs.Fits.{Fits};

use machine_state::State;
use rp_lang::Program;

/// Tells that what the invocation evaluates next stays within 128 bits. It does nothing else.
pub fn next_is_within(s: &State, _p: &Program, _i: u32)
    requires fits { Fits _p.now s.now }
    requires running { (run : Run) → At s.now.runs _i run → is_running run.standing ≡ true }
    ensures { (inv : Invocation) → Viewed _p.now s.now _i inv → NextWithin (read_at _p.now s.now inv) inv.left }
{
    // the history's own clause says that its integers have 64 bits
    let _calls = s.history.len();
}
