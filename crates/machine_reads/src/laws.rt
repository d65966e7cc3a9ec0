// A law on the integers of states.
ghost use Rattle.rp_lang.specs.ProgramView.{program_view};
ghost use Rattle.rp_lang.specs.declared.program.Program.{Program};
ghost use Rattle.crdt_defs.specs.Calls.{calls_view};
ghost use Rattle.crdt_defs.specs.Histories.{IsHistory};
ghost use Rattle.machine_bounds.specs.Bounded.{HasWords};
ghost use Rattle.machine_state.specs.declared.state.State.{State};
ghost use Rattle.machine_state.specs.Fits.{Fits};
ghost use Rattle.machine_state.specs.StateView.{state_view};

/// Integers in calls and slots of a state that fits a program have 64 bits.
pub fn states_have_words()
    ensures { (p : Program) (s : State) → Fits p s → IsHistory (calls_view s.history) → HasWords (state_view (program_view p) s) }
{}
