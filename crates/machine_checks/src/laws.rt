// A law of what is asked of a state.
ghost use Rattle.std.specs.Prelude.{◌≡◌, ℕ, Some, length, map, option_map, slice_get};
ghost use Rattle.rp_lang.specs.declared.program.Program.{Program};
ghost use Rattle.rp_lang.specs.ProgramView.{program_view};
ghost use Rattle.crdt_defs.specs.Calls.{calls_view};
ghost use Rattle.crdt_truth.specs.Readings.{info_view};
ghost use Rattle.event_machine.specs.Machine.{calls_of, info};
ghost use Rattle.event_machine.specs.States as seen;
ghost use Rattle.event_machine.specs.WellFormed.{At};
ghost use Rattle.machine_state.specs.declared.state.Run.{Run};
ghost use Rattle.machine_state.specs.declared.state.State.{State};
ghost use Rattle.machine_state.specs.Fits.{Fits};
ghost use Rattle.machine_state.specs.StateView.{state_view};

/// What accessors read of the code's lists is what the state that is seen has: how many invocations there are, and of each
/// its procedure, its arguments, its result and its view; and of each transaction whether it is committed.
pub fn accessors_tell()
    ensures count { (p : Program) (s : State) → Fits p s → length s.infos ≡ length (state_view (program_view p) s).invocations }
    ensures infos { (p : Program) (s : State) (i : ℕ) (inv : seen.Invocation) → Fits p s
        → At (state_view (program_view p) s).invocations i inv → option_map info_view (slice_get s.infos i) ≡ Some (info inv) }
    ensures views { (p : Program) (s : State) (i : ℕ) (inv : seen.Invocation) → Fits p s
        → At (state_view (program_view p) s).invocations i inv
        → option_map (λ run. calls_of (calls_view s.history) run.seen) (slice_get s.runs i) ≡ Some inv.view }
    ensures committed { (p : Program) (s : State) → Fits p s
        → s.committed ≡ map (λ tx. tx.committed) (state_view (program_view p) s).txs }
{}
