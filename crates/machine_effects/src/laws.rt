// Laws of effects.
ghost use Rattle.std.specs.Prelude.{◌≡◌, None};
ghost use Rattle.rp_lang.specs.ProgramView.{program_view};
ghost use Rattle.rp_lang.specs.declared.event.Event.{Event};
ghost use Rattle.rp_lang.specs.declared.program.Program.{Program};
ghost use Rattle.event_machine.specs.Machine.{refusal};
ghost use Rattle.event_machine.specs.States.{Label};
ghost use Rattle.machine_state.specs.declared.state.State.{State};
ghost use Rattle.machine_state.specs.Fits.{Fits};
ghost use Rattle.machine_state.specs.StateView.{state_view};
ghost use Rattle.machine_effects.specs.Steps.{Does};

/// After the effect of a label that isn't refused a state fits the program, as it did before.
pub fn states_fit()
    ensures { (p : Program) (old new : State) (label : Label) (told : Event) → Fits p old
        → refusal (program_view p) (state_view (program_view p) old) label ≡ None → Does p old label new told → Fits p new }
{}
