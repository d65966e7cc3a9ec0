// One step.
ghost use Rattle.std.specs.Prelude.{◌≡◌, None, IfOk, IfErr};
ghost use Rattle.rp_lang.specs.ProgramView.{program_view};
ghost use Rattle.event_machine.specs.Machine as spec;
ghost use Rattle.machine_effects.specs.Steps.{Does, Stops, Steps, Fails};
ghost use Rattle.machine_state.specs.Fits.{Fits, StepFits};
ghost use Rattle.machine_state.specs.StateView.{state_view};
ghost use Rattle.step_labels.specs.StepLabels.{label_view};

use machine_checks::check;
use machine_effects::{StepErr, begin, commit, fail, invoke, make};
use machine_locals::local;
use machine_operate::operate;
use machine_returns::give_back;
use machine_state::State;
use rp_lang::{Event, Program, Step};
use std::alloc::Global;

/// Does a step that isn't refused.
fn act(s: &mut State, alloc: Global, p: &Program, label: &Step) -> Result<Event, StepErr>
    requires fits { Fits p.now s.old }
    requires step { StepFits p.now label.now }
    requires free { spec.refusal (program_view p.now) (state_view (program_view p.now) s.old) (label_view label.now) ≡ None }
    ensures ok { IfOk result (λ told. Does p.now s.old (label_view label.now) s.new told) }
    ensures err { IfErr result (λ why. Stops p.now s.old (label_view label.now) s.new why) }
{
    match label {
        Step::Invoke { proc, args } => invoke(s, alloc, p, *proc, args.as_slice()),
        Step::Begin { inv, stamp, sees } => begin(s, alloc, p, *inv, *stamp, sees.as_slice()),
        Step::Op { inv, stamp } => operate(s, alloc, p, *inv, *stamp),
        Step::Local { inv } => local(s, alloc, p, *inv),
        Step::New { inv, id } => make(s, alloc, p, *inv, id),
        Step::Commit { inv } => commit(s, p, *inv),
        Step::Return { inv } => give_back(s, alloc, p, *inv),
        Step::Fail { inv } => Ok(fail(s, *inv)),
        Step::Check { sees } => check(s, alloc, p, sees.as_slice()),
    }
}

/// Does one step. After a step that violates, and on an error, the state is as it was.
pub fn step(s: &mut State, alloc: Global, p: &Program, label: &Step) -> Result<Event, StepErr>
    requires fits { Fits p.now s.old }
    requires step { StepFits p.now label.now }
    ensures ok { IfOk result (λ told. Steps p.now s.old (label_view label.now) s.new told) }
    ensures err { IfErr result (λ why. Fails p.now s.old (label_view label.now) s.new why) }
    ensures fits { Fits p.now s.new }
{
    let refused = s.refusal(alloc, p, label)?;
    match refused {
        Some(why) => Err(StepErr::Refused(why)),
        None => act(s, alloc, p, label),
    }
}
