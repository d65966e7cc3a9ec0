// How a schedule ends.
ghost use Rattle.std.specs.Prelude.{◌≡◌, ◌≤◌, ◌<◌, IfOk, IfErr, OnOk, All, map, length};
ghost use Rattle.rp_lang.specs.ProgramView.{program_view};
ghost use Rattle.event_machine.specs.Runs.{outcome, outcome_from};
ghost use Rattle.event_machine.specs.States.{empty as empty_state};
ghost use Rattle.step_labels.specs.StepLabels.{label_view};
ghost use Rattle.machine_state.specs.Fits.{Fits, StepFits};
ghost use Rattle.machine_state.specs.StateView.{state_view};
ghost use Rattle.schedule_fmt.specs.Views.{schedule_view};
ghost use Rattle.replay.specs.Outcomes.{outcome_view, AreSteps, MeetsNone, IsCause};

use machine_effects::StepErr;
use machine_state::State;
use machine_steps::step as do_step;
use rp_lang::{Event, LimitName, Program, Refusal, Step, What};
use schedule_fmt::Schedule;
use std::alloc::Global;

/// How a schedule ends. Steps are numbered from 1.
#[derive(Drop)]
pub enum Outcome {
    /// No step violates or is refused.
    Clean { steps: u32 },
    Violated { step: u32, what: What },
    Refused { step: u32, why: Refusal },
}

/// Why a schedule has no outcome.
#[derive(Clone, Copy)]
pub enum ReplayErr {
    /// The first step that meets a limit. None before it violates or is refused.
    Limit { which: LimitName, step: u32 },
    Memory,
}

/// Does steps, up to the first that violates, is refused or meets a limit.
fn run(alloc: Global, p: &Program, state: &mut State, steps: &[Step]) -> Result<Outcome, ReplayErr>
    requires fits { Fits p.now state.old }
    requires short { length steps.now < 4294967296 }
    requires steps { All (StepFits p.now) steps.now }
    ensures ok { IfOk result (λ end. outcome_view end ≡ outcome_from (program_view p.now) 0
        (state_view (program_view p.now) state.old) (map label_view steps.now)) }
    ensures unlimited { OnOk result (MeetsNone (program_view p.now)
        (state_view (program_view p.now) state.old) (map label_view steps.now)) }
    ensures err { IfErr result (IsCause (program_view p.now)
        (state_view (program_view p.now) state.old) (map label_view steps.now)) }
{
    let mut number: u32 = 0;
    for step in steps {
        number += 1;
        match do_step(state, alloc, p, step) {
            Ok(Event::Violated(what)) => return Ok(Outcome::Violated { step: number, what }),
            Ok(Event::Moved) => (),
            Ok(Event::Checked) => (),
            Err(StepErr::Refused(why)) => return Ok(Outcome::Refused { step: number, why }),
            Err(StepErr::Limit(which)) => return Err(ReplayErr::Limit {
                which,
                step: number,
            }),
            Err(StepErr::Memory) => return Err(ReplayErr::Memory),
        }
    }
    Ok(Outcome::Clean { steps: number })
}

/// Runs a schedule on the machine from the empty state on.
pub fn replay(alloc: Global, p: &Program, s: &Schedule) -> Result<Outcome, ReplayErr>
    requires some { 1 ≤ s.now.universe }
    requires steps { AreSteps p.now s.now }

    // It ends as the machine does, and then no limit was met.
    ensures ok { IfOk result (λ end. outcome_view end
        ≡ outcome (program_view p.now) s.now.universe (schedule_view s.now).labels) }
    ensures unlimited { OnOk result (MeetsNone (program_view p.now) (empty_state s.now.universe) (schedule_view s.now).labels) }

    // Or a limit is met, and this is the first.
    ensures err { IfErr result (IsCause (program_view p.now) (empty_state s.now.universe) (schedule_view s.now).labels) }
{
    match State::empty(alloc, p, s.universe) {
        Ok(mut state) => run(alloc, p, &mut state, s.steps.as_slice()),
        Err(_) => Err(ReplayErr::Memory),
    }
}
