// What is told of the text of a schedule.
ghost use Rattle.std.specs.Prelude.{◌≤◌, IfOk, length};
ghost use Rattle.rp_lang.specs.ProgramView.{program_view};
ghost use Rattle.schedule_fmt.specs.Views.{schedule_view};
ghost use Rattle.replay.specs.Outcomes.{AreSteps};
ghost use Rattle.replay_reports.specs.Replayed.{IsReportOn, IsEndOf};

use replay::{Outcome, ReplayErr, read_schedules_fit, replay};
use rp_lang::{LimitName, Program};
use rp_value::Memory;
use schedule_fmt::{Schedule, ScheduleErr, read};
use std::alloc::Global;

/// What is told of the text of a schedule.
#[derive(Drop)]
pub enum Replayed {
    /// How it ends.
    Ended(Outcome),
    /// The first line, from 1, that can't stand there.
    FaultyLine(u32),
    /// The schedule passes the limit.
    Limit(LimitName),
    /// The first step, from 1, that meets a limit.
    StepLimit { which: LimitName, step: u32 },
}

/// How a schedule ends, or where it meets a limit.
fn end_of(alloc: Global, p: &Program, s: &Schedule) -> Result<Replayed, Memory>
    requires some { 1 ≤ s.now.universe }
    requires steps { AreSteps p.now s.now }
    ensures { IfOk result (IsEndOf (program_view p.now) (schedule_view s.now)) }
{
    match replay(alloc, p, s) {
        Ok(end) => Ok(Replayed::Ended(end)),
        Err(ReplayErr::Limit { which, step }) => Ok(Replayed::StepLimit { which, step }),
        Err(ReplayErr::Memory) => Err(Memory),
    }
}

/// Reads and runs the text of a schedule.
pub fn replay_text(alloc: Global, p: &Program, bytes: &[u8]) -> Result<Replayed, Memory>
    requires short { length bytes.now ≤ 4194304 }
    ensures { IfOk result (IsReportOn (program_view p.now) bytes.now) }
{
    // what is read meets what `replay` asks
    read_schedules_fit();
    match read(alloc, bytes, p) {
        Ok(schedule) => end_of(alloc, p, &schedule),
        Err(ScheduleErr::Line(n)) => Ok(Replayed::FaultyLine(n)),
        Err(ScheduleErr::Limit(which)) => Ok(Replayed::Limit(which)),
        Err(ScheduleErr::Memory) => Err(Memory),
    }
}
