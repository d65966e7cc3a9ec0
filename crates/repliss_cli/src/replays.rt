//! What is told of a schedule's bytes.

ghost use Rattle.std.specs.Prelude.{◌≡◌, ◌≤◌, IfOk, length};
ghost use Rattle.rp_lang.specs.ProgramView.{program_view};
ghost use Rattle.replay.specs.Outcomes.{outcome_view};
ghost use Rattle.replay_reports.specs.Replayed.{kind_of, kind_of_end};
ghost use Rattle.repliss_cli.specs.ProgramText.{IsProgramText};
ghost use Rattle.repliss_cli.specs.Replays.{IsReplayOf, ending_of, schedule_report};

use crate::report::{Ending, Report};
use replay::Outcome;
use replay_reports::{Replayed, line_of, replay_text};
use rp_lang::Program;
use rp_span::Text;
use rp_value::{Memory, copy_bytes};
use std::alloc::Global;

/// How a replay is answered that ends so.
fn ending_of_end(end: &Outcome) -> Ending
    ensures { result ≡ ending_of (kind_of_end (outcome_view end.now)) }
{
    match end {
        Outcome::Clean { .. } => Ending::Clean,
        Outcome::Violated { .. } => Ending::Violated,
        Outcome::Refused { .. } => Ending::Refused,
    }
}

/// How a replay is answered.
fn ending_of(replayed: &Replayed) -> Ending
    ensures { result ≡ ending_of (kind_of replayed.now) }
{
    match replayed {
        Replayed::Ended(end) => ending_of_end(end),
        Replayed::FaultyLine(_) => Ending::Refused,
        Replayed::Limit(_) => Ending::Refused,
        Replayed::StepLimit { .. } => Ending::Refused,
    }
}

/// The report on what was replayed.
fn report_on_replayed(
    alloc: Global,
    text: &Text,
    program: &Program,
    replayed: &Replayed,
) -> Result<Report, Memory>
    ensures { IfOk result (λ report. report
        ≡ schedule_report text.now (program_view program.now) replayed.now) }
{
    let line = line_of(alloc, text, program, replayed)?;
    Ok(Report::Schedule {
        ending: ending_of(replayed),
        line: copy_bytes(alloc, line.as_slice())?,
    })
}

/// The report on the replay of a schedule's bytes on the text's program.
pub fn replay_bytes(
    alloc: Global,
    text: &Text,
    program: &Program,
    bytes: &[u8],
) -> Result<Report, Memory>
    requires text { IsProgramText text.now (program_view program.now) }
    requires short { length bytes.now ≤ 4194304 }
    ensures { IfOk result (IsReplayOf text.now bytes.now) }
{
    match replay_text(alloc, program, bytes) {
        Ok(replayed) => report_on_replayed(alloc, text, program, &replayed),
        Err(Memory) => Err(Memory),
    }
}
