// The lines of reports.
ghost use Rattle.std.specs.Prelude.{◌≡◌, ◌++◌, codes, decimal, IfOk};
ghost use Rattle.rp_lang.specs.ProgramView.{program_view};
ghost use Rattle.replay_reports.specs.Replayed as spec;

use crate::report::Replayed;
use ending_lines::{ending_line, limit_line};
use rp_lang::{LimitName, Program};
use rp_span::Text;
use rp_value::Memory;
use std::alloc::Global;

fn faulty_line(alloc: Global, n: u32) -> Result<Vec<u8>, Memory>
    ensures { IfOk result (λ line. line.items ≡ spec.faulty_line n) }
{
    Ok(format!(in alloc; "refused: schedule line {n}\n")?.into_bytes())
}

fn passed_line(alloc: Global, which: LimitName) -> Result<Vec<u8>, Memory>
    ensures { IfOk result (λ line. line.items ≡ spec.passed_line which) }
{
    let name = which.name();
    let number = which.number();
    Ok(format!(in alloc; "refused: limit {name} {number}\n")?.into_bytes())
}

/// The line of a report. The text is that of the program.
pub fn line_of(
    alloc: Global,
    text: &Text,
    p: &Program,
    report: &Replayed,
) -> Result<Vec<u8>, Memory>
    ensures { IfOk result (λ line. line.items ≡ spec.report_line text.now (program_view p.now) report.now) }
{
    match report {
        Replayed::Ended(end) => ending_line(alloc, text, p, end),
        Replayed::FaultyLine(n) => faulty_line(alloc, *n),
        Replayed::Limit(which) => passed_line(alloc, *which),
        Replayed::StepLimit { which, step } => limit_line(alloc, *which, *step),
    }
}
