//! Rows on how schedules end: a program, and schedules of it with what is told of each.
ghost use Rattle.std.specs.Prelude.{◌≤◌, length};

use crate::spelled::text_of;
use replay_reports::{line_of, replay_text};
use row_programs::{Tally, lines_behind, program_of};
use rp_lang::Program;
use rp_span::Text;
use rp_value::Memory;
use std::alloc::Global;

/// The greatest length of a text.
const MOST_BYTES: usize = 4_194_304;

/// The text of a case's schedule: the first line, and the case's lines behind two blanks.
fn schedule_of(alloc: Global, case: &str) -> Result<Vec<u8>, Memory> {
    let lines = String::from_utf8(lines_behind(alloc, case, "  ")?).map_err(|_| Memory)?;
    let mut text = b"repliss-schedule 1\n".as_slice().to_vec(alloc)?;
    text.extend_from_slice(text_of(alloc, lines.as_str())?.as_slice())?;
    Ok(text)
}

/// The line that tells of a schedule's text.
fn told_of(alloc: Global, source: &Text, p: &Program, bytes: &[u8]) -> Result<Vec<u8>, Memory>
    requires { length bytes.now ≤ 4194304 }
{
    let report = replay_text(alloc, p, bytes)?;
    line_of(alloc, source, p, &report)
}

/// What is told of a case of the program with this text.
fn told_of_case(alloc: Global, source: &Text, p: &Program, case: &str) -> Result<Vec<u8>, Memory> {
    let schedule = schedule_of(alloc, case)?;
    if schedule.len() > MOST_BYTES {
        return Ok(Vec::new(alloc));
    }
    told_of(alloc, source, p, schedule.as_slice())
}

/// Tells a case, its name in the first line.
fn tell_case(
    alloc: Global,
    source: &Text,
    p: &Program,
    case: &str,
    tally: &mut Tally,
) -> Result<(), Memory> {
    let name = case.lines().next().unwrap_or("");
    let found = told_of_case(alloc, source, p, case)?;
    let is_met = found == lines_behind(alloc, case, "> ")?;
    let found = String::from_utf8(found).map_err(|_| Memory)?;
    tally.count(name, is_met, found.as_str())?;
    Ok(())
}

fn tell_cases(
    alloc: Global,
    source: &Text,
    p: &Program,
    cases: &str,
    tally: &mut Tally,
) -> Result<(), Memory> {
    for case in cases.split("\ncase ").skip(1) {
        tell_case(alloc, source, p, case, tally)?;
    }
    Ok(())
}

/// Tells a program's cases. A text that is no program counts as a row that differs.
fn tell_program(alloc: Global, part: &str, tally: &mut Tally) -> Result<(), Memory> {
    let bytes = lines_behind(alloc, part, "| ")?;
    if bytes.len() > MOST_BYTES {
        return Ok(());
    }
    let source = Text::new(bytes);
    match program_of(alloc, source.bytes()) {
        Some(p) => {
            let told = tell_cases(alloc, &source, &p, part, tally);
            p.let_go();
            told
        }
        None => Ok(tally.count("a program", false, part)?),
    }
}

/// Tells the programs of a file and their cases.
pub(crate) fn tell(alloc: Global, text: &str, tally: &mut Tally) -> Result<(), Memory> {
    for part in text.split("\nprogram ").skip(1) {
        tell_program(alloc, part, tally)?;
    }
    Ok(())
}
