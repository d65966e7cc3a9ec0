//! The report on whether a program is safe.

ghost use Rattle.std.specs.Prelude.{◌≡◌, [], All, IfOk, map};
ghost use Rattle.std.specs.Option.{option_map_or};
ghost use Rattle.rp_span.specs.Places.{place_of};
ghost use Rattle.rp_lang.specs.FirstForm.{IsFirstForm};
ghost use Rattle.rp_lang.specs.ProgramView.{program_view};
ghost use Rattle.repliss_cli.specs.Answers.{IsReportOf, name_at};
ghost use Rattle.repliss_cli.specs.ProgramText.{IsProgramText};
ghost use Rattle.repliss_cli.specs.means.Lines.{line_for};

use crate::places::{marks_of, place_near};
use crate::report::{GoalLine, Report};
use event_machine::false_by_trying;
use first_form::is_first_form;
use rp_lang::Program;
use rp_span::{Pos, Text};
use rp_value::{List, Memory, copy_bytes, copy_list};
use rp_verify::{GoalErr, Unproved, Verdict, verify};
use std::alloc::Global;

/// The name of a procedure.
fn name_of(program: &Program, proc: Option<u32>) -> &[u8]
    ensures { result.now ≡ option_map_or (name_at (program_view program.now)) proc [] }
{
    match proc {
        Some(number) => match program.procs.as_slice().get(number as usize) {
            Some(decl) => decl.name.as_slice(),
            None => &[],
        },
        None => &[],
    }
}

/// The line of an unproved goal.
fn line_for(
    alloc: Global,
    text: &Text,
    marks: &[Pos],
    program: &Program,
    goal: &Unproved,
) -> Result<GoalLine, Memory>
    requires { All (λ mark. mark ≡ place_of text.now mark.byte) marks.now }
    ensures { IfOk result (λ line. line ≡ line_for text.now (program_view program.now) goal.now) }
{
    Ok(GoalLine {
        goal: goal.goal,
        proc: copy_bytes(alloc, name_of(program, goal.name.proc))?,
        path: copy_list(alloc, goal.name.path.as_slice())?,
        at: place_near(text, marks, goal.name.at.from),
    })
}

/// The lines of unproved goals.
fn lines_for(
    alloc: Global,
    text: &Text,
    program: &Program,
    goals: &[Unproved],
) -> Result<List<GoalLine>, Memory>
    ensures { IfOk result (λ lines. lines
        ≡ map (line_for text.now (program_view program.now)) goals.now) }
{
    let marks = marks_of(alloc, text)?;
    let mut lines = List::new(alloc);
    for goal in goals {
        lines.push(line_for(alloc, text, marks.as_slice(), program, goal)?)?;
    }
    Ok(lines)
}

/// The report on a text's program of the first form.
fn verdict_on_first(alloc: Global, text: &Text, program: &Program) -> Result<Report, Memory>
    requires text { IsProgramText text.now (program_view program.now) }
    requires first_form { IsFirstForm (program_view program.now) }
    ensures { IfOk result (IsReportOf text.now) }
{
    // what the goals' tests tell of goals
    false_by_trying();
    match verify(alloc, program) {
        Ok(Verdict::Verified { goals }) => Ok(Report::Verified { goals }),
        Ok(Verdict::Unproved { goals, list }) => Ok(Report::Unproved {
            goals,
            list: lines_for(alloc, text, program, list.as_slice())?,
        }),
        Err(GoalErr::Paths { .. }) => Ok(Report::NotYet),
        Err(GoalErr::Goals) => Ok(Report::NotYet),
        Err(GoalErr::Memory) => Err(Memory),
    }
}

/// The report on whether a text's program is safe.
pub fn verdict(alloc: Global, text: &Text, program: &Program) -> Result<Report, Memory>
    requires text { IsProgramText text.now (program_view program.now) }
    ensures { IfOk result (IsReportOf text.now) }
{
    if is_first_form(program) {
        verdict_on_first(alloc, text, program)
    } else {
        Ok(Report::NotYet)
    }
}
