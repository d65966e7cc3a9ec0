//! The report on the content of files.

ghost use Rattle.std.specs.Prelude.{◌≡◌, ◌≤◌, Contains, IfOk, IsErrOf, OnOk, length};
ghost use Rattle.rp_lang.specs.ProgramView.{program_view};
ghost use Rattle.rp_io.specs.Counts.{Rose};
ghost use Rattle.rp_io.specs.Files.{content_of};
ghost use Rattle.repliss_cli.specs.ProgramText.{IsProgramText, IsSomeProgram};
ghost use Rattle.repliss_cli.specs.Replays.{IsReplayOf};
ghost use Rattle.repliss_cli.specs.Answers.{IsReportFrom, OnContent};
ghost use Rattle.repliss_cli.specs.means.Commands.{IsUnsoundSchedule, command_view};

use crate::judge::verdict;
use crate::replays::replay_bytes;
use crate::report::Report;
use crate::texts::{TextErr, program_of};
use crate::words::Command;
use rp_io::{Files, ReadErr, read_all};
use rp_lang::{LimitName, Program};
use rp_span::Text;
use rp_value::Memory;
use std::alloc::Global;

/// The greatest length of a schedule's text.
const SCHEDULE_BYTES: u32 = 4_194_304;

/// Why there is no report.
#[derive(Clone, Copy)]
pub enum Stop {
    Unread,
    NoMemory,
}

/// The report on the replay of the named schedule on the text's program.
fn replay_file<F: Files>(
    alloc: Global,
    files: &mut F,
    text: &Text,
    program: &Program,
    schedule: &str,
) -> Result<Report, Stop>
    requires text { IsProgramText text.now (program_view program.now) }
    ensures cause { IfOk result (λ report. OnContent (content_of (F.told files.old) schedule.now)
        (λ bytes. IsReplayOf text.now bytes report)) }
    ensures no_fault { OnOk result (F.faults files.new ≡ F.faults files.old) }
    ensures no_memory { IsErrOf result Stop.NoMemory → F.faults files.new ≡ F.faults files.old }
    ensures unread { IsErrOf result Stop.Unread → Rose (F.faults files.old) (F.faults files.new) }
    ensures unsound { IsErrOf result Stop.Unread → Contains (F.sound files.old) schedule.now → ⊥ }
{
    match read_all(alloc, files, schedule, SCHEDULE_BYTES) {
        Ok(bytes) => match replay_bytes(alloc, text, program, &bytes) {
            Ok(report) => Ok(report),
            Err(Memory) => Err(Stop::NoMemory),
        },
        Err(ReadErr::TooLong) => Ok(Report::Limit(LimitName::ScheduleBytes)),
        Err(ReadErr::Failed) => Err(Stop::Unread),
        Err(ReadErr::Memory) => Err(Stop::NoMemory),
    }
}

/// The report on what is asked of the text's program.
fn report_on_program<F: Files>(
    alloc: Global,
    files: &mut F,
    text: &Text,
    program: &Program,
    command: Command,
) -> Result<Report, Stop>
    requires text { IsProgramText text.now (program_view program.now) }
    ensures cause { IfOk result
        (IsReportFrom text.now (F.told files.old) (command_view command.entry)) }
    ensures no_fault { OnOk result (F.faults files.new ≡ F.faults files.old) }
    ensures no_memory { IsErrOf result Stop.NoMemory → F.faults files.new ≡ F.faults files.old }
    ensures unread { IsErrOf result Stop.Unread → Rose (F.faults files.old) (F.faults files.new) }
    ensures unsound { IsErrOf result Stop.Unread
        → IsUnsoundSchedule (command_view command.entry) (F.sound files.old) }
{
    match command {
        Command::Verify(_) => match verdict(alloc, text, program) {
            Ok(report) => Ok(report),
            Err(Memory) => Err(Stop::NoMemory),
        },
        Command::Replay(_, schedule) => replay_file(alloc, files, text, program, schedule),
    }
}

/// The report on what is asked of a text that isn't too long.
pub fn report_on_text<F: Files>(
    alloc: Global,
    files: &mut F,
    content: Vec<u8>,
    command: Command,
) -> Result<Report, Stop>
    requires short { length content.items ≤ 262144 }
    ensures cause { IfOk result
        (IsReportFrom content.items (F.told files.old) (command_view command.entry)) }
    ensures no_fault { OnOk result (F.faults files.new ≡ F.faults files.old) }
    ensures no_memory { IsErrOf result Stop.NoMemory → F.faults files.new ≡ F.faults files.old }
    ensures unread { IsErrOf result Stop.Unread → Rose (F.faults files.old) (F.faults files.new) }
    ensures unsound { IsErrOf result Stop.Unread
        → IsUnsoundSchedule (command_view command.entry) (F.sound files.old) }
    ensures behind_program { IsErrOf result Stop.Unread → IsSomeProgram content.items }
{
    let text = Text::new(content);
    match program_of(alloc, &text) {
        Ok(program) => {
            let report = report_on_program(alloc, files, &text, &program, command);
            program.let_go();
            report
        }
        Err(TextErr::Refused(report)) => Ok(report),
        Err(TextErr::Memory) => Err(Stop::NoMemory),
    }
}
