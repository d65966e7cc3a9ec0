//! The top call.

ghost use Rattle.std.specs.Prelude.{◌≡◌, ◌≢◌, ◌<◌, ◌⊎◌, ℕ, List, IfOk, IfSome, IsErrOf, OnOk, length};
ghost use Rattle.std.specs.declared.option.Option.TheVariants.{Some};
ghost use Rattle.rp_io.specs.Counts.{Rose};
ghost use Rattle.rp_io.specs.Files.{content_of};
ghost use Rattle.rp_io.specs.Sinks.{Puts, PutsPrefix};
ghost use Rattle.repliss_cli.specs.declared.report.Report.{Report};
ghost use Rattle.repliss_cli.specs.Words.{Replay, asked};
ghost use Rattle.repliss_cli.specs.Texts.{report_text, status_of};
ghost use Rattle.repliss_cli.specs.Replays.{IsOutcome};
ghost use Rattle.repliss_cli.specs.Answers.{AreTold, HasCause, IsAnswer, IsCut, IsCutShort, ReadsUnsound, Tells};

use crate::laws::words_have_one_report;
use crate::report::{Report, Status, lines};
use crate::sources::{Stop, report_on_text};
use crate::words::command_of;
use rp_io::{Failed, Files, ReadErr, Sink, put_lines, read_all};
use rp_lang::LimitName;
use std::alloc::Global;

/// The greatest length of a program's text.
const PROGRAM_BYTES: u32 = 262_144;

#[tactic(auto, using(crate::proofs::Putting::whole_prefix, crate::proofs::Putting::no_room_for))]
/// Puts the lines of a report. On `WriteFault` and `NoMemory` a prefix of them was put.
fn put_report<K: Sink>(alloc: Global, out: &mut K, report: &Report) -> Status
    ensures whole { result ≢ Status.WriteFault → result ≢ Status.NoMemory
        → (result ≡ status_of report.now)
        × Puts (K.told out.old) (K.told out.new) (report_text report.now) }
    ensures prefix { PutsPrefix (K.told out.old) (K.told out.new) (report_text report.now) }
    ensures write_fault { result ≡ Status.WriteFault → Rose (K.faults out.old) (K.faults out.new) }
    ensures no_room { result ≡ Status.WriteFault
        → IfSome (K.room out.old) (λ n. n < length (report_text report.now)) }
    ensures no_read_fault { result ≢ Status.ReadFault }
    ensures no_memory { result ≡ Status.NoMemory → K.faults out.new ≡ K.faults out.old }
{
    let Ok(lines) = lines(alloc, report) else {
        return Status::NoMemory;
    };
    match put_lines(out, &lines) {
        Ok(()) => report.status(),
        Err(Failed) => Status::WriteFault,
    }
}

/// The report that the words ask for.
fn report_for<F: Files>(alloc: Global, words: &[String], files: &mut F) -> Result<Report, Stop>
    ensures cause { IfOk result (HasCause words.now (F.told files.old)) }
    ensures no_fault { OnOk result (F.faults files.new ≡ F.faults files.old) }
    ensures no_memory { IsErrOf result Stop.NoMemory → F.faults files.new ≡ F.faults files.old }
    ensures unread { IsErrOf result Stop.Unread → Rose (F.faults files.old) (F.faults files.new) }
    ensures unsound { IsErrOf result Stop.Unread
        → ReadsUnsound (asked words.now) (F.told files.old) (F.sound files.old) }
{
    let Some(command) = command_of(words) else {
        return Ok(Report::Usage);
    };
    match read_all(alloc, files, command.program(), PROGRAM_BYTES) {
        Ok(content) => report_on_text(alloc, files, content, command),
        Err(ReadErr::TooLong) => Ok(Report::Limit(LimitName::ProgramBytes)),
        Err(ReadErr::Failed) => Err(Stop::Unread),
        Err(ReadErr::Memory) => Err(Stop::NoMemory),
    }
}

/// What the program does with its words: `verify FILE` tells whether the file's program is safe, and
/// `replay FILE SCHEDULE` how the machine ends on the second file's schedule.
pub fn run<F: Files, K: Sink>(alloc: Global, words: &[String], files: &mut F, out: &mut K) -> Status
    // Verified is told only of a program that is safe in every run of the machine, and clean only of a
    // schedule on which the machine ends so.
    ensures fine { result ≡ Status.Fine
        → IsAnswer words.now (F.told files.old) result (K.told out.old) (K.told out.new) }
    ensures found { result ≡ Status.Found
        → IsAnswer words.now (F.told files.old) result (K.told out.old) (K.told out.new) }
    ensures refused { result ≡ Status.Refused
        → IsAnswer words.now (F.told files.old) result (K.told out.old) (K.told out.new) }

    // Where the file's content is told, its one report comes, unless a file or the sink fails or memory runs out.
    ensures exact { (report : Report) → AreTold words.now (F.told files.old)
        → HasCause words.now (F.told files.old) report
        → Tells report result (K.told out.old) (K.told out.new) }

    // Where the files tell both contents, a replay that is fine or found is how the machine ends.
    ensures replayed { (file schedule content bytes : List ℕ)
        → asked words.now ≡ Some (Replay file schedule)
        → content_of (F.told files.old) file ≡ Some content
        → content_of (F.told files.old) schedule ≡ Some bytes
        → (result ≡ Status.Fine) ⊎ (result ≡ Status.Found)
        → IsOutcome content bytes result (K.told out.old) (K.told out.new) }

    // A read fault is one of a file that the words name. The program is judged before the schedule is read.
    ensures read_fault { result ≡ Status.ReadFault
        → Rose (F.faults files.old) (F.faults files.new) }
    ensures read_fault_of_file { result ≡ Status.ReadFault
        → ReadsUnsound (asked words.now) (F.told files.old) (F.sound files.old) }
    ensures read_fault_puts_nothing { result ≡ Status.ReadFault → K.told out.new ≡ K.told out.old }

    ensures write_fault { result ≡ Status.WriteFault → Rose (K.faults out.old) (K.faults out.new) }
    ensures write_fault_cut { result ≡ Status.WriteFault
        → IsCutShort words.now (F.told files.old) (K.room out.old) (K.told out.old) (K.told out.new) }
    ensures no_memory_cut { result ≡ Status.NoMemory
        → IsCut words.now (F.told files.old) (K.told out.old) (K.told out.new) }

    // Want of memory is never told in place of a fault.
    ensures no_memory_no_read_fault { result ≡ Status.NoMemory → F.faults files.new ≡ F.faults files.old }
    ensures no_memory_no_write_fault { result ≡ Status.NoMemory → K.faults out.new ≡ K.faults out.old }
{
    // one report's cause stands, whatever is asked
    words_have_one_report();
    match report_for(alloc, words, files) {
        Ok(report) => put_report(alloc, out, &report),
        Err(Stop::Unread) => Status::ReadFault,
        Err(Stop::NoMemory) => Status::NoMemory,
    }
}
