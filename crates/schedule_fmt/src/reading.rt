//! Whole schedules.
ghost use Rattle.std.specs.Prelude.{◌≡◌, ◌≤◌, ℕ, [], length, drop, Ok, Err, IfOk};
ghost use Rattle.std.specs.Str.{bytes_eq};
ghost use Rattle.rp_lang.specs.ProgramView.{program_view};
ghost use Rattle.schedule_fmt.specs.means.Reading as spec;
ghost use Rattle.schedule_fmt.specs.Answers as answer;
ghost use Rattle.schedule_fmt.specs.means.Computed.{IsFound, AreFound, IsStep};
ghost use Rattle.schedule_fmt.specs.Schedules.{IsText, IsFaulty};
ghost use Rattle.schedule_fmt.specs.Texts.{Sched};
ghost use Rattle.schedule_fmt.specs.Views.{schedule_view};

use crate::bytes::{ends, newline, word};
use crate::numbers::short_number;
use crate::reader::Reader;
use crate::schedule::{Schedule, ScheduleErr, ValueAt};
use crate::stop::Stop;
use program_names::Names;
use rp_lang::{LimitName, Program, Step};
use rp_value::{List, Memory, Ty};
use std::alloc::Global;

/// The universe that the line tells.
#[tactic(auto, unfolding(crate::specs::means::Reading::universe))]
fn universe(text: &[u8]) -> Option<u32>
    ensures { result ≡ spec.universe text.now }
{
    let at = word(b"universe ", text, 0)?;
    let (universe, to) = short_number(text, at)?;
    if ends(text, to) { Some(universe) } else { None }
}

/// The step that the line of this number is.
fn step_of(alloc: Global, names: &Names, text: &[u8], line: u32) -> Result<Step, ScheduleErr>
    ensures { IsStep (spec.label (program_view names.now.program.now) text.now) line result }
{
    let reader = Reader { alloc, names, text };
    match reader.step() {
        Ok(step) => Ok(step),
        Err(Stop::Absent) => Err(ScheduleErr::Line(line)),
        Err(Stop::Memory) => Err(ScheduleErr::Memory),
    }
}

/// The steps of the lines from the place on, of which the first is line 3.
fn steps(alloc: Global, names: &Names, text: &[u8], from: usize) -> Result<List<Step>, ScheduleErr>
    requires within { from ≤ length text.now }
    requires short { length text.now ≤ 4194304 }
    ensures { AreFound (spec.labels_from (program_view names.now.program.now) [] (drop from text.now) 3) result }
{
    let mut steps = List::new(alloc);
    let mut line: u32 = 3;
    let mut at = from;
    while at < text.len() {
        let Some(end) = newline(text, at) else {
            return Err(ScheduleErr::Line(line));
        };
        match step_of(alloc, names, &text[at..end], line) {
            Ok(step) => steps.push(step)?,
            Err(e) => return Err(e),
        }
        line += 1;
        at = end + 1;
    }
    Ok(steps)
}

/// Whether it is the first line of a schedule.
fn is_header(line: &[u8]) -> bool
    ensures { result ≡ bytes_eq spec.header line.now }
{
    b"repliss-schedule 1".as_slice() == line
}

/// The schedule whose universe stands in the line from the place on.
fn behind_header(
    alloc: Global,
    names: &Names,
    text: &[u8],
    from: usize,
) -> Result<Schedule, ScheduleErr>
    requires within { from ≤ length text.now }
    requires short { length text.now ≤ 4194304 }
    ensures { IsFound (spec.universe_behind (program_view names.now.program.now) (spec.cut_line [] (drop from text.now))) result }
{
    let Some(end) = newline(text, from) else {
        return Err(ScheduleErr::Line(2));
    };
    let Some(universe) = universe(&text[from..end]) else {
        return Err(ScheduleErr::Line(2));
    };
    match steps(alloc, names, text, end + 1) {
        Ok(steps) => Ok(Schedule { universe, steps }),
        Err(e) => Err(e),
    }
}

/// The schedule of a text, whatever its limits.
fn schedule(alloc: Global, text: &[u8], names: &Names) -> Result<Schedule, ScheduleErr>
    requires short { length text.now ≤ 4194304 }
    ensures { IsFound (spec.schedule (program_view names.now.program.now) text.now) result }
{
    let Some(end) = newline(text, 0) else {
        return Err(ScheduleErr::Line(1));
    };
    if !is_header(&text[0..end]) {
        return Err(ScheduleErr::Line(1));
    }
    behind_header(alloc, names, text, end + 1)
}

/// The limit that a schedule passes, of two the universe.
fn passed(s: &Schedule) -> Option<LimitName>
    ensures { result ≡ answer.passed (schedule_view s.now) }
{
    let universe = u64::from(s.universe);
    if universe == 0 || universe > LimitName::Universe.number() {
        return Some(LimitName::Universe);
    }
    if s.steps.len() as u64 > LimitName::Steps.number() {
        return Some(LimitName::Steps);
    }
    None
}

/// The schedule of a text, within its limits.
fn read_within(alloc: Global, bytes: &[u8], names: &Names) -> Result<Schedule, ScheduleErr>
    requires short { length bytes.now ≤ 4194304 }
    ensures { answer.IsAnswer (program_view names.now.program.now) bytes.now result }
{
    match schedule(alloc, bytes, names) {
        Ok(found) => match passed(&found) {
            Some(which) => Err(ScheduleErr::Limit(which)),
            None => Ok(found),
        },
        Err(e) => Err(e),
    }
}

fn read_with_names(alloc: Global, bytes: &[u8], p: &Program) -> Result<Schedule, ScheduleErr>
    requires short { length bytes.now ≤ 4194304 }
    ensures { answer.IsAnswer (program_view p.now) bytes.now result }
{
    let names = Names::new(alloc, p)?;
    read_within(alloc, bytes, &names)
}

/// The schedule of a text, or why there is none. It reads each byte at most a few times.
pub fn read(alloc: Global, bytes: &[u8], p: &Program) -> Result<Schedule, ScheduleErr>
    requires short { length bytes.now ≤ 4194304 }

    // What is answered is so.
    ensures answer { answer.IsAnswer (program_view p.now) bytes.now result }

    // What is so is answered, unless memory runs out.
    ensures every_text { (s : Sched) → IsText (program_view p.now) s bytes.now → answer.IsRead s result }
    ensures every_fault { (n : ℕ) → IsFaulty (program_view p.now) bytes.now n → answer.IsRefused n result }
{
    read_with_names(alloc, bytes, p)
}

/// The longest value at the place, with the place behind it.
fn longest_at(
    alloc: Global,
    names: &Names,
    ty: Ty,
    bytes: &[u8],
    from: u32,
) -> Result<Option<ValueAt>, Memory>
    requires short { length bytes.now ≤ 4194304 }
    requires within { from ≤ length bytes.now }
    ensures { IfOk result (answer.IsLongest (program_view names.now.program.now) ty bytes.now from) }
{
    let reader = Reader {
        alloc,
        names,
        text: bytes,
    };
    match reader.longest_value(Some(ty), from as usize) {
        Ok((value, to)) => Ok(Some(ValueAt {
            value,
            to: to.min(bytes.len()) as u32,
        })),
        Err(Stop::Absent) => Ok(None),
        Err(Stop::Memory) => Err(Memory),
    }
}

/// The value whose text at a place that asks the type begins at `from`, with the last place where such a text ends, or
/// none where no value's text begins there.
pub fn read_value(
    alloc: Global,
    p: &Program,
    ty: Ty,
    bytes: &[u8],
    from: u32,
) -> Result<Option<ValueAt>, Memory>
    requires short { length bytes.now ≤ 4194304 }
    requires within { from ≤ length bytes.now }
    ensures { IfOk result (answer.IsLongest (program_view p.now) ty bytes.now from) }
{
    let names = Names::new(alloc, p)?;
    longest_at(alloc, &names, ty, bytes, from)
}
