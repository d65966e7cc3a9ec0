//! Rows on whole texts, on third lines, and on all fronts of a text.
ghost use Rattle.std.specs.Prelude.{◌≤◌, length};

use crate::spelled::{line_text, text_of};
use rp_lang::Program;
use rp_value::{List, Memory};
use schedule_fmt::{Schedule, ScheduleErr, read, write};
use std::alloc::Global;

/// What is read of a text.
#[derive(Clone, Copy)]
enum Answer {
    /// So many steps, which are written as they were read.
    Steps(u64),
    /// Steps that are written otherwise.
    Otherwise,
    Line(u32),
    Limit(&'static str),
    /// More bytes than are asked for.
    Long,
}

/// The schedule, of copies of its steps.
fn copied(alloc: Global, s: &Schedule) -> Result<Schedule, Memory> {
    let mut steps = List::new(alloc);
    for step in s.steps.as_slice() {
        steps.push(step.copy(alloc)?)?;
    }
    Ok(Schedule {
        universe: s.universe,
        steps,
    })
}

/// What `read` answers, and whether `write` gives the text again, of a copy.
fn answered(alloc: Global, p: &Program, bytes: &[u8]) -> Result<Answer, Memory> {
    if bytes.len() > 4_194_304 {
        return Ok(Answer::Long);
    }
    match read(alloc, bytes, p) {
        Ok(s) => {
            let again = write(alloc, &copied(alloc, &s)?, p)?;
            if again.as_slice() == bytes {
                Ok(Answer::Steps(s.steps.len() as u64))
            } else {
                Ok(Answer::Otherwise)
            }
        }
        Err(ScheduleErr::Line(n)) => Ok(Answer::Line(n)),
        Err(ScheduleErr::Limit(which)) => Ok(Answer::Limit(which.name())),
        Err(ScheduleErr::Memory) => Err(Memory),
    }
}

fn show(answer: &Answer, out: &mut String) -> Result<(), Memory> {
    match answer {
        Answer::Steps(n) => write!(out, "{n} steps")?,
        Answer::Otherwise => out.push_str("written otherwise")?,
        Answer::Line(n) => write!(out, "line {n}")?,
        Answer::Limit(name) => write!(out, "limit {name}")?,
        Answer::Long => out.push_str("too long")?,
    }
    Ok(())
}

/// `TEXT`: how many steps, or the faulty line, or the limit.
pub(crate) fn whole(
    alloc: Global,
    p: &Program,
    given: &str,
    out: &mut String,
) -> Result<(), Memory> {
    let text = text_of(alloc, given)?;
    show(&answered(alloc, p, text.as_slice())?, out)
}

/// `LINE`: whether it is `taken` as a step, or `faulty`.
pub(crate) fn line(
    alloc: Global,
    p: &Program,
    given: &str,
    out: &mut String,
) -> Result<(), Memory> {
    let text = line_text(alloc, given)?;
    match answered(alloc, p, text.as_slice())? {
        Answer::Steps(1) => out.push_str("taken")?,
        Answer::Line(3) => out.push_str("faulty")?,
        other => show(&other, out)?,
    }
    Ok(())
}

/// Whether the front of a text of steps has the answer that it is to have: it is read where it ends with a newline and has
/// two or more, and else its last line is named.
fn is_front(answer: &Answer, front: &[u8], newlines: u32) -> bool {
    match answer {
        Answer::Steps(n) => front.last() == Some(&b'\n')
            && *n == u64::from(newlines.saturating_sub(2))
            && newlines >= 2,
        Answer::Line(n) => *n == newlines.saturating_add(1)
            && (front.last() != Some(&b'\n') || newlines < 2),
        _ => false,
    }
}

/// `TEXT`: whether all its fronts have the answers that they are to have, or the length of the first that hasn't.
pub(crate) fn fronts(
    alloc: Global,
    p: &Program,
    given: &str,
    out: &mut String,
) -> Result<(), Memory> {
    let text = text_of(alloc, given)?;
    let bytes = text.as_slice();
    let mut newlines: u32 = 0;
    for k in 0..=bytes.len() {
        let front = &bytes[..k];
        if front.last() == Some(&b'\n') {
            newlines = newlines.saturating_add(1);
        }
        let found = answered(alloc, p, front)?;
        if !is_front(&found, front, newlines) {
            write!(out, "not {k}")?;
            return Ok(());
        }
    }
    out.push_str("all")?;
    Ok(())
}
