//! What the program tells of a text and of a schedule, over files and a sink in memory.

use crate::row::Row;
use repliss_cli::run;
use rp_io::{MemFiles, MemSink};
use rp_value::Memory;
use std::alloc::Global;

/// The words of a row that says none.
const WORDS: &str = "repliss verify p.rpl";

/// The same, where it says a schedule.
const REPLAY: &str = "repliss replay p.rpl p.schedule";

/// The name of the file that holds the text.
const FILE: &str = "p.rpl";

/// The name of the file that holds the schedule.
const SCHEDULE: &str = "p.schedule";

/// The room of a sink, where the row says none.
const ROOM: usize = 100_000;

/// The words of the command line.
fn words_of(alloc: Global, row: &Row) -> Result<Vec<String>, Memory> {
    let usual = if row.said("schedule").is_some() {
        REPLAY
    } else {
        WORDS
    };
    let mut words = Vec::new(alloc);
    for word in row.said("words").unwrap_or(usual).split(' ') {
        words.push(String::from_str(alloc, word)?)?;
    }
    Ok(words)
}

/// The files with the text and the schedule, if there is one, and the calls that fail.
fn files_of(alloc: Global, row: &Row, text: &[u8]) -> Result<MemFiles, Memory> {
    let mut files = Vec::new(alloc);
    files.push((String::from_str(alloc, FILE)?, text.to_vec(alloc)?))?;
    if let Some(schedule) = row.schedule(alloc)? {
        files.push((String::from_str(alloc, SCHEDULE)?, schedule))?;
    }
    Ok(MemFiles::new(files, row.numbers(alloc, "unread")?))
}

fn sink_of(alloc: Global, row: &Row) -> Result<MemSink, Memory> {
    MemSink::with_room(
        alloc,
        row.number("room").unwrap_or(ROOM),
        row.numbers(alloc, "unwritten")?,
    )
}

/// Whether the command ends with the status and puts the lines that the row wants, if it wants any.
pub fn has_report(alloc: Global, row: &Row, text: &[u8]) -> Result<bool, Memory> {
    let Some(status) = row.number("status") else {
        return Ok(true);
    };
    let mut files = files_of(alloc, row, text)?;
    let mut out = sink_of(alloc, row)?;
    let ended = run(alloc, &words_of(alloc, row)?, &mut files, &mut out);
    Ok(ended.number() as usize == status && out.bytes() == row.lines(alloc, "output")?.as_slice())
}
