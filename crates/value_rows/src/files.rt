//! Rows on files in memory.

use crate::words::{bytes_of, failing, number, show, three};
use rp_io::{Files, MemFiles, ReadErr, SureFiles, read_all};
use rp_value::Memory;
use std::alloc::Global;

/// A file of a word, `NAME=BYTES`.
fn file_of(alloc: Global, word: &str) -> Result<(String, Vec<u8>), Memory> {
    let (name, bytes) = word.split_once('=').unwrap_or((word, ""));
    Ok((String::from_str(alloc, name)?, bytes_of(alloc, bytes)?))
}

/// The files of a word, with commas between.
fn files_of(alloc: Global, word: &str) -> Result<Vec<(String, Vec<u8>)>, Memory> {
    let mut files = Vec::new(alloc);
    for entry in word.split(',') {
        files.push(file_of(alloc, entry)?)?;
    }
    Ok(files)
}

/// Appends what one call gives of a file from a place on.
fn fetch<F: Files>(
    alloc: Global,
    files: &mut F,
    name: &str,
    place: &str,
    out: &mut String,
) -> Result<(), Memory> {
    let (from, room) = place.split_once('+').unwrap_or((place, ""));
    let mut buf = vec![in alloc; 0u8; number(room).max(1) as usize]?;
    match files.fetch(name, u64::from(number(from)), &mut buf) {
        Ok(n) => show(out, &buf[..n]),
        Err(_) => Ok(out.push_str("failed")?),
    }
}

/// Appends what reading a whole file gives.
fn read<F: Files>(
    alloc: Global,
    files: &mut F,
    name: &str,
    limit: &str,
    out: &mut String,
) -> Result<(), Memory> {
    match read_all(alloc, files, name, number(limit)) {
        Ok(bytes) => show(out, &bytes),
        Err(ReadErr::Failed) => Ok(out.push_str("failed")?),
        Err(ReadErr::TooLong) => Ok(out.push_str("long")?),
        Err(ReadErr::Memory) => Err(Memory),
    }
}

/// Appends what a call gives: `NAME:FROM+ROOM` fetches once, and `NAME<LIMIT` reads all.
fn ask<F: Files>(alloc: Global, files: &mut F, call: &str, out: &mut String) -> Result<(), Memory> {
    match call.split_once('<') {
        Some((name, limit)) => read(alloc, files, name, limit, out),
        None => {
            let (name, place) = call.split_once(':').unwrap_or((call, ""));
            fetch(alloc, files, name, place, out)
        }
    }
}

/// Appends what the calls give, one after another.
fn ask_all<F: Files>(
    alloc: Global,
    files: &mut F,
    calls: &str,
    out: &mut String,
) -> Result<(), Memory> {
    for call in calls.split(' ') {
        ask(alloc, files, call, out)?;
        out.push(';')?;
    }
    Ok(())
}

/// `FILES FAILING CALLS`, where FAILING is `sure` for files of which no call fails.
pub(crate) fn answers(alloc: Global, given: &str, out: &mut String) -> Result<(), Memory> {
    let (files, calls_that_fail, calls) = three(given);
    let files = files_of(alloc, files)?;
    if calls_that_fail == "sure" {
        ask_all(alloc, &mut SureFiles::new(files), calls, out)
    } else {
        let failing = failing(alloc, calls_that_fail)?;
        ask_all(alloc, &mut MemFiles::new(files, failing), calls, out)
    }
}
