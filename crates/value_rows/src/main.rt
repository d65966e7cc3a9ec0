//! Runs the rows of a file of cases on places, values, files and sinks. It prints the name of each row that differs, and
//! counts those that are met. A row is a line `NAME: KIND GIVEN = ANSWER`; what is given and answered goes by its kind.
#![tactic(auto)]

mod files;
mod sinks;
mod values;
mod words;

use rp_value::Memory;
use std::alloc::Global;
use std::{fs, io};

/// Appends what a row gives. A row of no kind gives nothing.
fn answer(alloc: Global, kind: &str, given: &str, out: &mut String) -> Result<(), Memory> {
    match kind {
        "place" => values::place(alloc, given, out),
        "same" => values::same(alloc, given, out),
        "list" => values::list(alloc, given, out),
        "bytes" => values::bytes(alloc, given, out),
        "box" => values::boxed(alloc, given, out),
        "files" => files::answers(alloc, given, out),
        "put" => sinks::answers(alloc, given, false, out),
        "lines" => sinks::answers(alloc, given, true, out),
        _ => Ok(()),
    }
}

/// Whether the row gives its answer. A line of another form than a row's doesn't.
fn is_met(alloc: Global, row: &str) -> Result<bool, Memory> {
    let (asked, wanted) = row.split_once(" = ").unwrap_or((row, "an answer"));
    let (kind, given) = asked.split_once(' ').unwrap_or((asked, ""));
    let mut out = String::new(alloc);
    answer(alloc, kind, given, &mut out)?;
    Ok(out.as_str() == wanted)
}

/// 1 where the row is met. Else its name is printed.
fn tell(rt: &HostRuntime, name: &str, row: &str) -> io::Result<u64> {
    match is_met(rt.alloc(), row) {
        Ok(true) => Ok(1),
        Ok(false) => {
            println!(rt; "differs: {name}")?;
            Ok(0)
        }
        Err(Memory) => Err(io::Error::from(io::ErrorKind::OutOfMemory)),
    }
}

/// How many rows of the text are met, and how many there are.
fn tell_all(rt: &HostRuntime, text: &str) -> io::Result<(u64, u64)> {
    let mut all: u64 = 0;
    let mut met: u64 = 0;
    for line in text.split('\n') {
        if let Some((name, row)) = line.split_once(": ") {
            all = all.saturating_add(1);
            met = met.saturating_add(tell(rt, name, row)?);
        }
    }
    Ok((met, all))
}

fn main(rt: HostRuntime) -> io::Result<()> {
    let text = fs::read_to_string(&rt, "cases")?;
    let (met, all) = tell_all(&rt, &text)?;
    println!(rt; "{met} of {all} rows are met")
}
