//! The text of a row.

use rp_value::Memory;
use std::alloc::Global;

/// The first line.
pub fn name_of(part: &str) -> &str {
    part.lines().next().unwrap_or("")
}

/// Adds a line in which `%` is this number and `$` the one before.
fn add_line(alloc: Global, text: &mut Vec<u8>, line: &str, number: u64) -> Result<(), Memory> {
    let before = number.saturating_sub(1);
    let own = format!(in alloc; "{number}")?;
    let before = format!(in alloc; "{before}")?;
    for byte in line.as_bytes() {
        match *byte {
            b'%' => text.extend_from_slice(own.as_bytes())?,
            b'$' => text.extend_from_slice(before.as_bytes())?,
            other => text.push(other)?,
        }
    }
    text.push(b'\n')?;
    Ok(())
}

/// The first and the last number of a line that comes several times.
fn range_of(head: &str) -> (u64, u64) {
    match head.trim().split_once("..") {
        Some((first, last)) => (first.parse().unwrap_or(0), last.parse().unwrap_or(0)),
        None => (0, 0),
    }
}

/// Adds what a line of the row adds to its text.
fn add_lines(alloc: Global, text: &mut Vec<u8>, line: &str) -> Result<(), Memory> {
    if line.starts_with("> ") || line.starts_with('#') {
        return Ok(());
    }
    if let Some((head, rest)) = line.split_once("| ") {
        let (first, last) = range_of(head);
        for number in first..=last {
            add_line(alloc, text, rest, number)?;
        }
    }
    Ok(())
}

/// The lines of its text, each ended by a newline.
pub fn text_of(alloc: Global, part: &str) -> Result<Vec<u8>, Memory> {
    let mut text = Vec::new(alloc);
    for line in part.lines().skip(1) {
        add_lines(alloc, &mut text, line)?;
    }
    Ok(text)
}
