//! What the words of a row say.

use rp_value::Memory;
use std::alloc::Global;

/// A number, or 0 for a word that is none.
pub(crate) fn number(word: &str) -> u32 {
    word.parse::<u32>().unwrap_or(0)
}

/// The bytes that a word writes: `/` is a newline, and `*N` are N bytes `x`.
pub(crate) fn bytes_of(alloc: Global, word: &str) -> Result<Vec<u8>, Memory> {
    if let Some(count) = word.strip_prefix('*') {
        return Ok(vec![in alloc; b'x'; number(count) as usize]?);
    }
    let mut bytes = Vec::new(alloc);
    for byte in word.as_bytes() {
        bytes.push(if *byte == b'/' { b'\n' } else { *byte })?;
    }
    Ok(bytes)
}

/// Appends what bytes are, written as words write them. Of more than 100 it says how many.
pub(crate) fn show(out: &mut String, bytes: &[u8]) -> Result<(), Memory> {
    if bytes.len() > 100 {
        let count = bytes.len();
        write!(out, "*{count}")?;
        return Ok(());
    }
    for byte in bytes {
        out.push(if *byte == b'\n' {
            '/'
        } else {
            char::from(*byte)
        })?;
    }
    Ok(())
}

/// The numbers of the calls that fail: `none`, or numbers with commas between.
pub(crate) fn failing(alloc: Global, word: &str) -> Result<Vec<u64>, Memory> {
    let mut calls = Vec::new(alloc);
    for call in word.split(',') {
        if call != "none" {
            calls.push(u64::from(number(call)))?;
        }
    }
    Ok(calls)
}

/// Three words of one line.
pub(crate) fn three(given: &str) -> (&str, &str, &str) {
    let (first, rest) = given.split_once(' ').unwrap_or((given, ""));
    let (second, third) = rest.split_once(' ').unwrap_or((rest, ""));
    (first, second, third)
}
