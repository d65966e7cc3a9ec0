//! Rows on sinks over memory.

use crate::words::{bytes_of, failing, number, show, three};
use rp_io::{MemSink, Sink, SureSink, put_lines};
use rp_value::Memory;
use std::alloc::Global;

/// The bytes of each word of a line.
fn pieces_of(alloc: Global, words: &str) -> Result<Vec<Vec<u8>>, Memory> {
    let mut pieces = Vec::new(alloc);
    for word in words.split(' ') {
        pieces.push(bytes_of(alloc, word)?)?;
    }
    Ok(pieces)
}

/// Appends for each piece, or for all of them as lines, whether the sink took it.
fn put_all<K: Sink>(
    sink: &mut K,
    pieces: &[Vec<u8>],
    are_lines: bool,
    out: &mut String,
) -> Result<(), Memory> {
    if are_lines {
        let is_put = put_lines(sink, pieces).is_ok();
        write!(out, "{is_put};")?;
    } else {
        for piece in pieces {
            let is_put = sink.put(piece).is_ok();
            write!(out, "{is_put};")?;
        }
    }
    Ok(())
}

/// What is put into a sink that fails only where there is no room. Without a room it takes no memory.
fn put_sure(
    alloc: Global,
    room: Option<usize>,
    pieces: &[Vec<u8>],
    are_lines: bool,
    out: &mut String,
) -> Result<(), Memory> {
    let mut sink = match room {
        None => SureSink::new(alloc),
        Some(n) => SureSink::with_room(alloc, n)?,
    };
    put_all(&mut sink, pieces, are_lines, out)?;
    show(out, sink.bytes())
}

/// What is put into a sink of which some calls fail.
fn put_failing(
    alloc: Global,
    room: usize,
    calls_that_fail: &str,
    pieces: &[Vec<u8>],
    are_lines: bool,
    out: &mut String,
) -> Result<(), Memory> {
    let failing = failing(alloc, calls_that_fail)?;
    let mut sink = MemSink::with_room(alloc, room, failing)?;
    put_all(&mut sink, pieces, are_lines, out)?;
    show(out, sink.bytes())
}

/// `ROOM FAILING PIECES`, and then the bytes that were put. FAILING is `sure` for a sink that fails only where there is no
/// room, and `new` for one that takes no memory.
pub(crate) fn answers(
    alloc: Global,
    given: &str,
    are_lines: bool,
    out: &mut String,
) -> Result<(), Memory> {
    let (room, calls_that_fail, words) = three(given);
    let room = number(room) as usize;
    let pieces = pieces_of(alloc, words)?;
    match calls_that_fail {
        "new" => put_sure(alloc, None, &pieces, are_lines, out),
        "sure" => put_sure(alloc, Some(room), &pieces, are_lines, out),
        _ => put_failing(alloc, room, calls_that_fail, &pieces, are_lines, out),
    }
}
