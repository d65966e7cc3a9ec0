//! How texts are written in rows.
use rp_value::Memory;
use std::alloc::Global;

/// The value of a hexadecimal digit.
fn digit(b: u8) -> u8 {
    match b {
        b'0'..=b'9' => b.wrapping_sub(b'0'),
        b'a'..=b'f' => b.wrapping_sub(b'a').wrapping_add(10),
        _ => 0,
    }
}

/// Bytes, of which `~` is a newline.
fn add_plain(out: &mut Vec<u8>, bytes: &[u8]) -> Result<(), Memory> {
    for b in bytes {
        out.push(if *b == b'~' { b'\n' } else { *b })?;
    }
    Ok(())
}

/// Bytes, of which the first two are digits of a byte.
fn add_byte(out: &mut Vec<u8>, bytes: &[u8]) -> Result<(), Memory> {
    if let [high, low, ..] = bytes {
        out.push(digit(*high).wrapping_mul(16).wrapping_add(digit(*low)))?;
    }
    if bytes.len() > 2 {
        add_plain(out, &bytes[2..])?;
    }
    Ok(())
}

/// A part: `~` is a newline, and `^` stands before two digits of a byte.
fn add(out: &mut Vec<u8>, part: &str) -> Result<(), Memory> {
    let mut is_first = true;
    for piece in part.split('^') {
        if is_first {
            add_plain(out, piece.as_bytes())?;
        } else {
            add_byte(out, piece.as_bytes())?;
        }
        is_first = false;
    }
    Ok(())
}

/// A part that stands so often.
fn add_often(out: &mut Vec<u8>, part: &[u8], often: u32) -> Result<(), Memory> {
    for _time in 0..often {
        out.extend_from_slice(part)?;
    }
    Ok(())
}

/// What stands behind a `{`: `N:PART}` and what follows.
fn add_repeated(alloc: Global, out: &mut Vec<u8>, piece: &str) -> Result<(), Memory> {
    let (often, rest) = piece.split_once(':').unwrap_or((piece, ""));
    let (part, behind) = rest.split_once('}').unwrap_or((rest, ""));
    let mut repeated = Vec::new(alloc);
    add(&mut repeated, part)?;
    add_often(out, repeated.as_slice(), often.parse::<u32>().unwrap_or(0))?;
    add(out, behind)
}

/// The text: `{N:PART}` is the part N times.
fn add_text(alloc: Global, out: &mut Vec<u8>, text: &str) -> Result<(), Memory> {
    let mut is_first = true;
    for piece in text.split('{') {
        if is_first {
            add(out, piece)?;
        } else {
            add_repeated(alloc, out, piece)?;
        }
        is_first = false;
    }
    Ok(())
}

/// The bytes of a text.
pub(crate) fn text_of(alloc: Global, text: &str) -> Result<Vec<u8>, Memory> {
    let mut out = Vec::new(alloc);
    add_text(alloc, &mut out, text)?;
    Ok(out)
}

/// The text of a schedule of one step.
pub(crate) fn line_text(alloc: Global, line: &str) -> Result<Vec<u8>, Memory> {
    let mut out = Vec::new(alloc);
    add(&mut out, "repliss-schedule 1~universe 1~")?;
    add_text(alloc, &mut out, line)?;
    out.push(b'\n')?;
    Ok(out)
}
