//! The lines and columns of a text's places. Those of many places are counted from marks that stand close to one
//! another, so that not each is counted from the start of the text.

ghost use Rattle.std.specs.Prelude.{◌≡◌, ◌≤◌, All, IfOk, length};
ghost use Rattle.rp_span.specs.Places.{place_of};

use rp_span::{Pos, Text, line_of};
use rp_value::{List, Memory};
use std::alloc::Global;

/// How many bytes lie between two marks.
const APART: u32 = 64;

/// The line and the column of a place, counted from an earlier one on.
fn further(text: &Text, from: &Pos, to: u32) -> Pos
    requires counted { from.now ≡ place_of text.now from.now.byte }
    requires ahead { from.now.byte ≤ to }
    requires within { to ≤ length text.now }
    ensures { result ≡ place_of text.now to }
{
    let bytes = text.bytes();
    let mut line = from.line;
    let mut col = from.col;
    for at in from.byte..to {
        if bytes[at as usize] == b'\n' {
            line += 1;
            col = 1;
        } else {
            col += 1;
        }
    }
    Pos {
        line,
        col,
        byte: to,
    }
}

/// Marks of the text, from its start to its end.
pub fn marks_of(alloc: Global, text: &Text) -> Result<List<Pos>, Memory>
    ensures { IfOk result (λ marks. All (λ mark. mark ≡ place_of text.now mark.byte) marks) }
{
    let end = text.len() as u32;
    let mut marks = List::new(alloc);
    let mut mark = line_of(text, 0);
    'marks: while end - mark.byte >= APART {
        marks.push(mark)?;
        mark = further(text, &mark, mark.byte + APART);
    }
    marks.push(mark)?;
    Ok(marks)
}

/// The line and the column of a place, counted from the start of the text.
pub fn place_in(text: &Text, at: u32) -> Pos
    ensures { result ≡ place_of text.now at }
{
    let within = at.min(text.len() as u32);
    let pos = line_of(text, within);
    Pos {
        line: pos.line,
        col: pos.col,
        byte: at,
    }
}

/// The line and the column of a place, counted from the mark before it.
pub fn place_near(text: &Text, marks: &[Pos], at: u32) -> Pos
    requires { All (λ mark. mark ≡ place_of text.now mark.byte) marks.now }
    ensures { result ≡ place_of text.now at }
{
    match marks.get((at / APART) as usize) {
        Some(mark) if mark.byte <= at && at as usize <= text.len() => further(text, mark, at),
        _ => place_in(text, at),
    }
}
