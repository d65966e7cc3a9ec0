ghost use Rattle.std.specs.Prelude.{◌≡◌, ◌≤◌, ◌↔◌, IsTrue, [], length};
ghost use Rattle.rp_span.specs.Places.{place_of};

use crate::Pos;
use std::marker::Model;

/// The bytes of a text, at most 4,194,304 of them, so that each of its places fits a `u32`.
#[derive(Drop)]
pub struct Text {
    bytes: Vec<u8>,
}

impl Model for Text {
    ghost use Rattle.std.specs.Prelude.{ℕ, List, length, ◌≤◌};

    ghost Value = { List ℕ };

    ghost view = { λ text. text.bytes.items };

    ghost invariant = { λ text. length text.bytes.items ≤ 4194304 };
}

impl Text {
    pub fn new(bytes: Vec<u8>) -> Text
        requires few { length bytes.items ≤ 4194304 }
        ensures { result ≡ bytes.items }
    {
        Text { bytes }
    }

    pub fn bytes(&self) -> &[u8]
        ensures bytes { result.now ≡ self.now }
        ensures few { length self.now ≤ 4194304 }
    {
        self.bytes.as_slice()
    }

    pub fn len(&self) -> usize
        ensures length { result ≡ length self.now }
        ensures few { length self.now ≤ 4194304 }
    {
        self.bytes.len()
    }

    pub fn is_empty(&self) -> bool
        ensures { IsTrue result ↔ (self.now ≡ []) }
    {
        self.bytes.is_empty()
    }
}

/// The line, the column and the byte of a place.
pub fn line_of(text: &Text, at: u32) -> Pos
    requires within { at ≤ length text.now }
    ensures { result ≡ place_of text.now at }
{
    let before = &text.bytes()[..at as usize];
    let mut line: u32 = 1;
    let mut col: u32 = 1;
    for byte in before {
        if *byte == b'\n' {
            line += 1;
            col = 1;
        } else {
            col += 1;
        }
    }
    Pos {
        line,
        col,
        byte: at,
    }
}
