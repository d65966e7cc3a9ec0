//! Places in texts: bytes, lines and columns.
#![tactic(auto)]

mod text;

pub use text::{Text, line_of};

/// A place in a text for people to read: its line and its column, both from 1, and its byte, from 0.
#[derive(Clone, Copy, PartialEq, Eq)]
pub struct Pos {
    pub line: u32,
    pub col: u32,
    pub byte: u32,
}

/// The bytes of a text from the place `from` up to the place `to`, which is not among them.
#[derive(Clone, Copy, PartialEq, Eq)]
pub struct Span {
    pub from: u32,
    pub to: u32,
}
