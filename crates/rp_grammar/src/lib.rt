//! The grammar of the language, apart from any code that reads it: which tokens some bytes have,
//! and which tree some tokens have. What the definitions say stands in `specs/`.
#![tactic(auto)]

pub mod laws;
pub mod operator;
mod spelling;
pub mod terminal;

pub use operator::{CallWord, CompareOp};
use rp_span::Span;
pub use spelling::{symbol_text, word_text};
pub use terminal::{Symbol, Word};

/// What a token is.
#[derive(Clone, Copy, PartialEq, Eq)]
pub enum TokenKind {
    Name,
    /// A reserved word.
    Word,
    Int,
    Str,
    Symbol,
    /// The end of the text, behind its last token.
    End,
}

/// A token and where it stands.
#[derive(Clone, Copy, PartialEq, Eq)]
pub struct Token {
    pub kind: TokenKind,
    pub span: Span,
}

/// Why a text has no tokens.
#[derive(Clone, Copy, Debug, PartialEq, Eq)]
pub enum LexFault {
    /// No token begins with this byte, or it may not stand in a string.
    BadByte,
    /// A string that begins here has no end on its line.
    OpenString,
    /// A number that begins here is greater than any that a program may write.
    NumberRange,
}

/// What stands at the front of some bytes, with its length; of a fault, how far on it stands.
#[derive(Clone, Copy, PartialEq, Eq)]
pub enum Piece {
    /// There are no bytes left.
    Ended,
    /// A blank or a comment.
    Gap(usize),
    Token(TokenKind, usize),
    Fault(usize, LexFault),
}
