//! Tokens with what they say.

use crate::fault::Fault;
use rp_grammar::{Symbol, Word};
use rp_span::Span;

/// What a token is, with what its bytes say.
#[derive(Clone, Copy)]
pub(crate) enum Kind<'a> {
    Name(&'a [u8]),
    Word(Word),
    Int(u64),
    /// The bytes between a string's quotes.
    Str(&'a [u8]),
    Symbol(Symbol),
    /// The end of the text.
    End,
}

/// A token and where it stands.
#[derive(Clone, Copy)]
pub(crate) struct Mark<'a> {
    pub(crate) kind: Kind<'a>,
    pub(crate) span: Span,
}

/// Tokens that are not read yet.
pub(crate) type Marks<'a> = &'a [Mark<'a>];

/// What is left behind what was read.
#[derive(Clone, Copy)]
pub(crate) enum Rest<'a> {
    /// The marks that are not read yet.
    Left(Marks<'a>),
    /// Nothing more is read.
    Failed(Fault),
}
