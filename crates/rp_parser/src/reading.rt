//! The first pass: tokens with what their bytes say.

ghost use Rattle.std.specs.Prelude.{◌≡◌, ◌≤◌, ◌++◌, IfOk, List as Items, length};
ghost use Rattle.std.specs.List.{AllByRecursion};
ghost use Rattle.rp_grammar.specs.Bytes.{value, greatest};
ghost use Rattle.rp_grammar.specs.Pieces.{Shape};
ghost use Rattle.rp_grammar.specs.Toks.{slice, IsTerminal, ToksOf};
ghost use Rattle.rp_parser.specs.means.Marks.{terminal_of, toks, IsReadable};

use crate::mark::{Kind, Mark};
use rp_grammar::{Token, TokenKind};
use rp_lexer::{symbol_of, word_of};
use std::alloc::{AllocError, Global};

/// The number that decimal digits write.
fn number_value(digits: &[u8]) -> u64
    requires { value digits.now ≤ greatest }
    ensures { result ≡ value digits.now }
{
    let mut total: u64 = 0;
    let mut rest = digits;
    'digits: loop {
        let Some((digit, after)) = rest.split_first() else {
            return total;
        };
        total = total * 10 + digit.saturating_sub(b'0') as u64;
        rest = after;
    }
}

/// A reserved word.
fn word_kind<'a>(bytes: &[u8]) -> Kind<'a>
    requires { Shape TokenKind.Word bytes.now }
    ensures { IsTerminal bytes.now TokenKind.Word (terminal_of result) }
{
    match word_of(bytes) {
        Some(word) => Kind::Word(word),
        None => unreachable!(),
    }
}

/// A symbol.
fn symbol_kind<'a>(bytes: &[u8]) -> Kind<'a>
    requires { Shape TokenKind.Symbol bytes.now }
    ensures { IsTerminal bytes.now TokenKind.Symbol (terminal_of result) }
{
    match symbol_of(bytes) {
        Some(symbol) => Kind::Symbol(symbol),
        None => unreachable!(),
    }
}

/// A string, without its quotes.
fn string_kind<'a>(bytes: &'a [u8]) -> Kind<'a>
    requires { Shape TokenKind.Str bytes.now }
    ensures { IsTerminal bytes.now TokenKind.Str (terminal_of result) }
{
    Kind::Str(&bytes[1..bytes.len() - 1])
}

/// What a token is.
fn kind_of<'a>(text: &'a [u8], token: Token) -> Kind<'a>
    requires { IsReadable text.now token }
    ensures { IsTerminal (slice text.now token.span) token.kind (terminal_of result) }
{
    let bytes = &text[token.span.from as usize..token.span.to as usize];
    match token.kind {
        TokenKind::Name => Kind::Name(bytes),
        TokenKind::Word => word_kind(bytes),
        TokenKind::Int => Kind::Int(number_value(bytes)),
        TokenKind::Str => string_kind(bytes),
        TokenKind::Symbol => symbol_kind(bytes),
        TokenKind::End => Kind::End,
    }
}

/// The marks of all tokens.
pub(crate) fn marks_of<'a>(
    alloc: Global,
    text: &'a [u8],
    tokens: &[Token],
) -> Result<Vec<Mark<'a>>, AllocError>
    requires { AllByRecursion (IsReadable text.now) tokens.now }
    ensures { IfOk result (λ ms. ToksOf text.now tokens.now (toks ms.items)) }
{
    let mut marks = Vec::with_capacity(alloc, tokens.len())?;
    let mut rest = tokens;
    'tokens: loop {
        let Some((token, after)) = rest.split_first() else {
            return Ok(marks);
        };
        marks.push(Mark {
            kind: kind_of(text, *token),
            span: token.span,
        })?;
        rest = after;
    }
}
