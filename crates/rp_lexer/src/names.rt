//! Names and reserved words.

ghost use Rattle.std.specs.Prelude.{◌≡◌, ◌+◌, ◌<◌, ◌≤◌, length, drop, take};
ghost use Rattle.std.specs.List.{prefix_len};
ghost use Rattle.rp_grammar.specs.Bytes.{is_name_byte};
ghost use Rattle.rp_grammar.specs.Scan.{name_kind};

use crate::bytes::is_name_byte;
use crate::terminals::word_of;
use rp_grammar::{Piece, TokenKind};

// How many bytes belong to the name, the first of which is known to.
fn name_len(rest: &[u8]) -> usize
    requires { 0 < length rest.now }
    ensures is { result ≡ 1 + prefix_len is_name_byte (drop 1 rest.now) }
    ensures within { result ≤ length rest.now }
{
    let mut n = 1;
    while n < rest.len() && is_name_byte(rest[n]) {
        n += 1;
    }
    n
}

// Whether a name is a reserved word.
fn word_or_name(text: &[u8]) -> TokenKind
    ensures { result ≡ name_kind text.now }
{
    if word_of(text).is_some() {
        TokenKind::Word
    } else {
        TokenKind::Name
    }
}

// What a letter begins.
pub(crate) fn name_piece(rest: &[u8]) -> Piece
    requires { 0 < length rest.now }
    ensures { let n = 1 + prefix_len is_name_byte (drop 1 rest.now) in result ≡ Piece.Token (name_kind (take n rest.now)) n }
{
    let n = name_len(rest);
    Piece::Token(word_or_name(&rest[..n]), n)
}
