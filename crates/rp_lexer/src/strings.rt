//! Strings.

ghost use Rattle.std.specs.Prelude.{◌≡◌, ◌<◌, false, length, drop};
ghost use Rattle.rp_grammar.specs.Scan.{string_from};

use crate::bytes::{is_escaped, is_plain};
use rp_grammar::{LexFault, Piece, TokenKind};

// What a quote begins.
pub(crate) fn string_piece(rest: &[u8]) -> Piece
    requires { 0 < length rest.now }
    ensures { result ≡ string_from (drop 1 rest.now) false 1 }
{
    let mut n = 1;
    while n < rest.len() {
        let b = rest[n];
        if b == b'"' {
            return Piece::Token(TokenKind::Str, n + 1);
        }
        if b == b'\\' {
            if n + 1 < rest.len() && is_escaped(rest[n + 1]) {
                n += 2;
            } else {
                return Piece::Fault(n, LexFault::BadByte);
            }
        } else if is_plain(b) {
            n += 1;
        } else if b == b'\n' {
            return Piece::Fault(0, LexFault::OpenString);
        } else {
            return Piece::Fault(n, LexFault::BadByte);
        }
    }
    Piece::Fault(0, LexFault::OpenString)
}
