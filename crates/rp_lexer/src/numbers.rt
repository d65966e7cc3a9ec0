//! Numbers.

ghost use Rattle.std.specs.Prelude.{◌≡◌};
ghost use Rattle.rp_grammar.specs.Scan.{number_from};

use crate::bytes::is_digit;
use rp_grammar::{LexFault, Piece, TokenKind};

// The greatest number that a program may write.
const GREATEST: u64 = 9_223_372_036_854_775_807;

// What a digit begins.
pub(crate) fn number_piece(rest: &[u8]) -> Piece
    ensures { result ≡ number_from rest.now 0 0 }
{
    let mut value: u64 = 0;
    let mut n = 0;
    while n < rest.len() {
        let b = rest[n];
        if !is_digit(b) {
            return Piece::Token(TokenKind::Int, n);
        }
        if value > GREATEST / 10 {
            return Piece::Fault(0, LexFault::NumberRange);
        }
        value = value * 10 + (b - b'0') as u64;
        if value > GREATEST {
            return Piece::Fault(0, LexFault::NumberRange);
        }
        n += 1;
    }
    Piece::Token(TokenKind::Int, n)
}
