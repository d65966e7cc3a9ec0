//! What stands at the front of some bytes.

ghost use Rattle.std.specs.Prelude.{◌≡◌};
ghost use Rattle.rp_grammar.specs.Pieces.{Begins};
ghost use Rattle.rp_grammar.specs.Lexed.{Moves};
ghost use Rattle.rp_grammar.specs.Scan.{piece_of};

use crate::bytes::{is_blank, is_digit, is_letter};
use crate::marks::mark_piece;
use crate::names::name_piece;
use crate::numbers::number_piece;
use crate::strings::string_piece;
use rp_grammar::Piece;

fn computed_piece(rest: &[u8]) -> Piece
    ensures { result ≡ piece_of rest.now }
{
    if rest.is_empty() {
        return Piece::Ended;
    }
    let b = rest[0];
    if is_letter(b) {
        name_piece(rest)
    } else if is_blank(b) {
        Piece::Gap(1)
    } else if is_digit(b) {
        number_piece(rest)
    } else if b == b'"' {
        string_piece(rest)
    } else {
        mark_piece(rest)
    }
}

// The one piece that the bytes begin with.
pub(crate) fn first_piece(rest: &[u8]) -> Piece
    ensures begins { Begins rest.now result }
    ensures moves { Moves rest.now result }
{
    computed_piece(rest)
}
