//! Symbols and comments.

ghost use Rattle.std.specs.Prelude.{◌≡◌, ◌+◌, ◌<◌, ◌≤◌, length, drop, slice_index};
ghost use Rattle.std.specs.List.{prefix_len};
ghost use Rattle.rp_grammar.specs.Bytes.{is_inline};
ghost use Rattle.rp_grammar.specs.Scan.{symbol_len, mark_piece};

use rp_grammar::{LexFault, Piece, TokenKind};

// The length of the comment whose two slashes the bytes begin with.
fn comment_len(rest: &[u8]) -> usize
    requires { 1 < length rest.now }
    ensures is { result ≡ 2 + prefix_len is_inline (drop 2 rest.now) }
    ensures within { result ≤ length rest.now }
{
    let mut n = 2;
    while n < rest.len() && rest[n] != b'\n' {
        n += 1;
    }
    n
}

// The length of the longest symbol that these three bytes begin with, or 0.
fn symbol_len(a: u8, b: u8, c: u8) -> usize
    ensures { result ≡ symbol_len a b c }
{
    match a {
        b'{' | b'}' | b'(' | b')' | b'[' | b']' | b',' | b';' | b'.' | b'+' | b'-' => 1,
        b':' => if b == b':' { 2 } else { 1 },
        b'=' => {
            if b == b'=' {
                if c == b'>' { 3 } else { 2 }
            } else if b == b'>' {
                2
            } else {
                1
            }
        }
        b'!' | b'<' | b'>' => if b == b'=' { 2 } else { 1 },
        b'&' => if b == b'&' { 2 } else { 0 },
        b'|' => if b == b'|' { 2 } else { 1 },
        _ => 0,
    }
}

// The byte at `i`, or 0 past the end.
fn byte_at(rest: &[u8], i: usize) -> u8
    ensures { result ≡ slice_index rest.now i }
{
    if i < rest.len() { rest[i] } else { 0 }
}

// What a byte begins that begins no name, number or string.
pub(crate) fn mark_piece(rest: &[u8]) -> Piece
    requires { 0 < length rest.now }
    ensures { result ≡ mark_piece (slice_index rest.now 0) (drop 1 rest.now) }
{
    let a = rest[0];
    let b = byte_at(rest, 1);
    if a == b'/' {
        if b == b'/' {
            return Piece::Gap(comment_len(rest));
        }
        return Piece::Fault(0, LexFault::BadByte);
    }
    let n = symbol_len(a, b, byte_at(rest, 2));
    if n == 0 {
        return Piece::Fault(0, LexFault::BadByte);
    }
    Piece::Token(TokenKind::Symbol, n)
}
