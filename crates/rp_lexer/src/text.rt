//! Whole texts.

ghost use Rattle.std.specs.Prelude.{◌≡◌, ◌≤◌, ℕ, [], ◌∷◌, ◌++◌, length, IfOk, MatchResult, OnOk, IsOkUnless};
ghost use Rattle.std.specs.Prelude.{List as Items};
ghost use Rattle.std.specs.List.{AllByRecursion};
ghost use Rattle.rp_grammar.specs.Lexed.{Lexed, Faulty, EndsAt, Spelled, token_at};
ghost use Rattle.rp_lexer.specs.Answers.{IsFault, IsRead, IsRefused};

use crate::error::LexErr;
use crate::scan::first_piece;
use rp_grammar::{LexFault, Piece, Token, TokenKind};
use rp_span::Span;
use rp_value::List;
use std::alloc::Global;

// Adds the token that stands from `from` up to `to`.
fn push_token(
    tokens: &mut List<Token>,
    kind: TokenKind,
    from: usize,
    to: usize,
) -> Result<(), LexErr>
    requires from_fits { from ≤ 262144 }
    requires to_fits { to ≤ 262144 }
    ensures pushed { OnOk result (tokens.new ≡ tokens.old ++ token_at kind from to ∷ []) }
    ensures memory { IsOkUnless result LexErr.Memory }
{
    let span = Span {
        from: from as u32,
        to: to as u32,
    };
    tokens.push(Token { kind, span })?;
    Ok(())
}

fn read_tokens(alloc: Global, bytes: &[u8]) -> Result<List<Token>, LexErr>
    requires { length bytes.now ≤ 262144 }
    ensures { MatchResult result (Lexed 0 bytes.now) (IsFault bytes.now) }
{
    let mut tokens = List::new(alloc);
    let mut at = 0;
    'pieces: loop {
        match first_piece(&bytes[at..]) {
            Piece::Ended => {
                push_token(&mut tokens, TokenKind::End, at, at)?;
                return Ok(tokens);
            }
            Piece::Gap(n) => at += n,
            Piece::Token(kind, n) => {
                push_token(&mut tokens, kind, at, at + n)?;
                at += n;
            }
            Piece::Fault(n, kind) => {
                return Err(LexErr::Fault {
                    at: (at + n) as u32,
                    kind,
                });
            }
        }
    }
}

/// The tokens of a text, the last of which is its end, or the first fault of the text. It reads each byte
/// at most a few times, and copies none: a token's text is the slice of its span.
pub fn lex(alloc: Global, bytes: &[u8]) -> Result<List<Token>, LexErr>
    requires { length bytes.now ≤ 262144 }

    // What is answered is so.
    ensures answer { MatchResult result (Lexed 0 bytes.now) (IsFault bytes.now) }

    // What is so is answered, unless memory runs out.
    ensures every_list { (ts : Items Token) → Lexed 0 bytes.now ts → IsRead ts result }
    ensures every_fault { (at : ℕ) (kind : LexFault) → Faulty 0 bytes.now at kind → IsRefused at kind result }

    // Where the tokens stand.
    ensures spelled { IfOk result (AllByRecursion (Spelled bytes.now)) }
    ensures ends { IfOk result (EndsAt (length bytes.now)) }
{
    read_tokens(alloc, bytes)
}
