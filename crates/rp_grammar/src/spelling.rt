//! How words and symbols are written.

ghost use Rattle.std.specs.Prelude.{◌≡◌, false};
ghost use Rattle.rp_grammar.specs.Spelling.{spelling, mark};
ghost use Rattle.rp_grammar.specs.means.Words.{is_outer};

use crate::terminal::{Symbol, Word};

/// How a reserved word is written.
pub fn word_text(w: Word) -> &'static [u8]
    ensures { result.now ≡ spelling w }
{
    match w {
        Word::IdType => b"idtype",
        Word::Type => b"type",
        Word::Datatype => b"datatype",
        Word::Crdt => b"crdt",
        Word::Query => b"query",
        Word::Invariant => b"invariant",
        Word::Proc => b"proc",
        Word::Var => b"var",
        Word::Atomic => b"atomic",
        Word::If => b"if",
        Word::Else => b"else",
        Word::Match => b"match",
        Word::Assert => b"assert",
        Word::Return => b"return",
        Word::New => b"new",
        Word::Requires => b"requires",
        Word::Abort => b"abort",
        _ => inner_word_text(w),
    }
}

// How a word that stands in types and expressions alone is written.
fn inner_word_text(w: Word) -> &'static [u8]
    requires { is_outer w ≡ false }
    ensures { result.now ≡ spelling w }
{
    match w {
        Word::Forall => b"forall",
        Word::Exists => b"exists",
        Word::True => b"true",
        Word::False => b"false",
        Word::None => b"none",
        Word::Some => b"some",
        Word::Call => b"call",
        Word::Invocation => b"invocation",
        Word::Visible => b"visible",
        Word::Before => b"before",
        Word::Same => b"same",
        Word::Op => b"op",
        Word::Origin => b"origin",
        Word::Info => b"info",
        Word::Result => b"result",
        Word::Unreturned => b"unreturned",
        Word::Tx => b"tx",
        Word::Returned => b"returned",
        Word::Bool => b"Bool",
        Word::Int => b"Int",
        Word::String => b"String",
        Word::Maybe => b"Maybe",
        Word::SetAw => b"SetAw",
        Word::SetRw => b"SetRw",
        Word::Reg => b"Reg",
        Word::MvReg => b"MvReg",
        Word::Counter => b"Counter",
        Word::MapUw => b"MapUw",
        Word::MapDw => b"MapDw",
        _ => unreachable!(),
    }
}

/// How a symbol is written.
pub fn symbol_text(m: Symbol) -> &'static [u8]
    ensures { result.now ≡ mark m }
{
    match m {
        Symbol::OpenBrace => b"{",
        Symbol::CloseBrace => b"}",
        Symbol::OpenParen => b"(",
        Symbol::CloseParen => b")",
        Symbol::OpenBracket => b"[",
        Symbol::CloseBracket => b"]",
        Symbol::Comma => b",",
        Symbol::Semicolon => b";",
        Symbol::Colon => b":",
        Symbol::DoubleColon => b"::",
        Symbol::Dot => b".",
        Symbol::Assign => b"=",
        Symbol::Equal => b"==",
        Symbol::NotEqual => b"!=",
        Symbol::Less => b"<",
        Symbol::AtMost => b"<=",
        Symbol::Greater => b">",
        Symbol::AtLeast => b">=",
        Symbol::Implies => b"==>",
        Symbol::Arrow => b"=>",
        Symbol::And => b"&&",
        Symbol::Or => b"||",
        Symbol::Not => b"!",
        Symbol::Plus => b"+",
        Symbol::Minus => b"-",
        Symbol::Bar => b"|",
    }
}
