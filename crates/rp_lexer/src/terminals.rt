//! The word and the symbol that a text spells.

ghost use Rattle.std.specs.Prelude.{◌≡◌, ◌↔◌, IsSome, IsTrue};
ghost use Rattle.rp_grammar.specs.Bytes.{is_one_of, reserved, symbols};
ghost use Rattle.rp_grammar.specs.Spelling.{spelling, mark, words, marks, word_of, symbol_of};
ghost use Rattle.rp_lexer.specs.means.Named.{named, sized};

use rp_grammar::{Symbol, Word, symbol_text, word_text};

// The words of so many bytes, in the order of the table of all words.
fn words_of_length(length: usize) -> &'static [Word]
    ensures { result.now ≡ sized spelling length words }
{
    match length {
        2 => &[Word::If, Word::Op, Word::Tx],
        3 => &[Word::Var, Word::New, Word::Int, Word::Reg],
        4 => &[
            Word::Type,
            Word::Crdt,
            Word::Proc,
            Word::Else,
            Word::True,
            Word::None,
            Word::Some,
            Word::Call,
            Word::Same,
            Word::Info,
            Word::Bool,
        ],
        5 => &[
            Word::Query,
            Word::Match,
            Word::False,
            Word::Maybe,
            Word::SetAw,
            Word::SetRw,
            Word::MvReg,
            Word::MapUw,
            Word::MapDw,
            Word::Abort,
        ],
        6 => &[
            Word::IdType,
            Word::Atomic,
            Word::Assert,
            Word::Return,
            Word::Forall,
            Word::Exists,
            Word::Before,
            Word::Origin,
            Word::Result,
            Word::String,
        ],
        7 => &[Word::Visible, Word::Counter],
        8 => &[Word::Datatype, Word::Returned, Word::Requires],
        9 => &[Word::Invariant],
        10 => &[Word::Invocation, Word::Unreturned],
        _ => &[],
    }
}

// The first of these words that the text spells.
fn find_word(items: &[Word], text: &[u8]) -> Option<Word>
    ensures { result ≡ named spelling items.now text.now }
{
    for item in items {
        if word_text(*item) == text {
            return Some(*item);
        }
    }
    None
}

/// The reserved word that the text spells, if it spells one.
pub fn word_of(text: &[u8]) -> Option<Word>
    ensures is { result ≡ word_of text.now }
    ensures spelled { (w : Word) → (result ≡ Some w) ↔ (text.now ≡ spelling w) }
    ensures some { IsSome result ↔ IsTrue (is_one_of reserved text.now) }
{
    find_word(words_of_length(text.len()), text)
}

// The symbols of so many bytes, in the order of the table of all symbols.
fn symbols_of_length(length: usize) -> &'static [Symbol]
    ensures { result.now ≡ sized mark length marks }
{
    match length {
        1 => &[
            Symbol::OpenBrace,
            Symbol::CloseBrace,
            Symbol::OpenParen,
            Symbol::CloseParen,
            Symbol::OpenBracket,
            Symbol::CloseBracket,
            Symbol::Comma,
            Symbol::Semicolon,
            Symbol::Colon,
            Symbol::Dot,
            Symbol::Assign,
            Symbol::Less,
            Symbol::Greater,
            Symbol::Not,
            Symbol::Plus,
            Symbol::Minus,
            Symbol::Bar,
        ],
        2 => &[
            Symbol::DoubleColon,
            Symbol::Equal,
            Symbol::NotEqual,
            Symbol::AtMost,
            Symbol::AtLeast,
            Symbol::Arrow,
            Symbol::And,
            Symbol::Or,
        ],
        3 => &[Symbol::Implies],
        _ => &[],
    }
}

// The first of these symbols that the text spells.
fn find_symbol(items: &[Symbol], text: &[u8]) -> Option<Symbol>
    ensures { result ≡ named mark items.now text.now }
{
    for item in items {
        if symbol_text(*item) == text {
            return Some(*item);
        }
    }
    None
}

/// The symbol that the text spells, if it spells one.
pub fn symbol_of(text: &[u8]) -> Option<Symbol>
    ensures is { result ≡ symbol_of text.now }
    ensures spelled { (m : Symbol) → (result ≡ Some m) ↔ (text.now ≡ mark m) }
    ensures some { IsSome result ↔ IsTrue (is_one_of symbols text.now) }
{
    find_symbol(symbols_of_length(text.len()), text)
}
