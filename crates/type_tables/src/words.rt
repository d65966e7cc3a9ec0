//! The words on calls and invocations.

ghost use Rattle.std.specs.Prelude.{◌≡◌, ◌<◌, length};
ghost use Rattle.type_rules.specs.Starts as starts;
ghost use Rattle.type_rules.specs.Typing as typing;
ghost use Rattle.type_rules.specs.Rules as rules;

use crate::kinds::{BOOL_KIND, plain_kind};
use rp_grammar::CallWord;
use type_rules::{Base, Kind};

pub fn called_word(word: CallWord) -> &'static [u8]
    ensures text { result.now ≡ starts.called_word word }
    ensures short { length result.now < 256 }
{
    match word {
        CallWord::Visible => b"visible",
        CallWord::Before => b"before",
        CallWord::Same => b"same",
        CallWord::Op => b"op",
        CallWord::Origin => b"origin",
        CallWord::Info => b"info",
        CallWord::Result => b"result",
    }
}

/// The type of what it gives.
pub fn called_kind(word: CallWord) -> Kind
    ensures { result ≡ typing.called_kind word }
{
    match word {
        CallWord::Visible | CallWord::Before | CallWord::Same => BOOL_KIND,
        CallWord::Op => plain_kind(Base::Operation),
        CallWord::Origin => plain_kind(Base::Invocation),
        CallWord::Info => plain_kind(Base::Info),
        CallWord::Result => plain_kind(Base::Outcome),
    }
}

/// Whether it makes a plain term of plain terms.
pub fn is_plain_word(word: CallWord) -> bool
    ensures { result ≡ typing.is_plain_word word }
{
    match word {
        CallWord::Visible | CallWord::Before | CallWord::Same => false,
        CallWord::Op | CallWord::Origin | CallWord::Info | CallWord::Result => true,
    }
}

/// How many arguments it takes.
pub fn word_takes(word: CallWord) -> usize
    ensures { result ≡ rules.word_takes word }
{
    match word {
        CallWord::Before | CallWord::Same => 2,
        CallWord::Visible | CallWord::Op | CallWord::Origin | CallWord::Info | CallWord::Result =>
            1,
    }
}
