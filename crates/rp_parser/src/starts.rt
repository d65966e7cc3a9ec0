//! What the first token of a phrase begins.

ghost use Rattle.std.specs.Prelude.{◌≡◌, ◌<◌, ◌≤◌, ℕ, IfOk, MatchOption, Some, None, length};
ghost use Rattle.rp_span.specs.declared.Span.{Span as SpanValue};
ghost use Rattle.rp_grammar.specs.Trees.{TypeTree, CrdtTree};
ghost use Rattle.rp_tokens.specs.MachineStates.{State, to, want_type, want_crdt};
ghost use Rattle.rp_tokens.specs.MachineTypes.{type_step, type_word as type_word_step, crdt_step, crdt_word as crdt_word_step, crdt_symbol as crdt_symbol_step};
ghost use Rattle.rp_tokens.specs.Machine.{bounded};
ghost use Rattle.rp_parser.specs.means.Marks.{terminal_of, toks};
ghost use Rattle.rp_parser.specs.means.Reading.{Gives};
ghost use Rattle.rp_parser.specs.means.Starts.{type_next, crdt_next};

use crate::fault::Fault;
use crate::mark::{Kind, Marks};
use crate::next::MAX_DEPTH;
use rp_grammar::{Symbol, Word};
use rp_span::Span;

/// A type of one token.
#[derive(Clone, Copy)]
pub(crate) enum PlainType<'a> {
    Named(&'a [u8]),
    Bool,
    Int,
    Text,
    Call,
    Invocation,
}

/// What a type begins with.
#[derive(Clone, Copy)]
pub(crate) enum TypeStart<'a> {
    Plain(PlainType<'a>),
    Maybe,
}

/// A replicated type over one element type.
#[derive(Clone, Copy)]
pub(crate) enum Container {
    SetAw,
    SetRw,
    Reg,
    MvReg,
}

#[derive(Clone, Copy)]
pub(crate) enum MapKind {
    UpdateWins,
    DeleteWins,
}

/// What a replicated type begins with.
#[derive(Clone, Copy)]
pub(crate) enum CrdtStart {
    Container(Container),
    Counter,
    Map(MapKind),
    Struct,
}

fn type_word<'a>(word: Word) -> Option<TypeStart<'a>>
    ensures { MatchOption result
        ((d : ℕ) (k : TypeTree → State) (s : SpanValue) → type_word_step d k word s ≡ None)
        (λ t. (d : ℕ) (k : TypeTree → State) (s : SpanValue)
        → type_word_step d k word s ≡ Some (to d (type_next d k s t))) }
{
    match word {
        Word::Bool => Some(TypeStart::Plain(PlainType::Bool)),
        Word::Int => Some(TypeStart::Plain(PlainType::Int)),
        Word::String => Some(TypeStart::Plain(PlainType::Text)),
        Word::Maybe => Some(TypeStart::Maybe),
        Word::Call => Some(TypeStart::Plain(PlainType::Call)),
        Word::Invocation => Some(TypeStart::Plain(PlainType::Invocation)),
        _ => None,
    }
}

fn type_start(kind: Kind) -> Option<TypeStart>
    ensures { MatchOption result
        ((d : ℕ) (k : TypeTree → State) (s : SpanValue)
        → type_step d k (terminal_of kind.entry) s ≡ None)
        (λ t. (d : ℕ) (k : TypeTree → State) (s : SpanValue)
        → type_step d k (terminal_of kind.entry) s ≡ Some (to d (type_next d k s t))) }
{
    match kind {
        Kind::Name(bytes) => Some(TypeStart::Plain(PlainType::Named(bytes))),
        Kind::Word(word) => type_word(word),
        _ => None,
    }
}

/// The first token of a type, which has to be next.
pub(crate) fn type_first(marks: Marks, depth: u32) -> Result<(TypeStart, Span, Marks), Fault>
    ensures shallow { IfOk result (λ _. depth ≤ 64) }
    ensures shorter { IfOk result (λ x. length x.2.now < length marks.now) }
    ensures reads { (d : ℕ) → d ≡ depth → (k : TypeTree → State)
        → Gives result (bounded 64 (want_type d k) (toks marks.now))
        (λ x. bounded 64 (type_next d k x.1 x.0) (toks x.2.now)) }
{
    let Some((first, rest)) = marks.split_first() else {
        return Err(Fault::Syntax(0));
    };
    let Some(start) = type_start(first.kind) else {
        return Err(Fault::Syntax(marks.len()));
    };
    if depth > MAX_DEPTH {
        return Err(Fault::TooDeep(marks.len()));
    }
    Ok((start, first.span, rest))
}

fn crdt_word(word: Word) -> Option<CrdtStart>
    ensures { MatchOption result
        ((d : ℕ) (k : CrdtTree → State) (s : SpanValue) → crdt_word_step d k word s ≡ None)
        (λ t. (d : ℕ) (k : CrdtTree → State) (s : SpanValue)
        → crdt_word_step d k word s ≡ Some (to d (crdt_next d k s t))) }
{
    match word {
        Word::SetAw => Some(CrdtStart::Container(Container::SetAw)),
        Word::SetRw => Some(CrdtStart::Container(Container::SetRw)),
        Word::Reg => Some(CrdtStart::Container(Container::Reg)),
        Word::MvReg => Some(CrdtStart::Container(Container::MvReg)),
        Word::Counter => Some(CrdtStart::Counter),
        Word::MapUw => Some(CrdtStart::Map(MapKind::UpdateWins)),
        Word::MapDw => Some(CrdtStart::Map(MapKind::DeleteWins)),
        _ => None,
    }
}

fn crdt_symbol(symbol: Symbol) -> Option<CrdtStart>
    ensures { MatchOption result
        ((d : ℕ) (k : CrdtTree → State) (s : SpanValue) → crdt_symbol_step d k symbol s ≡ None)
        (λ t. (d : ℕ) (k : CrdtTree → State) (s : SpanValue)
        → crdt_symbol_step d k symbol s ≡ Some (to d (crdt_next d k s t))) }
{
    match symbol {
        Symbol::OpenBrace => Some(CrdtStart::Struct),
        _ => None,
    }
}

fn crdt_start(kind: Kind) -> Option<CrdtStart>
    ensures { MatchOption result
        ((d : ℕ) (k : CrdtTree → State) (s : SpanValue)
        → crdt_step d k (terminal_of kind.entry) s ≡ None)
        (λ t. (d : ℕ) (k : CrdtTree → State) (s : SpanValue)
        → crdt_step d k (terminal_of kind.entry) s ≡ Some (to d (crdt_next d k s t))) }
{
    match kind {
        Kind::Word(word) => crdt_word(word),
        Kind::Symbol(symbol) => crdt_symbol(symbol),
        _ => None,
    }
}

/// The first token of a replicated type, which has to be next.
pub(crate) fn crdt_first(marks: Marks, depth: u32) -> Result<(CrdtStart, Span, Marks), Fault>
    ensures shallow { IfOk result (λ _. depth ≤ 64) }
    ensures shorter { IfOk result (λ x. length x.2.now < length marks.now) }
    ensures reads { (d : ℕ) → d ≡ depth → (k : CrdtTree → State)
        → Gives result (bounded 64 (want_crdt d k) (toks marks.now))
        (λ x. bounded 64 (crdt_next d k x.1 x.0) (toks x.2.now)) }
{
    let Some((first, rest)) = marks.split_first() else {
        return Err(Fault::Syntax(0));
    };
    let Some(start) = crdt_start(first.kind) else {
        return Err(Fault::Syntax(marks.len()));
    };
    if depth > MAX_DEPTH {
        return Err(Fault::TooDeep(marks.len()));
    }
    Ok((start, first.span, rest))
}
