//! What the first token of an operand begins.

ghost use Rattle.std.specs.Prelude.{◌≡◌, ◌<◌, ◌≤◌, ℕ, IfOk, MatchOption, Some, None, length};
ghost use Rattle.rp_span.specs.declared.Span.{Span as SpanValue};
ghost use Rattle.rp_grammar.specs.Trees.{ExprTree, PatternTree};
ghost use Rattle.rp_grammar.specs.Parts.{Part};
ghost use Rattle.rp_tokens.specs.MachineStates.{State, to, want_prim, want_operand, want_pattern, want_int};
ghost use Rattle.rp_tokens.specs.MachineExprs.{prim_step, prim_word as prim_word_step, prim_symbol as prim_symbol_step, cmp_step, operand_step};
ghost use Rattle.rp_tokens.specs.Machine.{bounded};
ghost use Rattle.rp_parser.specs.means.Marks.{terminal_of, toks};
ghost use Rattle.rp_parser.specs.means.Reading.{Gives};
ghost use Rattle.rp_parser.specs.means.ExprStarts.{prim_next, operand_next, IsWithin};

use crate::fault::Fault;
use crate::mark::{Kind, Marks};
use crate::next::MAX_DEPTH;
use rp_grammar::{CallWord, Symbol, Word};
use rp_span::Span;

/// An expression of one token.
#[derive(Clone, Copy)]
pub(crate) enum Leaf<'a> {
    Number(u64),
    /// The bytes between a string's quotes.
    Text(&'a [u8]),
    Truth(bool),
    NoneWord,
    Unreturned,
    Tx,
}

/// What an operand of sums begins with.
#[derive(Clone, Copy)]
pub(crate) enum PrimStart<'a> {
    Leaf(Leaf<'a>),
    Minus,
    Some,
    Call(CallWord),
    Match,
    Name(&'a [u8]),
    Paren,
}

#[derive(Clone, Copy)]
pub(crate) enum QuantifierKind {
    Forall,
    Exists,
}

/// What an operand of chains begins with, and where that stands.
#[derive(Clone, Copy)]
pub(crate) enum OperandStart {
    Not(Span),
    Quantifier(QuantifierKind, Span),
    /// The same as an operand of sums.
    Comparison,
}

fn prim_word<'a>(word: Word) -> Option<PrimStart<'a>>
    ensures { MatchOption result
        ((d : ℕ) (k : Part ExprTree → State) (s : SpanValue) → prim_word_step d k word s ≡ None)
        (λ t. (d : ℕ) (k : Part ExprTree → State) (s : SpanValue)
        → prim_word_step d k word s ≡ Some (to d (prim_next d k s t))) }
{
    match word {
        Word::True => Some(PrimStart::Leaf(Leaf::Truth(true))),
        Word::False => Some(PrimStart::Leaf(Leaf::Truth(false))),
        Word::None => Some(PrimStart::Leaf(Leaf::NoneWord)),
        Word::Unreturned => Some(PrimStart::Leaf(Leaf::Unreturned)),
        Word::Tx => Some(PrimStart::Leaf(Leaf::Tx)),
        Word::Some => Some(PrimStart::Some),
        Word::Visible => Some(PrimStart::Call(CallWord::Visible)),
        Word::Before => Some(PrimStart::Call(CallWord::Before)),
        Word::Same => Some(PrimStart::Call(CallWord::Same)),
        Word::Op => Some(PrimStart::Call(CallWord::Op)),
        Word::Origin => Some(PrimStart::Call(CallWord::Origin)),
        Word::Info => Some(PrimStart::Call(CallWord::Info)),
        Word::Result => Some(PrimStart::Call(CallWord::Result)),
        Word::Match => Some(PrimStart::Match),
        _ => None,
    }
}

fn prim_symbol<'a>(symbol: Symbol) -> Option<PrimStart<'a>>
    ensures { MatchOption result
        ((d : ℕ) (k : Part ExprTree → State) (s : SpanValue) → prim_symbol_step d k symbol s ≡ None)
        (λ t. (d : ℕ) (k : Part ExprTree → State) (s : SpanValue)
        → prim_symbol_step d k symbol s ≡ Some (to d (prim_next d k s t))) }
{
    match symbol {
        Symbol::Minus => Some(PrimStart::Minus),
        Symbol::OpenParen => Some(PrimStart::Paren),
        _ => None,
    }
}

fn prim_start(kind: Kind) -> Option<PrimStart>
    ensures { MatchOption result
        ((d : ℕ) (k : Part ExprTree → State) (s : SpanValue)
        → prim_step d k (terminal_of kind.entry) s ≡ None)
        (λ t. (d : ℕ) (k : Part ExprTree → State) (s : SpanValue)
        → prim_step d k (terminal_of kind.entry) s ≡ Some (to d (prim_next d k s t))) }
{
    match kind {
        Kind::Name(bytes) => Some(PrimStart::Name(bytes)),
        Kind::Word(word) => prim_word(word),
        Kind::Int(value) => Some(PrimStart::Leaf(Leaf::Number(value))),
        Kind::Str(inside) => Some(PrimStart::Leaf(Leaf::Text(inside))),
        Kind::Symbol(symbol) => prim_symbol(symbol),
        Kind::End => None,
    }
}

/// The first token of an operand of sums, which has to be next.
pub(crate) fn prim_first(marks: Marks, depth: u32) -> Result<(PrimStart, Span, Marks), Fault>
    ensures shallow { IfOk result (λ _. depth ≤ 64) }
    ensures shorter { IfOk result (λ x. length x.2.now < length marks.now) }
    ensures reads { (d : ℕ) → d ≡ depth → (k : Part ExprTree → State)
        → Gives result (bounded 64 (want_prim d k) (toks marks.now))
        (λ x. bounded 64 (prim_next d k x.1 x.0) (toks x.2.now)) }
{
    let Some((first, rest)) = marks.split_first() else {
        return Err(Fault::Syntax(0));
    };
    let Some(start) = prim_start(first.kind) else {
        return Err(Fault::Syntax(marks.len()));
    };
    if depth > MAX_DEPTH {
        return Err(Fault::TooDeep(marks.len()));
    }
    Ok((start, first.span, rest))
}

fn operand_start(kind: Kind, span: Span) -> Option<OperandStart>
    ensures { MatchOption result
        ((d : ℕ) (k : Part ExprTree → State) (s : SpanValue)
        → operand_step d k (terminal_of kind.entry) s ≡ cmp_step d k (terminal_of kind.entry) s)
        (λ t. (d : ℕ) (k : Part ExprTree → State)
        → operand_step d k (terminal_of kind.entry) span ≡ Some (to d (operand_next d k t))) }
{
    match kind {
        Kind::Symbol(Symbol::Not) => Some(OperandStart::Not(span)),
        Kind::Word(Word::Forall) => Some(OperandStart::Quantifier(QuantifierKind::Forall, span)),
        Kind::Word(Word::Exists) => Some(OperandStart::Quantifier(QuantifierKind::Exists, span)),
        _ => None,
    }
}

/// What is read of an operand of chains before an operand of sums.
pub(crate) fn operand_first(marks: Marks, depth: u32) -> Result<(OperandStart, Marks), Fault>
    ensures within { IfOk result (λ x. IsWithin depth (length marks.now) (length x.1.now) x.0) }
    ensures no_longer { IfOk result (λ x. length x.1.now ≤ length marks.now) }
    ensures reads { (d : ℕ) → d ≡ depth → (k : Part ExprTree → State)
        → Gives result (bounded 64 (want_operand d k) (toks marks.now))
        (λ x. bounded 64 (operand_next d k x.0) (toks x.1.now)) }
{
    let Some((first, rest)) = marks.split_first() else {
        return Err(Fault::Syntax(0));
    };
    let Some(start) = operand_start(first.kind, first.span) else {
        return Ok((OperandStart::Comparison, marks));
    };
    if depth > MAX_DEPTH {
        return Err(Fault::TooDeep(marks.len()));
    }
    Ok((start, rest))
}

/// A number, which has to be next.
pub(crate) fn number(marks: Marks, depth: u32) -> Result<(u64, Span, Marks), Fault>
    requires { depth ≤ 64 }
    ensures shorter { IfOk result (λ x. length x.2.now < length marks.now) }
    ensures reads { (d : ℕ) → d ≡ depth → (k : ℕ → SpanValue → State)
        → Gives result (bounded 64 (want_int d k) (toks marks.now))
        (λ x. bounded 64 (k x.0 x.1) (toks x.2.now)) }
{
    let Some((first, rest)) = marks.split_first() else {
        return Err(Fault::Syntax(0));
    };
    let Kind::Int(value) = first.kind else {
        return Err(Fault::Syntax(marks.len()));
    };
    Ok((value, first.span, rest))
}
