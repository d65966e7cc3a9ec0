//! Patterns.

ghost use Rattle.std.specs.Prelude.{List as Items};
ghost use Rattle.std.specs.Prelude.{◌≡◌, ℕ, ◌<◌, ◌≤◌, [], ◌∷◌, refl, IfOk, MatchOption, Some, None, length, map};
ghost use Rattle.rp_span.specs.declared.Span.{Span as SpanValue};
ghost use Rattle.rp_grammar.specs.declared.terminal.Symbol.TheVariants as symbols;
ghost use Rattle.rp_grammar.specs.Trees.{Ident as IdentTree, ident, PatternTree};
ghost use Rattle.rp_ast.specs.View.{ident_view, pattern_view};
ghost use Rattle.rp_tokens.specs.MachineStates.{State, to, want_symbol, want_name, want_pattern, more_names};
ghost use Rattle.rp_tokens.specs.MachineExprs.{pattern_step, in_pattern};
ghost use Rattle.rp_tokens.specs.Machine.{Bounded, bounded};
ghost use Rattle.rp_parser.specs.means.Marks.{terminal_of, toks};
ghost use Rattle.rp_parser.specs.means.Reading.{Gives, Stands, Within, left};

use crate::fault::Fault;
use crate::leaves;
use crate::mark::{Kind, Marks, Rest};
use crate::next::MAX_DEPTH;
use crate::rest::{comma, name, no_name, optional, pushed, symbol};
use rp_ast::{Ident, PatternNode};
use rp_grammar::{Symbol, Word};
use rp_value::List;
use std::alloc::Global;

/// The bytes of a constructor's name, which may be one of four words.
pub(crate) fn constructor(kind: Kind) -> Option<&[u8]>
    ensures { MatchOption result
        ((d : ℕ) (k : PatternTree → State) (s : SpanValue)
        → pattern_step d k (terminal_of kind.entry) s ≡ None)
        (λ bytes. (d : ℕ) (k : PatternTree → State) (s : SpanValue)
        → pattern_step d k (terminal_of kind.entry) s
        ≡ Some (to d (in_pattern d (ident bytes.now s) k))) }
{
    match kind {
        Kind::Name(bytes) => Some(bytes),
        Kind::Word(Word::None) => Some(b"none"),
        Kind::Word(Word::Some) => Some(b"some"),
        Kind::Word(Word::True) => Some(b"true"),
        Kind::Word(Word::False) => Some(b"false"),
        _ => None,
    }
}

/// The constructor of a pattern, which has to be next.
fn pattern_first(alloc: Global, marks: Marks, depth: u32) -> Result<(Ident, Marks), Fault>
    ensures shallow { IfOk result (λ _. depth ≤ 64) }
    ensures shorter { IfOk result (λ x. length x.1.now < length marks.now) }
    ensures reads { (d : ℕ) → d ≡ depth → (k : PatternTree → State)
        → Gives result (bounded 64 (want_pattern d k) (toks marks.now))
        (λ x. bounded 64 (in_pattern d (ident_view x.0) k) (toks x.1.now)) }
{
    let Some((first, rest)) = marks.split_first() else {
        return Err(Fault::Syntax(0));
    };
    let Some(bytes) = constructor(first.kind) else {
        return Err(Fault::Syntax(marks.len()));
    };
    if depth > MAX_DEPTH {
        return Err(Fault::TooDeep(marks.len()));
    }
    Ok((leaves::ident(alloc, first.span, bytes)?, rest))
}

/// The constructor of a pattern, which has to be next.
fn read_constructor<'a>(alloc: Global, rest: Rest<'a>, depth: u32) -> (Ident, Rest<'a>)
    ensures within { Within depth result.1 }
    ensures no_longer { left result.1 ≤ left rest.entry }
    ensures reads { (o : Bounded) (d : ℕ) → d ≡ depth → (k : PatternTree → State)
        → Stands rest.entry (want_pattern d k) o
        → Stands result.1 (in_pattern d (ident_view result.0) k) o }
{
    let Rest::Left(marks) = rest else {
        return (no_name(alloc), rest);
    };
    match pattern_first(alloc, marks, depth) {
        Ok((con, after)) => (con, Rest::Left(after)),
        Err(fault) => (no_name(alloc), Rest::Failed(fault)),
    }
}

/// Names with commas between them, one at least.
fn read_names<'a>(alloc: Global, marks: Rest<'a>, depth: u32) -> (List<Ident>, Rest<'a>)
    ensures within { Within depth result.1 }
    ensures no_longer { left result.1 ≤ left marks.entry }
    ensures reads { (o : Bounded) (d : ℕ) → d ≡ depth → (k : Items IdentTree → State)
        → Stands marks.entry (want_name d (λ n. more_names d (n ∷ []) k)) o
        → Stands result.1 (k (map ident_view result.0)) o }
{
    let mut names = List::new(alloc);
    let (first, after) = name(alloc, marks, depth);
    let mut rest = pushed(&mut names, first, after);
    'names: loop {
        let Some(after) = comma(rest, depth) else {
            return (names, rest);
        };
        let (name, end) = name(alloc, Rest::Left(after), depth);
        rest = pushed(&mut names, name, end);
    }
}

/// The variables of a pattern, behind its constructor.
pub(crate) fn read_variables<'a>(
    alloc: Global,
    con: Ident,
    rest: Rest<'a>,
    depth: u32,
) -> (PatternNode, Rest<'a>)
    requires within { Within depth rest }
    ensures within { Within depth result.1 }
    ensures no_longer { left result.1 ≤ left rest.entry }
    ensures reads { (o : Bounded) (d : ℕ) → d ≡ depth → (k : PatternTree → State)
        → Stands rest.entry (in_pattern d (ident_view con) k) o
        → Stands result.1 (k (pattern_view result.0)) o }
{
    let Some((_, inside)) = optional(rest, Symbol::OpenParen, depth) else {
        let vars = List::new(alloc);
        return (PatternNode { con, vars }, rest);
    };
    let (vars, after) = read_names(alloc, Rest::Left(inside), depth + 1);
    let (_, end) = symbol(after, Symbol::CloseParen, depth);
    (PatternNode { con, vars }, end)
}

/// A pattern and the arrow behind it.
pub(crate) fn read_arm_pattern<'a>(
    alloc: Global,
    rest: Rest<'a>,
    depth: u32,
) -> (PatternNode, Rest<'a>)
    ensures within { Within depth result.1 }
    ensures no_longer { left result.1 ≤ left rest.entry }
    ensures reads { (o : Bounded) (d : ℕ) → d ≡ depth → (k : PatternTree → State)
        → Stands rest.entry (want_pattern d (λ p. want_symbol symbols.Arrow refl d (λ _. k p))) o
        → Stands result.1 (k (pattern_view result.0)) o }
{
    let (con, after) = read_constructor(alloc, rest, depth);
    let (pattern, after) = read_variables(alloc, con, after, depth);
    let (_, end) = symbol(after, Symbol::Arrow, depth);
    (pattern, end)
}
