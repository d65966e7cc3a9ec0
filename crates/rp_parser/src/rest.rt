//! Reading on from what is left. Behind a fault nothing is read: what a function gives there is a stand-in,
//! and what is left stays the same.

ghost use Rattle.std.specs.Prelude.{List as Items};
ghost use Rattle.std.specs.Prelude.{◌≡◌, ℕ, ◌<◌, ◌≤◌, [], ◌∷◌, ◌++◌, not, IsTrue, IfOk, IfSome, MatchOption, length, false};
ghost use Rattle.rp_span.specs.declared.Span.{Span as SpanValue};
ghost use Rattle.rp_grammar.specs.declared.terminal.Symbol.{Symbol as SymbolValue};
ghost use Rattle.rp_grammar.specs.Terminals.{at, symbol as symbol_terminal};
ghost use Rattle.rp_grammar.specs.Exprs.{goes_on};
ghost use Rattle.rp_grammar.specs.Trees.{Ident as IdentTree, ParamTree, FieldTree};
ghost use Rattle.rp_ast.specs.View.{ident_view};
ghost use Rattle.rp_tokens.specs.MachineStates.{State, want_int, want_symbol, want_name, if_symbol, if_word, more_params, more_fields, more_names};
ghost use Rattle.rp_tokens.specs.MachineTypes.{want_param, want_field};
ghost use Rattle.rp_tokens.specs.Machine.{Bounded, bounded};
ghost use Rattle.rp_parser.specs.means.Marks.{toks};
ghost use Rattle.rp_parser.specs.means.Reading.{IfLeft, Stands, Within, left, next_of};

use crate::fault::Fault;
use crate::mark::{Marks, Rest};
use crate::{expr_starts, next};
use rp_ast::Ident;
use rp_grammar::{Symbol, Word};
use rp_span::Span;
use rp_value::{List, Memory};
use std::alloc::Global;

/// The span of what is missing.
pub(crate) fn nowhere() -> Span {
    Span { from: 0, to: 0 }
}

/// What was made, or what stands in for it where memory ran out.
pub(crate) fn made<'a, T: Drop>(
    node: Result<T, Memory>,
    missing: T,
    rest: Rest<'a>,
) -> (T, Rest<'a>)
    ensures within { (d : ℕ) → Within d rest.entry → Within d result.1 }
    ensures no_longer { left result.1 ≤ left rest.entry }
    ensures reads { (o : Bounded) (s : T → State) (t : State)
        → IfOk node (λ x. s x ≡ t) → Stands rest.entry t o → Stands result.1 (s result.0) o }
{
    match node {
        Ok(whole) => (whole, rest),
        Err(_) => (missing, Rest::Failed(Fault::Memory)),
    }
}

/// Adds an item to a list, where memory suffices.
pub(crate) fn pushed<'a, T: Drop>(list: &mut List<T>, item: T, rest: Rest<'a>) -> Rest<'a>
    ensures within { (d : ℕ) → Within d rest.entry → Within d result }
    ensures no_longer { left result ≤ left rest.entry }
    ensures pushes { IfLeft result ((result ≡ rest.entry) × (list.new ≡ list.old ++ item ∷ [])) }
    ensures next { (m : SymbolValue) → next_of m rest.entry ≡ false → next_of m result ≡ false }
    ensures reads { (o : Bounded) (s : State) → Stands rest.entry s o → Stands result s o }
{
    match list.push(item) {
        Ok(()) => rest,
        Err(_) => Rest::Failed(Fault::Memory),
    }
}

/// What stands in for a name behind a fault.
pub(crate) fn no_name(alloc: Global) -> Ident {
    Ident {
        text: List::new(alloc),
        span: nowhere(),
    }
}

/// Where this symbol stands, and what follows it, if it is next.
pub(crate) fn behind(rest: Rest, symbol: Symbol) -> Option<(Span, Marks)>
    ensures next { MatchOption result (next_of symbol rest.entry ≡ false)
        (λ x. (s : State) (o : Bounded) → Stands rest.entry s o
        → o ≡ bounded 64 s (at (symbol_terminal symbol) x.0 ∷ toks x.1.now)) }
    ensures within { (d : ℕ) → Within d rest.entry → IfSome result (λ _. d ≤ 64) }
    ensures shorter { IfSome result (λ x. length x.1.now < left rest.entry) }
{
    let Rest::Left(marks) = rest else {
        return None;
    };
    next::behind(marks, symbol)
}

/// This symbol, which has to be next.
pub(crate) fn symbol(rest: Rest, symbol: Symbol, depth: u32) -> (Span, Rest)
    requires { Within depth rest }
    ensures within { Within depth result.1 }
    ensures no_longer { left result.1 ≤ left rest.entry }
    ensures reads { (o : Bounded) (d : ℕ) → d ≡ depth
        → (h : IsTrue (not (goes_on (symbol_terminal symbol)))) (k : SpanValue → State)
        → Stands rest.entry (want_symbol symbol h d k) o → Stands result.1 (k result.0) o }
{
    let Rest::Left(marks) = rest else {
        return (nowhere(), rest);
    };
    match next::symbol(marks, symbol, depth) {
        Ok((span, after)) => (span, Rest::Left(after)),
        Err(fault) => (nowhere(), Rest::Failed(fault)),
    }
}

/// A name, which has to be next.
pub(crate) fn name<'a>(alloc: Global, rest: Rest<'a>, depth: u32) -> (Ident, Rest<'a>)
    ensures within { Within depth result.1 }
    ensures no_longer { left result.1 ≤ left rest.entry }
    ensures reads { (o : Bounded) (d : ℕ) → d ≡ depth → (k : IdentTree → State)
        → Stands rest.entry (want_name d k) o → Stands result.1 (k (ident_view result.0)) o }
{
    let Rest::Left(marks) = rest else {
        return (no_name(alloc), rest);
    };
    match next::name(alloc, marks, depth) {
        Ok((name, after)) => (name, Rest::Left(after)),
        Err(fault) => (no_name(alloc), Rest::Failed(fault)),
    }
}

/// This symbol, which has to be next, and may be nested too deep.
pub(crate) fn symbol_within(rest: Rest, symbol: Symbol, depth: u32) -> (Span, Rest)
    ensures within { Within depth result.1 }
    ensures no_longer { left result.1 ≤ left rest.entry }
    ensures reads { (o : Bounded) (d : ℕ) → d ≡ depth
        → (h : IsTrue (not (goes_on (symbol_terminal symbol)))) (k : SpanValue → State)
        → Stands rest.entry (want_symbol symbol h d k) o → Stands result.1 (k result.0) o }
{
    let Rest::Left(marks) = rest else {
        return (nowhere(), rest);
    };
    match next::symbol_within(marks, symbol, depth) {
        Ok((span, after)) => (span, Rest::Left(after)),
        Err(fault) => (nowhere(), Rest::Failed(fault)),
    }
}

/// A number, which has to be next.
pub(crate) fn number(rest: Rest, depth: u32) -> (u64, Span, Rest)
    requires { depth ≤ 64 }
    ensures within { Within depth result.2 }
    ensures no_longer { left result.2 ≤ left rest.entry }
    ensures reads { (o : Bounded) (d : ℕ) → d ≡ depth → (k : ℕ → SpanValue → State)
        → Stands rest.entry (want_int d k) o → Stands result.2 (k result.0 result.1) o }
{
    let Rest::Left(marks) = rest else {
        return (0, nowhere(), rest);
    };
    match expr_starts::number(marks, depth) {
        Ok((value, span, after)) => (value, span, Rest::Left(after)),
        Err(fault) => (0, nowhere(), Rest::Failed(fault)),
    }
}

/// This symbol, if it is next.
pub(crate) fn optional(rest: Rest, symbol: Symbol, depth: u32) -> Option<(Span, Marks)>
    requires { Within depth rest }
    ensures shorter { IfSome result (λ x. length x.1.now < left rest.entry) }
    ensures within { IfSome result (λ _. depth ≤ 64) }
    ensures reads { (o : Bounded) (d : ℕ) → d ≡ depth → (k : SpanValue → State) (other : State)
        → Stands rest.entry (if_symbol symbol d k other) o
        → MatchOption result (Stands rest.entry other o) (λ x. o ≡ bounded 64 (k x.0) (toks x.1.now)) }
{
    let Rest::Left(marks) = rest else {
        return None;
    };
    next::optional(marks, symbol, depth)
}

/// This word, if it is next.
pub(crate) fn optional_word(rest: Rest, word: Word, depth: u32) -> Option<(Span, Marks)>
    requires { Within depth rest }
    ensures shorter { IfSome result (λ x. length x.1.now < left rest.entry) }
    ensures within { IfSome result (λ _. depth ≤ 64) }
    ensures reads { (o : Bounded) (d : ℕ) → d ≡ depth → (k : SpanValue → State) (other : State)
        → Stands rest.entry (if_word word d k other) o
        → MatchOption result (Stands rest.entry other o) (λ x. o ≡ bounded 64 (k x.0) (toks x.1.now)) }
{
    let Rest::Left(marks) = rest else {
        return None;
    };
    next::optional_word(marks, word, depth)
}

/// What follows a comma, if one is next; behind some parameters, fields or names.
pub(crate) fn comma(rest: Rest, depth: u32) -> Option<Marks>
    requires { Within depth rest }
    ensures shorter { IfSome result (λ after. length after.now < left rest.entry) }
    ensures within { IfSome result (λ _. depth ≤ 64) }
    ensures params { (o : Bounded) (d : ℕ) → d ≡ depth
        → (ps : Items ParamTree) (k : Items ParamTree → State)
        → Stands rest.entry (more_params d ps k) o → MatchOption result (Stands rest.entry (k ps) o)
        (λ after. o ≡ bounded 64 (want_param d
        (λ p. more_params d (ps ++ p ∷ []) k)) (toks after.now)) }
    ensures fields { (o : Bounded) (d : ℕ) → d ≡ depth
        → (fs : Items FieldTree) (k : Items FieldTree → State)
        → Stands rest.entry (more_fields d fs k) o → MatchOption result (Stands rest.entry (k fs) o)
        (λ after. o ≡ bounded 64 (want_field d
        (λ f. more_fields d (fs ++ f ∷ []) k)) (toks after.now)) }
    ensures names { (o : Bounded) (d : ℕ) → d ≡ depth
        → (ns : Items IdentTree) (k : Items IdentTree → State)
        → Stands rest.entry (more_names d ns k) o → MatchOption result (Stands rest.entry (k ns) o)
        (λ after. o ≡ bounded 64 (want_name d
        (λ n. more_names d (ns ++ n ∷ []) k)) (toks after.now)) }
{
    let Rest::Left(marks) = rest else {
        return None;
    };
    next::comma(marks, depth)
}
