//! Single tokens. A function that wants one names the token in its place where it is another.

ghost use Rattle.std.specs.Prelude.{List as Items};
ghost use Rattle.std.specs.Prelude.{◌≡◌, ℕ, ◌<◌, ◌≤◌, [], ◌∷◌, ◌++◌, not, IsTrue, IfOk, IfSome, MatchOption, length, false};
ghost use Rattle.rp_span.specs.declared.Span.{Span as SpanValue};
ghost use Rattle.rp_grammar.specs.Terminals.{at, symbol as symbol_terminal, word as word_terminal};
ghost use Rattle.rp_grammar.specs.Exprs.{goes_on};
ghost use Rattle.rp_grammar.specs.Parts.{join as join_spans};
ghost use Rattle.rp_grammar.specs.Trees.{Ident as IdentTree, ParamTree, FieldTree};
ghost use Rattle.rp_ast.specs.View.{ident_view};
ghost use Rattle.rp_tokens.specs.MachineStates.{State, want_symbol, want_name, if_symbol, if_word, more_params, more_fields, more_names};
ghost use Rattle.rp_tokens.specs.MachineTypes.{want_param, want_field};
ghost use Rattle.rp_tokens.specs.Machine.{bounded};
ghost use Rattle.rp_parser.specs.means.Marks.{toks, next_is, next_is_word};
ghost use Rattle.rp_parser.specs.means.Reading.{Gives};

use crate::fault::Fault;
use crate::mark::{Kind, Marks};
use rp_ast::Ident;
use rp_grammar::{Symbol, Word};
use rp_span::Span;
use rp_value::copy_bytes;
use std::alloc::Global;

/// How deep a token may be nested.
pub(crate) const MAX_DEPTH: u32 = 64;

/// From the start of one place to the end of another.
pub(crate) fn join(a: Span, b: Span) -> Span
    ensures { result ≡ join_spans a b }
{
    Span {
        from: a.from,
        to: b.to,
    }
}

/// Where this symbol stands, and what follows it, if it is next.
pub(crate) fn behind(marks: Marks, symbol: Symbol) -> Option<(Span, Marks)>
    ensures next { MatchOption result (next_is symbol (toks marks.now) ≡ false)
        (λ x. toks marks.now ≡ at (symbol_terminal symbol) x.0 ∷ toks x.1.now) }
    ensures shorter { IfSome result (λ x. length x.1.now < length marks.now) }
{
    let Some((first, rest)) = marks.split_first() else {
        return None;
    };
    let Kind::Symbol(found) = first.kind else {
        return None;
    };
    if found == symbol {
        Some((first.span, rest))
    } else {
        None
    }
}

/// Where this word stands, and what follows it, if it is next.
pub(crate) fn word_behind(marks: Marks, word: Word) -> Option<(Span, Marks)>
    ensures next { MatchOption result (next_is_word word (toks marks.now) ≡ false)
        (λ x. toks marks.now ≡ at (word_terminal word) x.0 ∷ toks x.1.now) }
    ensures shorter { IfSome result (λ x. length x.1.now < length marks.now) }
{
    let Some((first, rest)) = marks.split_first() else {
        return None;
    };
    let Kind::Word(found) = first.kind else {
        return None;
    };
    if found == word {
        Some((first.span, rest))
    } else {
        None
    }
}

/// This word, if it is next.
pub(crate) fn optional_word(marks: Marks, word: Word, depth: u32) -> Option<(Span, Marks)>
    requires { depth ≤ 64 }
    ensures reads { (d : ℕ) → d ≡ depth → (k : SpanValue → State) (other : State)
        → MatchOption result (bounded 64 (if_word word d k other) (toks marks.now)
        ≡ bounded 64 other (toks marks.now))
        (λ x. bounded 64 (if_word word d k other) (toks marks.now)
        ≡ bounded 64 (k x.0) (toks x.1.now)) }
    ensures shorter { IfSome result (λ x. length x.1.now < length marks.now) }
{
    word_behind(marks, word)
}

/// This symbol, if it is next.
pub(crate) fn optional(marks: Marks, symbol: Symbol, depth: u32) -> Option<(Span, Marks)>
    requires { depth ≤ 64 }
    ensures reads { (d : ℕ) → d ≡ depth → (k : SpanValue → State) (other : State)
        → MatchOption result (bounded 64 (if_symbol symbol d k other) (toks marks.now)
        ≡ bounded 64 other (toks marks.now))
        (λ x. bounded 64 (if_symbol symbol d k other) (toks marks.now)
        ≡ bounded 64 (k x.0) (toks x.1.now)) }
    ensures shorter { IfSome result (λ x. length x.1.now < length marks.now) }
{
    behind(marks, symbol)
}

/// What follows a comma, if one is next; behind some parameters, fields or the like.
pub(crate) fn comma(marks: Marks, depth: u32) -> Option<Marks>
    requires { depth ≤ 64 }
    ensures params { (d : ℕ) → d ≡ depth → (ps : Items ParamTree) (k : Items ParamTree → State)
        → MatchOption result
        (bounded 64 (more_params d ps k) (toks marks.now) ≡ bounded 64 (k ps) (toks marks.now))
        (λ rest. bounded 64 (more_params d ps k) (toks marks.now) ≡ bounded 64 (want_param d
        (λ p. more_params d (ps ++ p ∷ []) k)) (toks rest.now)) }
    ensures fields { (d : ℕ) → d ≡ depth → (fs : Items FieldTree) (k : Items FieldTree → State)
        → MatchOption result
        (bounded 64 (more_fields d fs k) (toks marks.now) ≡ bounded 64 (k fs) (toks marks.now))
        (λ rest. bounded 64 (more_fields d fs k) (toks marks.now) ≡ bounded 64 (want_field d
        (λ f. more_fields d (fs ++ f ∷ []) k)) (toks rest.now)) }
    ensures names { (d : ℕ) → d ≡ depth → (ns : Items IdentTree) (k : Items IdentTree → State)
        → MatchOption result
        (bounded 64 (more_names d ns k) (toks marks.now) ≡ bounded 64 (k ns) (toks marks.now))
        (λ rest. bounded 64 (more_names d ns k) (toks marks.now) ≡ bounded 64 (want_name d
        (λ n. more_names d (ns ++ n ∷ []) k)) (toks rest.now)) }
    ensures shorter { IfSome result (λ rest. length rest.now < length marks.now) }
{
    let Some((_, rest)) = behind(marks, Symbol::Comma) else {
        return None;
    };
    Some(rest)
}

/// This symbol, which has to be next.
pub(crate) fn symbol(marks: Marks, symbol: Symbol, depth: u32) -> Result<(Span, Marks), Fault>
    requires { depth ≤ 64 }
    ensures reads { (d : ℕ) → d ≡ depth
        → (h : IsTrue (not (goes_on (symbol_terminal symbol)))) (k : SpanValue → State)
        → Gives result (bounded 64 (want_symbol symbol h d k) (toks marks.now))
        (λ x. bounded 64 (k x.0) (toks x.1.now)) }
    ensures shorter { IfOk result (λ x. length x.1.now < length marks.now) }
{
    match behind(marks, symbol) {
        Some((span, rest)) => Ok((span, rest)),
        None => Err(Fault::Syntax(marks.len())),
    }
}

/// This symbol, which has to be next, and may be nested too deep.
pub(crate) fn symbol_within(
    marks: Marks,
    symbol: Symbol,
    depth: u32,
) -> Result<(Span, Marks), Fault>
    ensures shallow { IfOk result (λ _. depth ≤ 64) }
    ensures shorter { IfOk result (λ x. length x.1.now < length marks.now) }
    ensures reads { (d : ℕ) → d ≡ depth
        → (h : IsTrue (not (goes_on (symbol_terminal symbol)))) (k : SpanValue → State)
        → Gives result (bounded 64 (want_symbol symbol h d k) (toks marks.now))
        (λ x. bounded 64 (k x.0) (toks x.1.now)) }
{
    let Some((span, rest)) = behind(marks, symbol) else {
        return Err(Fault::Syntax(marks.len()));
    };
    if depth > MAX_DEPTH {
        return Err(Fault::TooDeep(marks.len()));
    }
    Ok((span, rest))
}

/// A name, which has to be next.
pub(crate) fn name(alloc: Global, marks: Marks, depth: u32) -> Result<(Ident, Marks), Fault>
    ensures reads { (d : ℕ) → d ≡ depth → (k : IdentTree → State)
        → Gives result (bounded 64 (want_name d k) (toks marks.now))
        (λ x. bounded 64 (k (ident_view x.0)) (toks x.1.now)) }
    ensures shorter { IfOk result (λ x. length x.1.now < length marks.now) }
    ensures shallow { IfOk result (λ _. depth ≤ 64) }
{
    let Some((first, rest)) = marks.split_first() else {
        return Err(Fault::Syntax(0));
    };
    let Kind::Name(bytes) = first.kind else {
        return Err(Fault::Syntax(marks.len()));
    };
    if depth > MAX_DEPTH {
        return Err(Fault::TooDeep(marks.len()));
    }
    let name = Ident {
        text: copy_bytes(alloc, bytes)?,
        span: first.span,
    };
    Ok((name, rest))
}
