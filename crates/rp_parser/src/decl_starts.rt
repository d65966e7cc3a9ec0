//! What the first token of a declaration begins.

ghost use Rattle.std.specs.Prelude.{List as Items};
ghost use Rattle.std.specs.Prelude.{◌≡◌, ℕ, ◌<◌, [], ◌∷◌, ◌++◌, IfSome, MatchOption, Some, None, length};
ghost use Rattle.rp_span.specs.declared.Span.{Span as SpanValue};
ghost use Rattle.rp_grammar.specs.Trees.{ident, ConTree, DeclTree};
ghost use Rattle.rp_tokens.specs.MachineStates.{State, to, more_cons, in_decls};
ghost use Rattle.rp_tokens.specs.MachineDecls.{decl_word as decl_word_step, want_con, want_claim, in_invariant};
ghost use Rattle.rp_tokens.specs.Machine.{Bounded, bounded};
ghost use Rattle.rp_parser.specs.means.Marks.{toks};
ghost use Rattle.rp_parser.specs.means.Reading.{Stands, left};
ghost use Rattle.rp_parser.specs.means.DeclStarts.{decl_next, NoDecl};

use crate::mark::{Kind, Marks, Rest};
use crate::next;
use crate::rest::behind;
use rp_grammar::{Symbol, Word};
use rp_span::Span;

/// What a declaration begins with.
#[derive(Clone, Copy)]
pub(crate) enum DeclStart {
    IdType,
    Opaque,
    Datatype,
    Crdt,
    Query,
    Invariant,
    Proc,
}

fn decl_word(word: Word) -> Option<DeclStart>
    ensures { MatchOption result
        ((k : DeclTree → State) (s : SpanValue) → decl_word_step k word s ≡ None)
        (λ t. (k : DeclTree → State) (s : SpanValue)
        → decl_word_step k word s ≡ Some (to 0 (decl_next k s t))) }
{
    match word {
        Word::IdType => Some(DeclStart::IdType),
        Word::Type => Some(DeclStart::Opaque),
        Word::Datatype => Some(DeclStart::Datatype),
        Word::Crdt => Some(DeclStart::Crdt),
        Word::Query => Some(DeclStart::Query),
        Word::Invariant => Some(DeclStart::Invariant),
        Word::Proc => Some(DeclStart::Proc),
        _ => None,
    }
}

/// The first token of a declaration, if one is next.
pub(crate) fn decl_sign(marks: Marks) -> Option<(DeclStart, Span, Marks)>
    ensures none { MatchOption result (NoDecl marks.now) (λ _. Unit {0}) }
    ensures shorter { IfSome result (λ x. length x.2.now < length marks.now) }
    ensures reads { (xs : Items DeclTree)
        → IfSome result (λ x. bounded 64 (in_decls xs) (toks marks.now) ≡ bounded 64 (decl_next
        (λ y. in_decls (xs ++ y ∷ [])) x.1 x.0) (toks x.2.now)) }
{
    let Some((first, rest)) = marks.split_first() else {
        return None;
    };
    let Kind::Word(word) = first.kind else {
        return None;
    };
    let Some(start) = decl_word(word) else {
        return None;
    };
    Some((start, first.span, rest))
}

/// What follows `|`, if that is next.
pub(crate) fn bar_sign(rest: Rest) -> Option<Marks>
    ensures shorter { IfSome result (λ after. length after.now < left rest.entry) }
    ensures reads { (o : Bounded) (cs : Items ConTree) (k : Items ConTree → State)
        → Stands rest.entry (more_cons cs k) o → MatchOption result (Stands rest.entry (k cs) o)
        (λ after. o ≡ bounded 64 (want_con (λ c. more_cons (cs ++ c ∷ []) k)) (toks after.now)) }
{
    let Some((_, after)) = behind(rest, Symbol::Bar) else {
        return None;
    };
    Some(after)
}

/// The name of an invariant and its colon, if these are next.
pub(crate) fn claim_sign(rest: Rest) -> Option<(&[u8], Span, Marks)>
    ensures shorter { IfSome result (λ x. length x.2.now < left rest.entry) }
    ensures reads { (o : Bounded) (s : SpanValue) (k : DeclTree → State)
        → Stands rest.entry (in_invariant s k) o
        → MatchOption result (Stands rest.entry (want_claim s None k) o)
        (λ x. o ≡ bounded 64 (want_claim s (Some (ident x.0.now x.1)) k) (toks x.2.now)) }
{
    let Rest::Left(marks) = rest else {
        return None;
    };
    claim_marks(marks)
}

fn claim_marks(marks: Marks) -> Option<(&[u8], Span, Marks)>
    ensures shorter { IfSome result (λ x. length x.2.now < length marks.now) }
    ensures reads { (s : SpanValue) (k : DeclTree → State)
        → MatchOption result
        (bounded 64 (in_invariant s k) (toks marks.now)
        ≡ bounded 64 (want_claim s None k) (toks marks.now))
        (λ x. bounded 64 (in_invariant s k) (toks marks.now)
        ≡ bounded 64 (want_claim s (Some (ident x.0.now x.1)) k) (toks x.2.now)) }
{
    let Some((first, rest)) = marks.split_first() else {
        return None;
    };
    let Kind::Name(bytes) = first.kind else {
        return None;
    };
    let Some((_, after)) = next::behind(rest, Symbol::Colon) else {
        return None;
    };
    Some((bytes, first.span, after))
}
