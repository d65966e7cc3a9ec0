//! Tokens between the parts of an expression.

ghost use Rattle.std.specs.Prelude.{List as Items};
ghost use Rattle.std.specs.Prelude.{◌≡◌, ℕ, suc, ◌<◌, ◌≤◌, [], ◌∷◌, ◌++◌, false, IsTrue, IfOk, IfSome, MatchOption, length, Option as Optional, Some, None};
ghost use Rattle.rp_span.specs.declared.Span.{Span as SpanValue};
ghost use Rattle.rp_grammar.specs.declared.terminal.Symbol.TheVariants as symbols;
ghost use Rattle.rp_grammar.specs.Trees.{Ident as IdentTree, TypeTree, ExprTree, ExprForm, ExprArmTree, StepTree, AccessTree};
ghost use Rattle.rp_grammar.specs.Parts.{Part, tree_of, join as join_spans};
ghost use Rattle.rp_grammar.specs.Exprs.{Quantifier, and_part, or_part, between};
ghost use Rattle.rp_ast.specs.View.{step_view};
ghost use Rattle.rp_tokens.specs.MachineStates.{State, want_prim, want_operand, more_and, more_or, more_implies, more_cmp, more_sum, more_exprs, more_expr_arms, have_bound, in_access};
ghost use Rattle.rp_tokens.specs.MachineExprs.{want_andx, want_expr, want_sum, want_expr_arm, want_step, in_args, not_called, comparison_symbol};
ghost use Rattle.rp_tokens.specs.Machine.{Bounded, bounded};
ghost use Rattle.rp_parser.specs.means.Marks.{toks, next_is};
ghost use Rattle.rp_parser.specs.means.Reading.{Gives, Stands, Within, left, next_of};
ghost use Rattle.rp_parser.specs.means.Signs.{sum_form, bound_next, step_next};

use crate::fault::Fault;
use crate::mark::{Kind, Marks, Rest};
use crate::next;
use crate::rest::{behind, name, optional_word};
use rp_ast::AccessStep;
use rp_ast::build::expr;
use rp_grammar::{CompareOp, Symbol, Word};
use rp_span::Span;
use std::alloc::Global;

/// Whether the next token ends an expression, so that no operator goes on with its first operand.
pub(crate) fn ends_expr(rest: Rest) -> bool
    ensures no_and { IsTrue result → next_of symbols.And rest.entry ≡ false }
    ensures no_or { IsTrue result → next_of symbols.Or rest.entry ≡ false }
    ensures no_implies { IsTrue result → next_of symbols.Implies rest.entry ≡ false }
    ensures reads { IsTrue result → (o : Bounded) (d : ℕ) (e : Part ExprTree)
        (k : Part ExprTree → State)
        → Stands rest.entry (more_and d e [] (λ f. more_or d f [] (λ a. more_implies d a k))) o
        → Stands rest.entry (k e) o }
{
    let Rest::Left(marks) = rest else {
        return true;
    };
    is_expr_end(marks)
}

fn is_expr_end(marks: Marks) -> bool
    ensures no_and { IsTrue result → next_is symbols.And (toks marks.now) ≡ false }
    ensures no_or { IsTrue result → next_is symbols.Or (toks marks.now) ≡ false }
    ensures no_implies { IsTrue result → next_is symbols.Implies (toks marks.now) ≡ false }
    ensures reads { IsTrue result → (d : ℕ) (e : Part ExprTree) (k : Part ExprTree → State)
        → bounded 64 (more_and d e [] (λ f. more_or d f [] (λ a. more_implies d a k)))
        (toks marks.now) ≡ bounded 64 (k e) (toks marks.now) }
{
    let Some((first, _)) = marks.split_first() else {
        return false;
    };
    match first.kind {
        Kind::Symbol(Symbol::CloseParen) => true,
        Kind::Symbol(Symbol::CloseBracket) => true,
        Kind::Symbol(Symbol::Comma) => true,
        Kind::Symbol(Symbol::Semicolon) => true,
        _ => false,
    }
}

/// Whether the next token ends a comparison, so that no operator of a sum and no comparison goes
/// on with its first operand.
pub(crate) fn ends_comparison(rest: Rest) -> bool
    ensures reads { IsTrue result → (o : Bounded) (d : ℕ) (a : Part ExprTree)
        (k : Part ExprTree → State)
        → Stands rest.entry (more_sum d a (λ b. more_cmp d b k)) o → Stands rest.entry (k a) o }
{
    let Rest::Left(marks) = rest else {
        return true;
    };
    is_comparison_end(marks)
}

fn is_comparison_end(marks: Marks) -> bool
    ensures reads { IsTrue result → (d : ℕ) (a : Part ExprTree) (k : Part ExprTree → State)
        → bounded 64 (more_sum d a (λ b. more_cmp d b k)) (toks marks.now)
        ≡ bounded 64 (k a) (toks marks.now) }
{
    let Some((first, _)) = marks.split_first() else {
        return false;
    };
    match first.kind {
        Kind::Symbol(Symbol::CloseParen) => true,
        Kind::Symbol(Symbol::CloseBracket) => true,
        Kind::Symbol(Symbol::Comma) => true,
        Kind::Symbol(Symbol::Semicolon) => true,
        Kind::Symbol(Symbol::And) => true,
        Kind::Symbol(Symbol::Or) => true,
        Kind::Symbol(Symbol::Implies) => true,
        _ => false,
    }
}

/// What follows `&&`, if that is next.
pub(crate) fn and_sign(rest: Rest, depth: u32) -> Option<Marks>
    requires { Within depth rest }
    ensures none { MatchOption result (next_of symbols.And rest.entry ≡ false) (λ _. Unit {0}) }
    ensures within { IfSome result (λ _. depth ≤ 64) }
    ensures shorter { IfSome result (λ after. length after.now < left rest.entry) }
    ensures reads { (o : Bounded) (d : ℕ) → d ≡ depth
        → (e : Part ExprTree) (es : Items (Part ExprTree)) (k : Part ExprTree → State)
        → Stands rest.entry (more_and d e es k) o
        → MatchOption result (Stands rest.entry (k (and_part e es)) o)
        (λ after. o ≡ bounded 64 (want_operand d (λ f. more_and d e (es ++ f ∷ []) k)) (toks after.now)) }
{
    let Some((_, after)) = behind(rest, Symbol::And) else {
        return None;
    };
    Some(after)
}

/// What follows `||`, if that is next.
pub(crate) fn or_sign(rest: Rest, depth: u32) -> Option<Marks>
    requires { Within depth rest }
    ensures none { MatchOption result (next_of symbols.Or rest.entry ≡ false) (λ _. Unit {0}) }
    ensures within { IfSome result (λ _. depth ≤ 64) }
    ensures shorter { IfSome result (λ after. length after.now < left rest.entry) }
    ensures reads { (o : Bounded) (d : ℕ) → d ≡ depth
        → (e : Part ExprTree) (es : Items (Part ExprTree)) (k : Part ExprTree → State)
        → Stands rest.entry (more_or d e es k) o
        → MatchOption result (Stands rest.entry (k (or_part e es)) o)
        (λ after. o ≡ bounded 64 (want_andx d (λ f. more_or d e (es ++ f ∷ []) k)) (toks after.now)) }
{
    let Some((_, after)) = behind(rest, Symbol::Or) else {
        return None;
    };
    Some(after)
}

/// What follows `==>`, if that is next.
pub(crate) fn implies_sign(rest: Rest, depth: u32) -> Option<Marks>
    requires { Within depth rest }
    ensures none { MatchOption result (next_of symbols.Implies rest.entry ≡ false) (λ _. Unit {0}) }
    ensures within { IfSome result (λ _. depth ≤ 64) }
    ensures shorter { IfSome result (λ after. length after.now < left rest.entry) }
    ensures reads { (o : Bounded) (d : ℕ) → d ≡ depth
        → (a : Part ExprTree) (k : Part ExprTree → State)
        → Stands rest.entry (more_implies d a k) o
        → MatchOption result (Stands rest.entry (k a) o)
        (λ after. o ≡ bounded 64 (want_expr (suc d)
        (λ b. k (between ExprForm.implies a b))) (toks after.now)) }
{
    let Some((_, after)) = behind(rest, Symbol::Implies) else {
        return None;
    };
    Some(after)
}

/// The operator of a sum.
#[derive(Clone, Copy)]
pub(crate) enum SumSign {
    Plus,
    Minus,
}

fn sum_symbol(marks: Marks) -> Option<(SumSign, Marks)>
    ensures shorter { IfSome result (λ x. length x.1.now < length marks.now) }
    ensures reads { (d : ℕ) → d ≤ 64 → (a : Part ExprTree) (k : Part ExprTree → State)
        → MatchOption result
        (bounded 64 (more_sum d a k) (toks marks.now) ≡ bounded 64 (k a) (toks marks.now))
        (λ x. bounded 64 (more_sum d a k) (toks marks.now) ≡ bounded 64 (want_prim (suc d)
        (λ b. more_sum (suc d) (between (sum_form x.0) a b) k)) (toks x.1.now)) }
{
    let Some((first, rest)) = marks.split_first() else {
        return None;
    };
    match first.kind {
        Kind::Symbol(Symbol::Plus) => Some((SumSign::Plus, rest)),
        Kind::Symbol(Symbol::Minus) => Some((SumSign::Minus, rest)),
        _ => None,
    }
}

/// An operator of a sum, if one is next.
pub(crate) fn sum_sign(rest: Rest, depth: u32) -> Option<(SumSign, Marks)>
    requires { Within depth rest }
    ensures within { IfSome result (λ _. depth ≤ 64) }
    ensures shorter { IfSome result (λ x. length x.1.now < left rest.entry) }
    ensures reads { (o : Bounded) (d : ℕ) → d ≡ depth → (a : Part ExprTree) (k : Part ExprTree → State)
        → Stands rest.entry (more_sum d a k) o → MatchOption result (Stands rest.entry (k a) o)
        (λ x. o ≡ bounded 64 (want_prim (suc d)
        (λ b. more_sum (suc d) (between (sum_form x.0) a b) k)) (toks x.1.now)) }
{
    let Rest::Left(marks) = rest else {
        return None;
    };
    sum_symbol(marks)
}

fn comparison(symbol: Symbol) -> Option<CompareOp>
    ensures { result ≡ comparison_symbol symbol }
{
    match symbol {
        Symbol::Equal => Some(CompareOp::Equal),
        Symbol::NotEqual => Some(CompareOp::NotEqual),
        Symbol::Less => Some(CompareOp::Less),
        Symbol::AtMost => Some(CompareOp::AtMost),
        Symbol::Greater => Some(CompareOp::Greater),
        Symbol::AtLeast => Some(CompareOp::AtLeast),
        _ => None,
    }
}

fn compare_symbol(marks: Marks) -> Option<(CompareOp, Marks)>
    ensures shorter { IfSome result (λ x. length x.1.now < length marks.now) }
    ensures reads { (d : ℕ) → d ≤ 64 → (a : Part ExprTree) (k : Part ExprTree → State)
        → MatchOption result
        (bounded 64 (more_cmp d a k) (toks marks.now) ≡ bounded 64 (k a) (toks marks.now))
        (λ x. bounded 64 (more_cmp d a k) (toks marks.now) ≡ bounded 64 (want_sum d
        (λ b. k (between (ExprForm.compare x.0) a b))) (toks x.1.now)) }
{
    let Some((first, rest)) = marks.split_first() else {
        return None;
    };
    let Kind::Symbol(symbol) = first.kind else {
        return None;
    };
    let Some(op) = comparison(symbol) else {
        return None;
    };
    Some((op, rest))
}

/// A comparison, if one is next.
pub(crate) fn compare_sign(rest: Rest, depth: u32) -> Option<(CompareOp, Marks)>
    requires { Within depth rest }
    ensures within { IfSome result (λ _. depth ≤ 64) }
    ensures shorter { IfSome result (λ x. length x.1.now < left rest.entry) }
    ensures reads { (o : Bounded) (d : ℕ) → d ≡ depth → (a : Part ExprTree) (k : Part ExprTree → State)
        → Stands rest.entry (more_cmp d a k) o → MatchOption result (Stands rest.entry (k a) o)
        (λ x. o ≡ bounded 64 (want_sum d
        (λ b. k (between (ExprForm.compare x.0) a b))) (toks x.1.now)) }
{
    let Rest::Left(marks) = rest else {
        return None;
    };
    compare_symbol(marks)
}

/// What follows a comma, if one is next; behind expressions or arms.
pub(crate) fn expr_comma(rest: Rest, depth: u32) -> Option<Marks>
    requires { Within depth rest }
    ensures within { IfSome result (λ _. depth ≤ 64) }
    ensures shorter { IfSome result (λ after. length after.now < left rest.entry) }
    ensures exprs { (o : Bounded) (d : ℕ) → d ≡ depth → (es : Items ExprTree) (k : Items ExprTree → State)
        → Stands rest.entry (more_exprs d es k) o → MatchOption result (Stands rest.entry (k es) o)
        (λ after. o ≡ bounded 64 (want_expr d
        (λ e. more_exprs d (es ++ tree_of e ∷ []) k)) (toks after.now)) }
    ensures arms { (o : Bounded) (d : ℕ) → d ≡ depth
        → (as_ : Items ExprArmTree) (k : Items ExprArmTree → State)
        → Stands rest.entry (more_expr_arms d as_ k) o
        → MatchOption result (Stands rest.entry (k as_) o)
        (λ after. o ≡ bounded 64 (want_expr_arm d
        (λ a. more_expr_arms d (as_ ++ a ∷ []) k)) (toks after.now)) }
{
    let Some((_, after)) = behind(rest, Symbol::Comma) else {
        return None;
    };
    Some(after)
}

/// What stands behind the type of a quantified variable.
#[derive(Clone, Copy)]
pub(crate) enum BoundSign {
    Body,
    Variable,
}

pub(crate) fn bound_sign(marks: Marks, depth: u32) -> Result<(BoundSign, Marks), Fault>
    requires { depth ≤ 64 }
    ensures shorter { IfOk result (λ x. length x.1.now < length marks.now) }
    ensures reads { (d : ℕ) → d ≡ depth
        → (q : Quantifier) (v : SpanValue) (n : IdentTree) (t : TypeTree) (k : Part ExprTree
        → State)
        → Gives result (bounded 64 (have_bound q d v n t k) (toks marks.now))
        (λ x. bounded 64 (bound_next q d v n t k x.0) (toks x.1.now)) }
{
    if let Some((_, rest)) = next::behind(marks, Symbol::DoubleColon) {
        return Ok((BoundSign::Body, rest));
    }
    match next::behind(marks, Symbol::Comma) {
        Some((_, rest)) => Ok((BoundSign::Variable, rest)),
        None => Err(Fault::Syntax(marks.len())),
    }
}

/// What begins a step of an access.
#[derive(Clone, Copy)]
pub(crate) enum StepSign {
    Dot,
    Key,
}

/// The first token of a step of an access, if one is next.
pub(crate) fn step_sign(rest: Rest, depth: u32) -> Option<(StepSign, Marks)>
    requires { Within depth rest }
    ensures no_dot { MatchOption result (next_of symbols.Dot rest.entry ≡ false) (λ _. Unit {0}) }
    ensures no_key { MatchOption result (next_of symbols.OpenBracket rest.entry ≡ false)
        (λ _. Unit {0}) }
    ensures within { IfSome result (λ _. depth ≤ 64) }
    ensures shorter { IfSome result (λ x. length x.1.now < left rest.entry) }
    ensures reads { (o : Bounded) (d : ℕ) → d ≡ depth
        → (n : IdentTree) (xs : Items StepTree) (v : SpanValue) (k : Part AccessTree → State)
        → Stands rest.entry (in_access d n xs v k) o
        → IfSome result (λ x. o ≡ bounded 64 (step_next d n xs v k x.0) (toks x.1.now)) }
{
    let Rest::Left(marks) = rest else {
        return None;
    };
    step_symbol(marks)
}

fn step_symbol(marks: Marks) -> Option<(StepSign, Marks)>
    ensures no_dot { MatchOption result (next_is symbols.Dot (toks marks.now) ≡ false)
        (λ _. Unit {0}) }
    ensures no_key { MatchOption result (next_is symbols.OpenBracket (toks marks.now) ≡ false)
        (λ _. Unit {0}) }
    ensures shorter { IfSome result (λ x. length x.1.now < length marks.now) }
    ensures reads { (d : ℕ) → d ≤ 64
        → (n : IdentTree) (xs : Items StepTree) (v : SpanValue) (k : Part AccessTree → State)
        → IfSome result (λ x. bounded 64 (in_access d n xs v k) (toks marks.now)
        ≡ bounded 64 (step_next d n xs v k x.0) (toks x.1.now)) }
{
    if let Some((_, rest)) = next::behind(marks, Symbol::Dot) {
        return Some((StepSign::Dot, rest));
    }
    let Some((_, rest)) = next::behind(marks, Symbol::OpenBracket) else {
        return None;
    };
    Some((StepSign::Key, rest))
}

/// What follows the opening parenthesis of an access's arguments, if that is next; behind its steps.
pub(crate) fn args_sign(rest: Rest, depth: u32) -> Option<Marks>
    requires within { Within depth rest }
    requires no_dot { next_of symbols.Dot rest ≡ false }
    requires no_key { next_of symbols.OpenBracket rest ≡ false }
    ensures within { IfSome result (λ _. depth ≤ 64) }
    ensures shorter { IfSome result (λ after. length after.now < left rest.entry) }
    ensures reads { (o : Bounded) (d : ℕ) → d ≡ depth
        → (n : IdentTree) (xs : Items StepTree) (v : SpanValue) (k : Part AccessTree → State)
        → Stands rest.entry (in_access d n xs v k) o
        → MatchOption result (Stands rest.entry (k (not_called n xs v)) o)
        (λ after. o ≡ bounded 64 (in_args d n xs v k) (toks after.now)) }
{
    let Rest::Left(marks) = rest else {
        return None;
    };
    args_symbol(marks)
}

fn args_symbol(marks: Marks) -> Option<Marks>
    requires no_dot { next_is symbols.Dot (toks marks.now) ≡ false }
    requires no_key { next_is symbols.OpenBracket (toks marks.now) ≡ false }
    ensures shorter { IfSome result (λ rest. length rest.now < length marks.now) }
    ensures reads { (d : ℕ) → d ≤ 64
        → (n : IdentTree) (xs : Items StepTree) (v : SpanValue) (k : Part AccessTree → State)
        → MatchOption result
        (bounded 64 (in_access d n xs v k) (toks marks.now)
        ≡ bounded 64 (k (not_called n xs v)) (toks marks.now))
        (λ rest. bounded 64 (in_access d n xs v k) (toks marks.now)
        ≡ bounded 64 (in_args d n xs v k) (toks rest.now)) }
{
    let Some((_, rest)) = next::behind(marks, Symbol::OpenParen) else {
        return None;
    };
    Some(rest)
}

/// What stands behind a dot: a name, or the word `returned`.
pub(crate) fn dot_step<'a>(
    alloc: Global,
    rest: Rest<'a>,
    depth: u32,
) -> (AccessStep, Span, Rest<'a>)
    requires { depth ≤ 64 }
    ensures within { Within depth result.2 }
    ensures no_longer { left result.2 ≤ left rest.entry }
    ensures reads { (o : Bounded) (d : ℕ) → d ≡ depth
        → (n : IdentTree) (xs : Items StepTree) (v : SpanValue) (k : Part AccessTree → State)
        → Stands rest.entry (want_step d n xs v k) o
        → Stands result.2 (in_access d n (xs ++ step_view result.0 ∷ []) (join_spans v result.1) k) o }
{
    if let Some((span, after)) = optional_word(rest, Word::Returned, depth) {
        return (expr::returned(span), span, Rest::Left(after));
    }
    let (name, after) = name(alloc, rest, depth);
    let span = name.span;
    (expr::dot(name), span, after)
}
