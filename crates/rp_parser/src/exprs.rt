//! Expressions: chains of operands, and quantifiers.

ghost use Rattle.std.specs.Prelude.{◌≡◌, ℕ, suc, ◌≤◌, [], ◌∷◌, false};
ghost use Rattle.rp_span.specs.declared.Span.{Span as SpanValue};
ghost use Rattle.rp_grammar.specs.declared.terminal.Symbol.TheVariants as symbols;
ghost use Rattle.rp_grammar.specs.Trees.{TypeTree, Ident as IdentTree, ExprTree};
ghost use Rattle.rp_grammar.specs.Parts.{Part, part};
ghost use Rattle.rp_grammar.specs.Exprs.{quantifier_part, not_part};
ghost use Rattle.rp_ast.specs.View.{ident_view, expr_view};
ghost use Rattle.rp_tokens.specs.MachineStates.{State, ident_span, want_name, want_operand, more_and, more_or, more_implies, have_bound};
ghost use Rattle.rp_tokens.specs.MachineExprs.{want_andx, want_expr, want_bound, want_quant};
ghost use Rattle.rp_tokens.specs.Machine.{Bounded};
ghost use Rattle.rp_parser.specs.means.Reading.{Stands, Within, left, next_of};
ghost use Rattle.rp_parser.specs.means.ExprStarts.{quantifier_of};

use crate::expr_starts::{OperandStart, QuantifierKind, operand_first};
use crate::leaves::{extended, no_expr, quantified};
use crate::mark::Rest;
use crate::next::join;
use crate::rest::{name, nowhere, pushed, symbol_within};
use crate::signs::{BoundSign, and_sign, bound_sign, ends_expr, implies_sign, or_sign};
use crate::sums::read_comparison;
use crate::types::read_type;
use rp_ast::build::expr;
use rp_ast::{ExprNode, Ident, Param};
use rp_grammar::Symbol;
use rp_span::Span;
use rp_value::List;
use std::alloc::Global;

#[cycle(exprs)]
pub(crate) fn read_expr<'a>(alloc: Global, rest: Rest<'a>, depth: u32) -> (ExprNode, Span, Rest<'a>)
    requires { depth ≤ 65 }
    ensures within { Within depth result.2 }
    ensures no_longer { left result.2 ≤ left rest.entry }
    ensures no_and { next_of symbols.And result.2 ≡ false }
    ensures no_or { next_of symbols.Or result.2 ≡ false }
    ensures no_implies { next_of symbols.Implies result.2 ≡ false }
    ensures reads { (o : Bounded) (d : ℕ) → d ≡ depth → (k : Part ExprTree → State)
        → Stands rest.entry (want_expr d k) o
        → Stands result.2 (k (part (expr_view result.0) result.1)) o }
{
    let (first, extent, after) = read_operand(alloc, rest, depth);
    if ends_expr(after) {
        return (first, extent, after);
    }
    read_expr_behind(alloc, first, extent, after, depth)
}

/// The rest of an expression, behind its first operand.
#[cycle(exprs)]
#[inline(never)]
fn read_expr_behind<'a>(
    alloc: Global,
    first: ExprNode,
    first_extent: Span,
    rest: Rest<'a>,
    depth: u32,
) -> (ExprNode, Span, Rest<'a>)
    requires few { depth ≤ 65 }
    requires within { Within depth rest }
    ensures within { Within depth result.2 }
    ensures no_longer { left result.2 ≤ left rest.entry }
    ensures no_and { next_of symbols.And result.2 ≡ false }
    ensures no_or { next_of symbols.Or result.2 ≡ false }
    ensures no_implies { next_of symbols.Implies result.2 ≡ false }
    ensures reads { (o : Bounded) (d : ℕ) → d ≡ depth → (k : Part ExprTree → State)
        → Stands rest.entry (more_and d (part (expr_view first) first_extent) []
        (λ e. more_or d e [] (λ a. more_implies d a k))) o
        → Stands result.2 (k (part (expr_view result.0) result.1)) o }
{
    let (left, extent, after) = read_or_behind(alloc, first, first_extent, rest, depth);
    let Some(behind) = implies_sign(after, depth) else {
        return (left, extent, after);
    };
    let (right, right_extent, end) = read_expr(alloc, Rest::Left(behind), depth + 1);
    let span = join(extent, right_extent);
    let node = expr::implies(alloc, span, left, right);
    extended(node, span, end)
}

/// The rest of a chain by `||`, behind the first operand of its first member.
#[cycle(exprs)]
fn read_or_behind<'a>(
    alloc: Global,
    first: ExprNode,
    first_extent: Span,
    rest: Rest<'a>,
    depth: u32,
) -> (ExprNode, Span, Rest<'a>)
    requires few { depth ≤ 65 }
    requires within { Within depth rest }
    ensures within { Within depth result.2 }
    ensures no_longer { left result.2 ≤ left rest.entry }
    ensures no_and { next_of symbols.And result.2 ≡ false }
    ensures no_or { next_of symbols.Or result.2 ≡ false }
    ensures reads { (o : Bounded) (d : ℕ) → d ≡ depth → (k : Part ExprTree → State)
        → Stands rest.entry (more_and d (part (expr_view first) first_extent) [] (λ e. more_or d e [] k)) o
        → Stands result.2 (k (part (expr_view result.0) result.1)) o }
{
    let (member, extent, after) = read_and_behind(alloc, first, first_extent, rest, depth);
    let Some(behind) = or_sign(after, depth) else {
        return (member, extent, after);
    };
    read_or_chain(alloc, member, extent, Rest::Left(behind), depth)
}

/// The rest of a chain, behind its first member and the operator.
#[cycle(exprs)]
fn read_or_chain<'a>(
    alloc: Global,
    first: ExprNode,
    first_extent: Span,
    rest: Rest<'a>,
    depth: u32,
) -> (ExprNode, Span, Rest<'a>)
    requires { depth ≤ 64 }
    ensures within { Within depth result.2 }
    ensures no_longer { left result.2 ≤ left rest.entry }
    ensures no_and { next_of symbols.And result.2 ≡ false }
    ensures no_or { next_of symbols.Or result.2 ≡ false }
    ensures reads { (o : Bounded) (d : ℕ) → d ≡ depth → (k : Part ExprTree → State)
        → Stands rest.entry (want_andx d
        (λ f. more_or d (part (expr_view first) first_extent) (f ∷ []) k)) o
        → Stands result.2 (k (part (expr_view result.0) result.1)) o }
{
    let mut members = List::new(alloc);
    let (second, second_extent, after) = read_and(alloc, rest, depth);
    let after = pushed(&mut members, first, after);
    let mut behind = pushed(&mut members, second, after);
    let mut extent = join(first_extent, second_extent);
    'members: loop {
        let Some(after) = or_sign(behind, depth) else {
            return (expr::or(extent, members), extent, behind);
        };
        let (member, member_extent, end) = read_and(alloc, Rest::Left(after), depth);
        behind = pushed(&mut members, member, end);
        extent = join(extent, member_extent);
    }
}

#[cycle(exprs)]
fn read_and<'a>(alloc: Global, rest: Rest<'a>, depth: u32) -> (ExprNode, Span, Rest<'a>)
    requires { depth ≤ 65 }
    ensures within { Within depth result.2 }
    ensures no_longer { left result.2 ≤ left rest.entry }
    ensures no_and { next_of symbols.And result.2 ≡ false }
    ensures reads { (o : Bounded) (d : ℕ) → d ≡ depth → (k : Part ExprTree → State)
        → Stands rest.entry (want_andx d k) o
        → Stands result.2 (k (part (expr_view result.0) result.1)) o }
{
    let (first, first_extent, after) = read_operand(alloc, rest, depth);
    read_and_behind(alloc, first, first_extent, after, depth)
}

/// The rest of a chain by `&&`, behind its first member.
#[cycle(exprs)]
fn read_and_behind<'a>(
    alloc: Global,
    first: ExprNode,
    first_extent: Span,
    rest: Rest<'a>,
    depth: u32,
) -> (ExprNode, Span, Rest<'a>)
    requires few { depth ≤ 65 }
    requires within { Within depth rest }
    ensures within { Within depth result.2 }
    ensures no_longer { left result.2 ≤ left rest.entry }
    ensures no_and { next_of symbols.And result.2 ≡ false }
    ensures reads { (o : Bounded) (d : ℕ) → d ≡ depth → (k : Part ExprTree → State)
        → Stands rest.entry (more_and d (part (expr_view first) first_extent) [] k) o
        → Stands result.2 (k (part (expr_view result.0) result.1)) o }
{
    let Some(after) = and_sign(rest, depth) else {
        return (first, first_extent, rest);
    };
    read_and_chain(alloc, first, first_extent, Rest::Left(after), depth)
}

/// The rest of a chain, behind its first member and the operator.
#[cycle(exprs)]
fn read_and_chain<'a>(
    alloc: Global,
    first: ExprNode,
    first_extent: Span,
    rest: Rest<'a>,
    depth: u32,
) -> (ExprNode, Span, Rest<'a>)
    requires { depth ≤ 64 }
    ensures within { Within depth result.2 }
    ensures no_longer { left result.2 ≤ left rest.entry }
    ensures no_and { next_of symbols.And result.2 ≡ false }
    ensures reads { (o : Bounded) (d : ℕ) → d ≡ depth → (k : Part ExprTree → State)
        → Stands rest.entry (want_operand d
        (λ f. more_and d (part (expr_view first) first_extent) (f ∷ []) k)) o
        → Stands result.2 (k (part (expr_view result.0) result.1)) o }
{
    let mut members = List::new(alloc);
    let (second, second_extent, after) = read_operand(alloc, rest, depth);
    let after = pushed(&mut members, first, after);
    let mut behind = pushed(&mut members, second, after);
    let mut extent = join(first_extent, second_extent);
    'members: loop {
        let Some(after) = and_sign(behind, depth) else {
            return (expr::and(extent, members), extent, behind);
        };
        let (member, member_extent, end) = read_operand(alloc, Rest::Left(after), depth);
        behind = pushed(&mut members, member, end);
        extent = join(extent, member_extent);
    }
}

#[cycle(exprs)]
fn read_operand<'a>(alloc: Global, rest: Rest<'a>, depth: u32) -> (ExprNode, Span, Rest<'a>)
    requires { depth ≤ 65 }
    ensures within { Within depth result.2 }
    ensures no_longer { left result.2 ≤ left rest.entry }
    ensures reads { (o : Bounded) (d : ℕ) → d ≡ depth → (k : Part ExprTree → State)
        → Stands rest.entry (want_operand d k) o
        → Stands result.2 (k (part (expr_view result.0) result.1)) o }
{
    let Rest::Left(marks) = rest else {
        return (no_expr(), nowhere(), rest);
    };
    match operand_first(marks, depth) {
        Ok((start, after)) => match start {
            OperandStart::Not(span) => read_not(alloc, span, Rest::Left(after), depth),
            OperandStart::Quantifier(quantifier, span) => {
                read_quantified(alloc, quantifier, span, Rest::Left(after), depth)
            }
            OperandStart::Comparison => read_comparison(alloc, Rest::Left(after), depth),
        },
        Err(fault) => (no_expr(), nowhere(), Rest::Failed(fault)),
    }
}

/// The operand of a `!` at `start`.
#[cycle(exprs)]
fn read_not<'a>(
    alloc: Global,
    start: Span,
    rest: Rest<'a>,
    depth: u32,
) -> (ExprNode, Span, Rest<'a>)
    requires { depth ≤ 64 }
    ensures within { Within depth result.2 }
    ensures no_longer { left result.2 ≤ left rest.entry }
    ensures reads { (o : Bounded) (d : ℕ) → d ≡ depth → (k : Part ExprTree → State)
        → Stands rest.entry (want_operand (suc d) (λ e. k (not_part start e))) o
        → Stands result.2 (k (part (expr_view result.0) result.1)) o }
{
    let (operand, extent, end) = read_operand(alloc, rest, depth + 1);
    let span = join(start, extent);
    let node = expr::not(alloc, span, operand);
    extended(node, span, end)
}

/// A quantified expression, behind its word at `start`.
#[cycle(exprs)]
fn read_quantified<'a>(
    alloc: Global,
    quantifier: QuantifierKind,
    start: Span,
    rest: Rest<'a>,
    depth: u32,
) -> (ExprNode, Span, Rest<'a>)
    requires { depth ≤ 64 }
    ensures within { Within depth result.2 }
    ensures no_longer { left result.2 ≤ left rest.entry }
    ensures reads { (o : Bounded) (d : ℕ) → d ≡ depth → (k : Part ExprTree → State)
        → Stands rest.entry (want_quant (quantifier_of quantifier) d start k) o
        → Stands result.2 (k (part (expr_view result.0) result.1)) o }
{
    let (name, after) = name(alloc, rest, depth + 1);
    read_bound(alloc, quantifier, start, name, after, depth + 1)
}

/// The type of a quantified variable and what follows it, in a node that starts at `start`.
#[cycle(exprs)]
fn read_bound<'a>(
    alloc: Global,
    quantifier: QuantifierKind,
    start: Span,
    name: Ident,
    rest: Rest<'a>,
    depth: u32,
) -> (ExprNode, Span, Rest<'a>)
    requires { depth ≤ 65 }
    ensures within { Within depth result.2 }
    ensures no_longer { left result.2 ≤ left rest.entry }
    ensures no_and { next_of symbols.And result.2 ≡ false }
    ensures no_or { next_of symbols.Or result.2 ≡ false }
    ensures no_implies { next_of symbols.Implies result.2 ≡ false }
    ensures reads { (o : Bounded) (d : ℕ) → d ≡ depth → (k : Part ExprTree → State)
        → Stands rest.entry (want_bound (quantifier_of quantifier) d start (ident_view name) k) o
        → Stands result.2 (k (part (expr_view result.0) result.1)) o }
{
    let (_, after) = symbol_within(rest, Symbol::Colon, depth);
    let (ty, after) = read_type(alloc, after, depth);
    let (body, extent, end) = read_scope(alloc, quantifier, after, depth);
    let span = join(start, extent);
    let variable = Param { name, ty };
    let node = quantified(alloc, quantifier, span, variable, body);
    extended(node, span, end)
}

/// What follows a quantified variable: a further one, or the body.
#[cycle(exprs)]
fn read_scope<'a>(
    alloc: Global,
    quantifier: QuantifierKind,
    rest: Rest<'a>,
    depth: u32,
) -> (ExprNode, Span, Rest<'a>)
    requires few { depth ≤ 65 }
    requires within { Within depth rest }
    ensures within { Within depth result.2 }
    ensures no_longer { left result.2 ≤ left rest.entry }
    ensures no_and { next_of symbols.And result.2 ≡ false }
    ensures no_or { next_of symbols.Or result.2 ≡ false }
    ensures no_implies { next_of symbols.Implies result.2 ≡ false }
    ensures reads { (o : Bounded) (d : ℕ) → d ≡ depth →
        (v : SpanValue) (n : IdentTree) (t : TypeTree) (k : Part ExprTree → State)
        → Stands rest.entry (have_bound (quantifier_of quantifier) d v n t k) o
        → Stands result.2 (k (quantifier_part (quantifier_of quantifier) v n t
        (part (expr_view result.0) result.1))) o }
{
    let Rest::Left(marks) = rest else {
        return (no_expr(), nowhere(), rest);
    };
    match bound_sign(marks, depth) {
        Ok((sign, after)) => match sign {
            BoundSign::Body => read_expr(alloc, Rest::Left(after), depth),
            BoundSign::Variable => read_further(alloc, quantifier, Rest::Left(after), depth),
        },
        Err(fault) => (no_expr(), nowhere(), Rest::Failed(fault)),
    }
}

/// A further quantified variable and what follows it.
#[cycle(exprs)]
fn read_further<'a>(
    alloc: Global,
    quantifier: QuantifierKind,
    rest: Rest<'a>,
    depth: u32,
) -> (ExprNode, Span, Rest<'a>)
    requires { depth ≤ 64 }
    ensures within { Within depth result.2 }
    ensures no_longer { left result.2 ≤ left rest.entry }
    ensures no_and { next_of symbols.And result.2 ≡ false }
    ensures no_or { next_of symbols.Or result.2 ≡ false }
    ensures no_implies { next_of symbols.Implies result.2 ≡ false }
    ensures reads { (o : Bounded) (d : ℕ) → d ≡ depth → (k : Part ExprTree → State)
        → Stands rest.entry (want_name d
        (λ n. want_bound (quantifier_of quantifier) (suc d) (ident_span n) n k)) o
        → Stands result.2 (k (part (expr_view result.0) result.1)) o }
{
    let (name, after) = name(alloc, rest, depth);
    let start = name.span;
    read_bound(alloc, quantifier, start, name, after, depth + 1)
}
