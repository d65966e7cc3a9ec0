//! Comparisons and sums, and the operands of sums.

ghost use Rattle.std.specs.Prelude.{◌≡◌, ℕ, pos, neg_ℤ, ◌≤◌};
ghost use Rattle.rp_grammar.specs.Trees.{ExprTree, ExprForm};
ghost use Rattle.rp_grammar.specs.Parts.{Part, part, built, join as join_spans};
ghost use Rattle.rp_ast.specs.View.{expr_view};
ghost use Rattle.rp_tokens.specs.MachineStates.{State, want_int, want_prim, more_cmp, more_sum};
ghost use Rattle.rp_tokens.specs.MachineExprs.{want_sum};
ghost use Rattle.rp_tokens.specs.Machine.{Bounded};
ghost use Rattle.rp_parser.specs.means.Reading.{Stands, Within, left};
ghost use Rattle.rp_parser.specs.means.ExprStarts.{want_comparison, prim_next};

use crate::expr_starts::{PrimStart, prim_first};
use crate::leaves::{extended, leaf_node, negative, no_expr, sum};
use crate::mark::Rest;
use crate::next::join;
use crate::operands::{read_call, read_match, read_name, read_paren, read_some};
use crate::rest::{nowhere, number};
use crate::signs::{compare_sign, ends_comparison, sum_sign};
use rp_ast::ExprNode;
use rp_ast::build::expr;
use rp_span::Span;
use std::alloc::Global;

#[cycle(exprs)]
pub(crate) fn read_comparison<'a>(
    alloc: Global,
    rest: Rest<'a>,
    depth: u32,
) -> (ExprNode, Span, Rest<'a>)
    requires { depth ≤ 65 }
    ensures within { Within depth result.2 }
    ensures no_longer { left result.2 ≤ left rest.entry }
    ensures reads { (o : Bounded) (d : ℕ) → d ≡ depth → (k : Part ExprTree → State)
        → Stands rest.entry (want_comparison d k) o
        → Stands result.2 (k (part (expr_view result.0) result.1)) o }
{
    let (first, extent, after) = read_prim(alloc, rest, depth);
    if ends_comparison(after) {
        return (first, extent, after);
    }
    read_comparison_behind(alloc, first, extent, after, depth)
}

/// The rest of a comparison, behind the first operand of its left sum.
#[cycle(exprs)]
#[inline(never)]
fn read_comparison_behind<'a>(
    alloc: Global,
    first: ExprNode,
    first_extent: Span,
    rest: Rest<'a>,
    depth: u32,
) -> (ExprNode, Span, Rest<'a>)
    requires few { depth ≤ 65 }
    requires within { Within depth rest }
    ensures within { Within depth result.2 }
    ensures no_longer { left result.2 ≤ left rest.entry }
    ensures reads { (o : Bounded) (d : ℕ) → d ≡ depth → (k : Part ExprTree → State)
        → Stands rest.entry (more_sum d (part (expr_view first) first_extent) (λ a. more_cmp d a k)) o
        → Stands result.2 (k (part (expr_view result.0) result.1)) o }
{
    let (left, extent, after) = read_sum_behind(alloc, first, first_extent, rest, depth);
    let Some((op, behind)) = compare_sign(after, depth) else {
        return (left, extent, after);
    };
    let (right, right_extent, end) = read_sum(alloc, Rest::Left(behind), depth);
    let span = join(extent, right_extent);
    let node = expr::compare(alloc, span, op, left, right);
    extended(node, span, end)
}

#[cycle(exprs)]
fn read_sum<'a>(alloc: Global, rest: Rest<'a>, depth: u32) -> (ExprNode, Span, Rest<'a>)
    requires { depth ≤ 65 }
    ensures within { Within depth result.2 }
    ensures no_longer { left result.2 ≤ left rest.entry }
    ensures reads { (o : Bounded) (d : ℕ) → d ≡ depth → (k : Part ExprTree → State)
        → Stands rest.entry (want_sum d k) o
        → Stands result.2 (k (part (expr_view result.0) result.1)) o }
{
    let (first, extent, after) = read_prim(alloc, rest, depth);
    read_sum_behind(alloc, first, extent, after, depth)
}

/// The rest of a sum, behind its first operand.
#[cycle(exprs)]
fn read_sum_behind<'a>(
    alloc: Global,
    first: ExprNode,
    first_extent: Span,
    rest: Rest<'a>,
    depth: u32,
) -> (ExprNode, Span, Rest<'a>)
    requires few { depth ≤ 65 }
    requires within { Within depth rest }
    ensures within { Within depth result.2 }
    ensures no_longer { left result.2 ≤ left rest.entry }
    ensures reads { (o : Bounded) (d : ℕ) → d ≡ depth → (k : Part ExprTree → State)
        → Stands rest.entry (more_sum d (part (expr_view first) first_extent) k) o
        → Stands result.2 (k (part (expr_view result.0) result.1)) o }
{
    let Some((sign, after)) = sum_sign(rest, depth) else {
        return (first, first_extent, rest);
    };
    let (right, right_extent, end) = read_prim(alloc, Rest::Left(after), depth + 1);
    let span = join(first_extent, right_extent);
    let node = sum(alloc, span, sign, first, right);
    let (left, extent, end) = extended(node, span, end);
    read_sum_behind(alloc, left, extent, end, depth + 1)
}

/// An operand of a sum.
#[cycle(exprs)]
fn read_prim<'a>(alloc: Global, rest: Rest<'a>, depth: u32) -> (ExprNode, Span, Rest<'a>)
    requires { depth ≤ 65 }
    ensures within { Within depth result.2 }
    ensures no_longer { left result.2 ≤ left rest.entry }
    ensures reads { (o : Bounded) (d : ℕ) → d ≡ depth → (k : Part ExprTree → State)
        → Stands rest.entry (want_prim d k) o
        → Stands result.2 (k (part (expr_view result.0) result.1)) o }
{
    let Rest::Left(marks) = rest else {
        return (no_expr(), nowhere(), rest);
    };
    match prim_first(marks, depth) {
        Ok((start, span, after)) => read_prim_behind(alloc, start, span, Rest::Left(after), depth),
        Err(fault) => (no_expr(), nowhere(), Rest::Failed(fault)),
    }
}

/// An operand of a sum, behind its first token at `start_span`.
#[cycle(exprs)]
fn read_prim_behind<'a>(
    alloc: Global,
    start: PrimStart,
    start_span: Span,
    rest: Rest<'a>,
    depth: u32,
) -> (ExprNode, Span, Rest<'a>)
    requires { depth ≤ 64 }
    ensures within { Within depth result.2 }
    ensures no_longer { left result.2 ≤ left rest.entry }
    ensures reads { (o : Bounded) (d : ℕ) → d ≡ depth → (k : Part ExprTree → State)
        → Stands rest.entry (prim_next d k start_span start.entry) o
        → Stands result.2 (k (part (expr_view result.0) result.1)) o }
{
    match start {
        PrimStart::Leaf(leaf) => {
            let node = leaf_node(alloc, start_span, leaf);
            extended(node, start_span, rest)
        }
        PrimStart::Minus => read_negative(alloc, start_span, rest, depth),
        PrimStart::Some => read_some(alloc, start_span, rest, depth),
        PrimStart::Call(word) => read_call(alloc, start_span, word, rest, depth),
        PrimStart::Match => read_match(alloc, start_span, rest, depth),
        PrimStart::Name(bytes) => read_name(alloc, start_span, bytes, rest, depth),
        PrimStart::Paren => read_paren(alloc, start_span, rest, depth),
    }
}

/// The number behind a minus at `start`.
fn read_negative<'a>(
    alloc: Global,
    start: Span,
    rest: Rest<'a>,
    depth: u32,
) -> (ExprNode, Span, Rest<'a>)
    requires { depth ≤ 64 }
    ensures within { Within depth result.2 }
    ensures no_longer { left result.2 ≤ left rest.entry }
    ensures reads { (o : Bounded) (d : ℕ) → d ≡ depth → (k : Part ExprTree → State)
        → Stands rest.entry (want_int d
        (λ i t. k (built (join_spans start t) (ExprForm.int (neg_ℤ (pos i)))))) o
        → Stands result.2 (k (part (expr_view result.0) result.1)) o }
{
    let (value, close, end) = number(rest, depth);
    let span = join(start, close);
    let node = negative(alloc, span, value);
    extended(node, span, end)
}
