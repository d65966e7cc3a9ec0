//! Operands of sums of several tokens.

ghost use Rattle.std.specs.Prelude.{List as Items};
ghost use Rattle.std.specs.Prelude.{◌≡◌, ℕ, ◌≤◌, [], map};
ghost use Rattle.rp_span.specs.declared.Span.{Span as SpanValue};
ghost use Rattle.rp_grammar.specs.Trees.{ident as ident_tree, ExprTree, ExprForm, ExprArmTree};
ghost use Rattle.rp_grammar.specs.Parts.{Part, part, tree_of, built, in_parens, join as join_spans};
ghost use Rattle.rp_ast.specs.View.{expr_view, expr_arm_view};
ghost use Rattle.rp_tokens.specs.MachineStates.{State, in_access};
ghost use Rattle.rp_tokens.specs.MachineExprs.{want_closed, want_parens, want_exprs, want_args, want_call, access_part, want_match, want_expr_arm, want_expr_arms};
ghost use Rattle.rp_tokens.specs.Machine.{Bounded};
ghost use Rattle.rp_parser.specs.means.Reading.{Stands, Within, left};

use crate::accesses::read_access;
use crate::exprs::read_expr;
use crate::leaves::{extended, ident};
use crate::mark::Rest;
use crate::next::join;
use crate::patterns::read_arm_pattern;
use crate::rest::{made, no_name, pushed, symbol};
use crate::signs::expr_comma;
use rp_ast::build::expr;
use rp_ast::{ExprArm, ExprNode};
use rp_grammar::{CallWord, Symbol};
use rp_span::Span;
use rp_value::List;
use std::alloc::Global;

/// What follows the word `Some` at `start`.
#[cycle(exprs)]
pub(crate) fn read_some<'a>(
    alloc: Global,
    start: Span,
    rest: Rest<'a>,
    depth: u32,
) -> (ExprNode, Span, Rest<'a>)
    requires { depth ≤ 64 }
    ensures within { Within depth result.2 }
    ensures no_longer { left result.2 ≤ left rest.entry }
    ensures reads { (o : Bounded) (d : ℕ) → d ≡ depth → (k : Part ExprTree → State)
        → Stands rest.entry (want_parens d
        (λ e c. k (built (join_spans start c) (ExprForm.some_of (tree_of e))))) o
        → Stands result.2 (k (part (expr_view result.0) result.1)) o }
{
    let (_, inside) = symbol(rest, Symbol::OpenParen, depth);
    let (value, _extent, close, end) = read_closed(alloc, inside, depth);
    let span = join(start, close);
    let node = expr::some_of(alloc, span, value);
    extended(node, span, end)
}

/// The arguments of a call, behind its word at `start`.
#[cycle(exprs)]
pub(crate) fn read_call<'a>(
    alloc: Global,
    start: Span,
    word: CallWord,
    rest: Rest<'a>,
    depth: u32,
) -> (ExprNode, Span, Rest<'a>)
    requires { depth ≤ 64 }
    ensures within { Within depth result.2 }
    ensures no_longer { left result.2 ≤ left rest.entry }
    ensures reads { (o : Bounded) (d : ℕ) → d ≡ depth → (k : Part ExprTree → State)
        → Stands rest.entry (want_call d word start k) o
        → Stands result.2 (k (part (expr_view result.0) result.1)) o }
{
    let (_, inside) = symbol(rest, Symbol::OpenParen, depth);
    let (args, close, end) = read_args(alloc, inside, depth);
    let span = join(start, close);
    (expr::call(span, word, args), span, end)
}

/// An access, behind its root at `start`.
#[cycle(exprs)]
pub(crate) fn read_name<'a>(
    alloc: Global,
    start: Span,
    bytes: &[u8],
    rest: Rest<'a>,
    depth: u32,
) -> (ExprNode, Span, Rest<'a>)
    requires { depth ≤ 64 }
    ensures within { Within depth result.2 }
    ensures no_longer { left result.2 ≤ left rest.entry }
    ensures reads { (o : Bounded) (d : ℕ) → d ≡ depth → (k : Part ExprTree → State)
        → Stands rest.entry (in_access d (ident_tree bytes.now start) [] start
        (λ a. k (access_part a))) o
        → Stands result.2 (k (part (expr_view result.0) result.1)) o }
{
    let root = ident(alloc, start, bytes);
    let (root, after) = made(root, no_name(alloc), rest);
    let (access, extent, end) = read_access(alloc, root, after, depth);
    let node = expr::access(alloc, extent, access);
    extended(node, extent, end)
}

/// An expression in parentheses, behind the opening one at `start`, with their span as its extent.
#[cycle(exprs)]
pub(crate) fn read_paren<'a>(
    alloc: Global,
    start: Span,
    rest: Rest<'a>,
    depth: u32,
) -> (ExprNode, Span, Rest<'a>)
    requires { depth ≤ 64 }
    ensures within { Within depth result.2 }
    ensures no_longer { left result.2 ≤ left rest.entry }
    ensures reads { (o : Bounded) (d : ℕ) → d ≡ depth → (k : Part ExprTree → State)
        → Stands rest.entry (want_closed d (λ e c. k (in_parens start c e))) o
        → Stands result.2 (k (part (expr_view result.0) result.1)) o }
{
    let (inside, _extent, close, end) = read_closed(alloc, rest, depth);
    (inside, join(start, close), end)
}

/// An expression and its closing parenthesis, behind the opening one; with the extent of the
/// expression and the place of the parenthesis.
#[cycle(exprs)]
pub(crate) fn read_closed<'a>(
    alloc: Global,
    rest: Rest<'a>,
    depth: u32,
) -> (ExprNode, Span, Span, Rest<'a>)
    requires { depth ≤ 64 }
    ensures within { Within depth result.3 }
    ensures no_longer { left result.3 ≤ left rest.entry }
    ensures reads { (o : Bounded) (d : ℕ) → d ≡ depth → (k : Part ExprTree → SpanValue → State)
        → Stands rest.entry (want_closed d k) o
        → Stands result.3 (k (part (expr_view result.0) result.1) result.2) o }
{
    let (inside, extent, after) = read_expr(alloc, rest, depth + 1);
    let (close, end) = symbol(after, Symbol::CloseParen, depth);
    (inside, extent, close, end)
}

/// Expressions with commas between them, one at least.
#[cycle(exprs)]
fn read_exprs<'a>(alloc: Global, rest: Rest<'a>, depth: u32) -> (List<ExprNode>, Rest<'a>)
    requires { depth ≤ 65 }
    ensures within { Within depth result.1 }
    ensures no_longer { left result.1 ≤ left rest.entry }
    ensures reads { (o : Bounded) (d : ℕ) → d ≡ depth → (k : Items ExprTree → State)
        → Stands rest.entry (want_exprs d k) o
        → Stands result.1 (k (map expr_view result.0)) o }
{
    let mut members = List::new(alloc);
    let (first, _extent, after) = read_expr(alloc, rest, depth);
    let mut behind = pushed(&mut members, first, after);
    'members: loop {
        let Some(after) = expr_comma(behind, depth) else {
            return (members, behind);
        };
        let (member, _extent, end) = read_expr(alloc, Rest::Left(after), depth);
        behind = pushed(&mut members, member, end);
    }
}

/// Expressions with commas between them, one at least, and the closing parenthesis.
#[cycle(exprs)]
pub(crate) fn read_args<'a>(
    alloc: Global,
    rest: Rest<'a>,
    depth: u32,
) -> (List<ExprNode>, Span, Rest<'a>)
    requires { depth ≤ 64 }
    ensures within { Within depth result.2 }
    ensures no_longer { left result.2 ≤ left rest.entry }
    ensures reads { (o : Bounded) (d : ℕ) → d ≡ depth → (k : Items ExprTree → SpanValue → State)
        → Stands rest.entry (want_args d k) o
        → Stands result.2 (k (map expr_view result.0) result.1) o }
{
    let (args, after) = read_exprs(alloc, rest, depth + 1);
    let (close, end) = symbol(after, Symbol::CloseParen, depth);
    (args, close, end)
}

/// What follows the word `match` at `start`.
#[cycle(exprs)]
pub(crate) fn read_match<'a>(
    alloc: Global,
    start: Span,
    rest: Rest<'a>,
    depth: u32,
) -> (ExprNode, Span, Rest<'a>)
    requires { depth ≤ 64 }
    ensures within { Within depth result.2 }
    ensures no_longer { left result.2 ≤ left rest.entry }
    ensures reads { (o : Bounded) (d : ℕ) → d ≡ depth → (k : Part ExprTree → State)
        → Stands rest.entry (want_match d start k) o
        → Stands result.2 (k (part (expr_view result.0) result.1)) o }
{
    let (_, inside) = symbol(rest, Symbol::OpenParen, depth);
    let (value, _extent, _close, after) = read_closed(alloc, inside, depth);
    let (_, inside) = symbol(after, Symbol::OpenBrace, depth);
    let (arms, after) = read_arms(alloc, inside, depth + 1);
    let (close, end) = symbol(after, Symbol::CloseBrace, depth);
    let span = join(start, close);
    let node = expr::match_(alloc, span, value, arms);
    extended(node, span, end)
}

/// Arms with commas between them, one at least.
#[cycle(exprs)]
fn read_arms<'a>(alloc: Global, rest: Rest<'a>, depth: u32) -> (List<ExprArm>, Rest<'a>)
    requires { depth ≤ 65 }
    ensures within { Within depth result.1 }
    ensures no_longer { left result.1 ≤ left rest.entry }
    ensures reads { (o : Bounded) (d : ℕ) → d ≡ depth → (k : Items ExprArmTree → State)
        → Stands rest.entry (want_expr_arms d k) o
        → Stands result.1 (k (map expr_arm_view result.0)) o }
{
    let mut arms = List::new(alloc);
    let (first, after) = read_arm(alloc, rest, depth);
    let mut behind = pushed(&mut arms, first, after);
    'arms: loop {
        let Some(after) = expr_comma(behind, depth) else {
            return (arms, behind);
        };
        let (arm, end) = read_arm(alloc, Rest::Left(after), depth);
        behind = pushed(&mut arms, arm, end);
    }
}

/// A pattern and its expression.
#[cycle(exprs)]
fn read_arm<'a>(alloc: Global, rest: Rest<'a>, depth: u32) -> (ExprArm, Rest<'a>)
    requires { depth ≤ 65 }
    ensures within { Within depth result.1 }
    ensures no_longer { left result.1 ≤ left rest.entry }
    ensures reads { (o : Bounded) (d : ℕ) → d ≡ depth → (k : ExprArmTree → State)
        → Stands rest.entry (want_expr_arm d k) o
        → Stands result.1 (k (expr_arm_view result.0)) o }
{
    let (pattern, after) = read_arm_pattern(alloc, rest, depth);
    let (body, _extent, end) = read_expr(alloc, after, depth);
    (expr::arm(pattern, body), end)
}
