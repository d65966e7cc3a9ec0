//! Accesses: a root, its steps and its arguments.

ghost use Rattle.std.specs.Prelude.{List as Items};
ghost use Rattle.std.specs.Prelude.{◌≡◌, ℕ, ◌≤◌, [], ◌∷◌, ◌++◌, map, false};
ghost use Rattle.rp_span.specs.declared.Span.{Span as SpanValue};
ghost use Rattle.rp_grammar.specs.declared.terminal.Symbol.TheVariants as symbols;
ghost use Rattle.rp_grammar.specs.Trees.{Ident as IdentTree, StepTree, AccessTree};
ghost use Rattle.rp_grammar.specs.Parts.{Part, part, join as join_spans};
ghost use Rattle.rp_ast.specs.View.{ident_view, expr_view, access_view, step_view};
ghost use Rattle.rp_tokens.specs.MachineStates.{State, in_access};
ghost use Rattle.rp_tokens.specs.MachineExprs.{in_args, called_with, want_key};
ghost use Rattle.rp_tokens.specs.Machine.{Bounded};
ghost use Rattle.rp_parser.specs.means.Reading.{Stands, Within, left, next_of};
ghost use Rattle.rp_parser.specs.means.Signs.{step_next};

use crate::exprs::read_expr;
use crate::mark::Rest;
use crate::next::join;
use crate::operands::read_args;
use crate::rest::{optional, pushed, symbol};
use crate::signs::{StepSign, args_sign, dot_step, step_sign};
use rp_ast::build::expr;
use rp_ast::{AccessNode, AccessStep, ExprNode, Ident};
use rp_grammar::Symbol;
use rp_span::Span;
use rp_value::List;
use std::alloc::Global;

/// The steps and the arguments of an access, behind its root.
#[cycle(exprs)]
pub(crate) fn read_access<'a>(
    alloc: Global,
    root: Ident,
    rest: Rest<'a>,
    depth: u32,
) -> (AccessNode, Span, Rest<'a>)
    requires { depth ≤ 64 }
    ensures within { Within depth result.2 }
    ensures no_longer { left result.2 ≤ left rest.entry }
    ensures reads { (o : Bounded) (d : ℕ) → d ≡ depth → (k : Part AccessTree → State)
        → Stands rest.entry (in_access d (ident_view root) [] root.span k) o
        → Stands result.2 (k (part (access_view result.0) result.1)) o }
{
    let (steps, extent, after) = read_steps(alloc, root.span, rest, depth);
    let Some(inside) = args_sign(after, depth) else {
        return (expr::path(root, steps, None), extent, after);
    };
    let (args, close, end) = read_access_args(alloc, Rest::Left(inside), depth);
    let span = join(extent, close);
    (expr::path(root, steps, Some(args)), span, end)
}

/// The steps of an access, behind its root; with the extent from the root on.
#[cycle(exprs)]
fn read_steps<'a>(
    alloc: Global,
    root_span: Span,
    rest: Rest<'a>,
    depth: u32,
) -> (List<AccessStep>, Span, Rest<'a>)
    requires { depth ≤ 64 }
    ensures within { Within depth result.2 }
    ensures no_longer { left result.2 ≤ left rest.entry }
    ensures no_dot { next_of symbols.Dot result.2 ≡ false }
    ensures no_key { next_of symbols.OpenBracket result.2 ≡ false }
    ensures reads { (o : Bounded) (d : ℕ) → d ≡ depth → (n : IdentTree) (k : Part AccessTree → State)
        → Stands rest.entry (in_access d n [] root_span k) o
        → Stands result.2 (in_access d n (map step_view result.0) result.1 k) o }
{
    let mut steps = List::new(alloc);
    let Some((sign, after)) = step_sign(rest, depth) else {
        return (steps, root_span, rest);
    };
    let (first, first_end, after) = read_step(alloc, sign, Rest::Left(after), depth);
    let mut extent = join(root_span, first_end);
    let mut behind = pushed(&mut steps, first, after);
    'steps: loop {
        let Some((sign, after)) = step_sign(behind, depth) else {
            return (steps, extent, behind);
        };
        let (step, step_end, end) = read_step(alloc, sign, Rest::Left(after), depth);
        extent = join(extent, step_end);
        behind = pushed(&mut steps, step, end);
    }
}

/// The rest of one step of an access.
#[cycle(exprs)]
fn read_step<'a>(
    alloc: Global,
    sign: StepSign,
    rest: Rest<'a>,
    depth: u32,
) -> (AccessStep, Span, Rest<'a>)
    requires { depth ≤ 64 }
    ensures within { Within depth result.2 }
    ensures no_longer { left result.2 ≤ left rest.entry }
    ensures reads { (o : Bounded) (d : ℕ) → d ≡ depth →
        (n : IdentTree) (xs : Items StepTree) (v : SpanValue) (k : Part AccessTree → State)
        → Stands rest.entry (step_next d n xs v k sign) o
        → Stands result.2 (in_access d n (xs ++ step_view result.0 ∷ []) (join_spans v result.1) k) o }
{
    match sign {
        StepSign::Dot => dot_step(alloc, rest, depth),
        StepSign::Key => read_key(alloc, rest, depth),
    }
}

/// A key and the closing bracket behind it.
#[cycle(exprs)]
fn read_key<'a>(alloc: Global, rest: Rest<'a>, depth: u32) -> (AccessStep, Span, Rest<'a>)
    requires { depth ≤ 64 }
    ensures within { Within depth result.2 }
    ensures no_longer { left result.2 ≤ left rest.entry }
    ensures reads { (o : Bounded) (d : ℕ) → d ≡ depth →
        (n : IdentTree) (xs : Items StepTree) (v : SpanValue) (k : Part AccessTree → State)
        → Stands rest.entry (want_key d n xs v k) o
        → Stands result.2 (in_access d n (xs ++ step_view result.0 ∷ []) (join_spans v result.1) k) o }
{
    let (key, _extent, after) = read_expr(alloc, rest, depth + 1);
    let (close, end) = symbol(after, Symbol::CloseBracket, depth);
    (expr::key(key), close, end)
}

/// The arguments of an access, behind the opening parenthesis.
#[cycle(exprs)]
fn read_access_args<'a>(
    alloc: Global,
    rest: Rest<'a>,
    depth: u32,
) -> (List<ExprNode>, Span, Rest<'a>)
    requires { depth ≤ 64 }
    ensures within { Within depth result.2 }
    ensures no_longer { left result.2 ≤ left rest.entry }
    ensures reads { (o : Bounded) (d : ℕ) → d ≡ depth →
        (n : IdentTree) (xs : Items StepTree) (v : SpanValue) (k : Part AccessTree → State)
        → Stands rest.entry (in_args d n xs v k) o
        → Stands result.2 (k (called_with n xs v (map expr_view result.0) result.1)) o }
{
    if let Some((close, end)) = optional(rest, Symbol::CloseParen, depth) {
        return (List::new(alloc), close, Rest::Left(end));
    }
    read_args(alloc, rest, depth)
}
