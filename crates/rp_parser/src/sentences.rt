//! Statements that hold no block.
#![tactic(auto, using(crate::proofs::Rests::within_all))]

ghost use Rattle.std.specs.Prelude.{◌≡◌, ℕ, ◌≤◌};
ghost use Rattle.rp_span.specs.declared.Span.{Span as SpanValue};
ghost use Rattle.rp_grammar.specs.Parts.{Part, part};
ghost use Rattle.rp_grammar.specs.Trees.{ExprTree, StmtTree};
ghost use Rattle.rp_ast.specs.View.{ident_view, type_view, expr_view, stmt_view};
ghost use Rattle.rp_tokens.specs.MachineStates.{State};
ghost use Rattle.rp_tokens.specs.MachineExprs.{want_parens};
ghost use Rattle.rp_tokens.specs.MachineStmts.{want_sentence, want_value, in_access_stmt, in_named, in_var, in_return};
ghost use Rattle.rp_tokens.specs.Machine.{Bounded};
ghost use Rattle.rp_parser.specs.means.Reading.{Stands, left};
ghost use Rattle.rp_parser.specs.means.Sentences.{want_new, in_initial};

use crate::accesses::read_access;
use crate::exprs::read_expr;
use crate::mark::Rest;
use crate::next::join;
use crate::operands::read_closed;
use crate::rest::{name, optional, optional_word, symbol};
use crate::types::read_type;
use rp_ast::build::stmt;
use rp_ast::{ExprNode, Ident, StmtNode, TypeNode};
use rp_grammar::{Symbol, Word};
use rp_span::Span;
use std::alloc::Global;

/// An expression in parentheses; with its extent and the place of the closing one.
pub(crate) fn read_parens<'a>(
    alloc: Global,
    rest: Rest<'a>,
    depth: u32,
) -> (ExprNode, Span, Span, Rest<'a>)
    requires { depth ≤ 64 }
    ensures no_longer { left result.3 ≤ left rest.entry }
    ensures reads { (o : Bounded) (d : ℕ) → d ≡ depth → (k : Part ExprTree → SpanValue → State)
        → Stands rest.entry (want_parens d k) o
        → Stands result.3 (k (part (expr_view result.0) result.1) result.2) o }
{
    let (_, inside) = symbol(rest, Symbol::OpenParen, depth);
    read_closed(alloc, inside, depth)
}

/// An expression and the semicolon behind it; with where that stands.
pub(crate) fn read_sentence<'a>(
    alloc: Global,
    rest: Rest<'a>,
    depth: u32,
) -> (ExprNode, Span, Rest<'a>)
    requires { depth ≤ 64 }
    ensures no_longer { left result.2 ≤ left rest.entry }
    ensures reads { (o : Bounded) (d : ℕ) → d ≡ depth → (k : ExprTree → SpanValue → State)
        → Stands rest.entry (want_sentence d k) o
        → Stands result.2 (k (expr_view result.0) result.1) o }
{
    let (value, _extent, after) = read_expr(alloc, rest, depth);
    let (close, end) = symbol(after, Symbol::Semicolon, depth);
    (value, close, end)
}

/// The type of a new id, and the semicolon behind it.
fn read_new<'a>(alloc: Global, name: Ident, rest: Rest<'a>, depth: u32) -> (StmtNode, Rest<'a>)
    requires { depth ≤ 64 }
    ensures no_longer { left result.1 ≤ left rest.entry }
    ensures reads { (o : Bounded) (d : ℕ) → d ≡ depth → (k : StmtTree → State)
        → Stands rest.entry (want_new d (ident_view name) k) o
        → Stands result.1 (k (stmt_view result.0)) o }
{
    let (ty, after) = crate::rest::name(alloc, rest, depth);
    let (close, end) = symbol(after, Symbol::Semicolon, depth);
    let span = join(name.span, close);
    (stmt::new(span, name, ty), end)
}

/// What is assigned to a variable.
fn read_value<'a>(alloc: Global, name: Ident, rest: Rest<'a>, depth: u32) -> (StmtNode, Rest<'a>)
    requires { depth ≤ 64 }
    ensures no_longer { left result.1 ≤ left rest.entry }
    ensures reads { (o : Bounded) (d : ℕ) → d ≡ depth → (k : StmtTree → State)
        → Stands rest.entry (want_value d (ident_view name) k) o
        → Stands result.1 (k (stmt_view result.0)) o }
{
    if let Some((_, after)) = optional_word(rest, Word::New, depth) {
        return read_new(alloc, name, Rest::Left(after), depth);
    }
    let (value, close, end) = read_sentence(alloc, rest, depth);
    let span = join(name.span, close);
    (stmt::assign(span, name, value), end)
}

/// An access as a statement, behind its root.
fn read_access_stmt<'a>(
    alloc: Global,
    name: Ident,
    rest: Rest<'a>,
    depth: u32,
) -> (StmtNode, Rest<'a>)
    requires { depth ≤ 64 }
    ensures no_longer { left result.1 ≤ left rest.entry }
    ensures reads { (o : Bounded) (d : ℕ) → d ≡ depth → (k : StmtTree → State)
        → Stands rest.entry (in_access_stmt d (ident_view name) k) o
        → Stands result.1 (k (stmt_view result.0)) o }
{
    let (access, extent, after) = read_access(alloc, name, rest, depth);
    let (close, end) = symbol(after, Symbol::Semicolon, depth);
    let span = join(extent, close);
    (stmt::access(span, access), end)
}

/// A statement that begins with a name, behind the name.
pub(crate) fn read_named<'a>(
    alloc: Global,
    name: Ident,
    rest: Rest<'a>,
    depth: u32,
) -> (StmtNode, Rest<'a>)
    requires { depth ≤ 64 }
    ensures no_longer { left result.1 ≤ left rest.entry }
    ensures reads { (o : Bounded) (d : ℕ) → d ≡ depth → (k : StmtTree → State)
        → Stands rest.entry (in_named d (ident_view name) k) o
        → Stands result.1 (k (stmt_view result.0)) o }
{
    if let Some((_, after)) = optional(rest, Symbol::Assign, depth) {
        return read_value(alloc, name, Rest::Left(after), depth);
    }
    read_access_stmt(alloc, name, rest, depth)
}

/// The first value of a variable, if it has one, and the semicolon behind that.
fn read_initial<'a>(
    alloc: Global,
    start: Span,
    name: Ident,
    ty: TypeNode,
    rest: Rest<'a>,
    depth: u32,
) -> (StmtNode, Rest<'a>)
    requires { depth ≤ 64 }
    ensures no_longer { left result.1 ≤ left rest.entry }
    ensures reads { (o : Bounded) (d : ℕ) → d ≡ depth → (k : StmtTree → State)
        → Stands rest.entry (in_initial d start (ident_view name) (type_view ty) k) o
        → Stands result.1 (k (stmt_view result.0)) o }
{
    if let Some((_, after)) = optional(rest, Symbol::Assign, depth) {
        let (value, close, end) = read_sentence(alloc, Rest::Left(after), depth);
        let span = join(start, close);
        return (stmt::var(span, name, ty, Some(value)), end);
    }
    let (close, end) = symbol(rest, Symbol::Semicolon, depth);
    let span = join(start, close);
    (stmt::var(span, name, ty, None), end)
}

/// A variable, behind the word at `start`.
pub(crate) fn read_var<'a>(
    alloc: Global,
    start: Span,
    rest: Rest<'a>,
    depth: u32,
) -> (StmtNode, Rest<'a>)
    requires { depth ≤ 64 }
    ensures no_longer { left result.1 ≤ left rest.entry }
    ensures reads { (o : Bounded) (d : ℕ) → d ≡ depth → (k : StmtTree → State)
        → Stands rest.entry (in_var d start k) o → Stands result.1 (k (stmt_view result.0)) o }
{
    let (name, after) = name(alloc, rest, depth);
    let (_, after) = symbol(after, Symbol::Colon, depth);
    let (ty, after) = read_type(alloc, after, depth);
    read_initial(alloc, start, name, ty, after, depth)
}

/// What is returned, if anything is, and the semicolon behind it.
pub(crate) fn read_return<'a>(
    alloc: Global,
    start: Span,
    rest: Rest<'a>,
    depth: u32,
) -> (StmtNode, Rest<'a>)
    requires { depth ≤ 64 }
    ensures no_longer { left result.1 ≤ left rest.entry }
    ensures reads { (o : Bounded) (d : ℕ) → d ≡ depth → (k : StmtTree → State)
        → Stands rest.entry (in_return d start k) o → Stands result.1 (k (stmt_view result.0)) o }
{
    if let Some((close, end)) = optional(rest, Symbol::Semicolon, depth) {
        let span = join(start, close);
        return (stmt::return_(span, None), Rest::Left(end));
    }
    let (value, close, end) = read_sentence(alloc, rest, depth);
    let span = join(start, close);
    (stmt::return_(span, Some(value)), end)
}
