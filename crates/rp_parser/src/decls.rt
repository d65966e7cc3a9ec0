//! Declarations and programs.
#![tactic(auto, using(crate::proofs::Rests::within_all))]

ghost use Rattle.std.specs.Prelude.{List as Items, Option as Optional};
ghost use Rattle.std.specs.Prelude.{◌≡◌, ℕ, ◌≤◌, [], map};
ghost use Rattle.rp_span.specs.declared.Span.{Span as SpanValue};
ghost use Rattle.rp_grammar.specs.Trees.{Ident as IdentTree, TypeTree, ConTree, DeclForm as DeclShape, DeclTree};
ghost use Rattle.rp_ast.specs.View.{optional as optional_view, ident_view, type_view, con_view, decl_view, decls_view};
ghost use Rattle.rp_tokens.specs.MachineStates.{State, in_decls};
ghost use Rattle.rp_tokens.specs.MachineDecls.{want_con, want_cons, in_result, in_type, in_datatype, in_crdt, in_query, want_claim, in_invariant, in_proc};
ghost use Rattle.rp_tokens.specs.Machine.{whole, done, Bounded, bounded};
ghost use Rattle.rp_parser.specs.means.Marks.{toks};
ghost use Rattle.rp_parser.specs.means.Reading.{Gives, Stands, left};
ghost use Rattle.rp_parser.specs.means.DeclStarts.{decl_next, NoDecl};

use crate::decl_starts::{DeclStart, bar_sign, claim_sign, decl_sign};
use crate::fault::Fault;
use crate::leaves::ident;
use crate::mark::{Kind, Marks, Rest};
use crate::next::join;
use crate::rest::{made, name, no_name, optional, pushed, symbol};
use crate::sentences::read_sentence;
use crate::stmts::{read_block, span_of_block};
use crate::types::{read_crdt, read_param_list, read_params, read_type};
use rp_ast::{ConNode, Decl, DeclForm, Ident, ProcNode, QueryNode, TypeNode};
use rp_grammar::Symbol;
use rp_span::Span;
use rp_value::List;
use std::alloc::Global;

/// The name that a declaration of a type gives, and its whole span.
fn read_declared<'a>(alloc: Global, start: Span, rest: Rest<'a>) -> (Ident, Span, Rest<'a>)
    ensures no_longer { left result.2 ≤ left rest.entry }
    ensures reads { (o : Bounded) (f : IdentTree → DeclShape) (k : DeclTree → State)
        → Stands rest.entry (in_type f start k) o
        → Stands result.2 (k (DeclTree.node result.1 (f (ident_view result.0)))) o }
{
    let (name, after) = name(alloc, rest, 0);
    let (close, end) = symbol(after, Symbol::Semicolon, 0);
    (name, join(start, close), end)
}

/// A constructor and its fields.
fn read_con<'a>(alloc: Global, rest: Rest<'a>) -> (ConNode, Rest<'a>)
    ensures no_longer { left result.1 ≤ left rest.entry }
    ensures reads { (o : Bounded) (k : ConTree → State)
        → Stands rest.entry (want_con k) o → Stands result.1 (k (con_view result.0)) o }
{
    let (name, after) = name(alloc, rest, 0);
    let Some((_, inside)) = optional(after, Symbol::OpenParen, 0) else {
        let fields = List::new(alloc);
        return (ConNode { name, fields }, after);
    };
    let (fields, after) = read_params(alloc, Rest::Left(inside), 1);
    let (_, end) = symbol(after, Symbol::CloseParen, 0);
    (ConNode { name, fields }, end)
}

/// Constructors with bars between them, one at least.
fn read_cons<'a>(alloc: Global, rest: Rest<'a>) -> (List<ConNode>, Rest<'a>)
    ensures no_longer { left result.1 ≤ left rest.entry }
    ensures reads { (o : Bounded) (k : Items ConTree → State)
        → Stands rest.entry (want_cons k) o → Stands result.1 (k (map con_view result.0)) o }
{
    let mut cons = List::new(alloc);
    let (first, after) = read_con(alloc, rest);
    let mut behind = pushed(&mut cons, first, after);
    'cons: loop {
        let Some(after) = bar_sign(behind) else {
            return (cons, behind);
        };
        let (con, end) = read_con(alloc, Rest::Left(after));
        behind = pushed(&mut cons, con, end);
    }
}

fn read_datatype<'a>(alloc: Global, start: Span, rest: Rest<'a>) -> (Decl, Rest<'a>)
    ensures no_longer { left result.1 ≤ left rest.entry }
    ensures reads { (o : Bounded) (k : DeclTree → State)
        → Stands rest.entry (in_datatype start k) o → Stands result.1 (k (decl_view result.0)) o }
{
    let (name, after) = name(alloc, rest, 0);
    let (_, after) = symbol(after, Symbol::Assign, 0);
    let (cons, after) = read_cons(alloc, after);
    let (close, end) = symbol(after, Symbol::Semicolon, 0);
    let span = join(start, close);
    let what = DeclForm::Datatype(name, cons);
    (Decl { span, what }, end)
}

fn read_crdt_decl<'a>(alloc: Global, start: Span, rest: Rest<'a>) -> (Decl, Rest<'a>)
    ensures no_longer { left result.1 ≤ left rest.entry }
    ensures reads { (o : Bounded) (k : DeclTree → State)
        → Stands rest.entry (in_crdt start k) o → Stands result.1 (k (decl_view result.0)) o }
{
    let (name, after) = name(alloc, rest, 0);
    let (_, after) = symbol(after, Symbol::Colon, 0);
    let (crdt, after) = read_crdt(alloc, after, 0);
    let (close, end) = symbol(after, Symbol::Semicolon, 0);
    let span = join(start, close);
    let what = DeclForm::Crdt(name, crdt);
    (Decl { span, what }, end)
}

fn read_query<'a>(alloc: Global, start: Span, rest: Rest<'a>) -> (Decl, Rest<'a>)
    ensures no_longer { left result.1 ≤ left rest.entry }
    ensures reads { (o : Bounded) (k : DeclTree → State)
        → Stands rest.entry (in_query start k) o → Stands result.1 (k (decl_view result.0)) o }
{
    let (name, after) = name(alloc, rest, 0);
    let (params, after) = read_param_list(alloc, after, 0);
    let (_, after) = symbol(after, Symbol::Colon, 0);
    let (result, after) = read_type(alloc, after, 0);
    let (_, after) = symbol(after, Symbol::Assign, 0);
    let (body, close, end) = read_sentence(alloc, after, 0);
    let span = join(start, close);
    let what = DeclForm::Query(QueryNode {
        name,
        params,
        result,
        body,
    });
    (Decl { span, what }, end)
}

/// What an invariant claims, behind its name.
fn read_claim<'a>(
    alloc: Global,
    start: Span,
    name: Option<Ident>,
    rest: Rest<'a>,
) -> (Decl, Rest<'a>)
    ensures no_longer { left result.1 ≤ left rest.entry }
    ensures reads { (o : Bounded) (k : DeclTree → State)
        → Stands rest.entry (want_claim start (optional_view ident_view name) k) o
        → Stands result.1 (k (decl_view result.0)) o }
{
    let (claim, close, end) = read_sentence(alloc, rest, 0);
    let span = join(start, close);
    let what = DeclForm::Invariant(name, claim);
    (Decl { span, what }, end)
}

fn read_invariant<'a>(alloc: Global, start: Span, rest: Rest<'a>) -> (Decl, Rest<'a>)
    ensures no_longer { left result.1 ≤ left rest.entry }
    ensures reads { (o : Bounded) (k : DeclTree → State)
        → Stands rest.entry (in_invariant start k) o → Stands result.1 (k (decl_view result.0)) o }
{
    match claim_sign(rest) {
        Some((bytes, span, after)) => {
            let name = ident(alloc, span, bytes);
            let (name, after) = made(name, no_name(alloc), Rest::Left(after));
            read_claim(alloc, start, Some(name), after)
        }
        None => read_claim(alloc, start, None, rest),
    }
}

/// The result type of a procedure, if it has one.
fn read_result<'a>(alloc: Global, rest: Rest<'a>) -> (Option<TypeNode>, Rest<'a>)
    ensures no_longer { left result.1 ≤ left rest.entry }
    ensures reads { (o : Bounded) (k : Optional TypeTree → State)
        → Stands rest.entry (in_result k) o → Stands result.1 (k (optional_view type_view result.0)) o }
{
    let Some((_, after)) = optional(rest, Symbol::Colon, 0) else {
        return (None, rest);
    };
    let (ty, end) = read_type(alloc, Rest::Left(after), 0);
    (Some(ty), end)
}

fn read_proc<'a>(alloc: Global, start: Span, rest: Rest<'a>) -> (Decl, Rest<'a>)
    ensures no_longer { left result.1 ≤ left rest.entry }
    ensures reads { (o : Bounded) (k : DeclTree → State)
        → Stands rest.entry (in_proc start k) o → Stands result.1 (k (decl_view result.0)) o }
{
    let (name, after) = name(alloc, rest, 0);
    let (params, after) = read_param_list(alloc, after, 0);
    let (result, after) = read_result(alloc, after);
    let (body, end) = read_block(alloc, after, 0);
    let span = join(start, span_of_block(&body));
    let what = DeclForm::Proc(ProcNode {
        name,
        params,
        result,
        body,
    });
    (Decl { span, what }, end)
}

/// A declaration, behind its first token.
fn read_decl<'a>(
    alloc: Global,
    start: DeclStart,
    start_span: Span,
    rest: Rest<'a>,
) -> (Decl, Rest<'a>)
    ensures no_longer { left result.1 ≤ left rest.entry }
    ensures reads { (o : Bounded) (k : DeclTree → State)
        → Stands rest.entry (decl_next k start_span start) o → Stands result.1 (k (decl_view result.0)) o }
{
    match start {
        DeclStart::IdType => {
            let (name, span, end) = read_declared(alloc, start_span, rest);
            let what = DeclForm::IdType(name);
            (Decl { span, what }, end)
        }
        DeclStart::Opaque => {
            let (name, span, end) = read_declared(alloc, start_span, rest);
            let what = DeclForm::Opaque(name);
            (Decl { span, what }, end)
        }
        DeclStart::Datatype => read_datatype(alloc, start_span, rest),
        DeclStart::Crdt => read_crdt_decl(alloc, start_span, rest),
        DeclStart::Query => read_query(alloc, start_span, rest),
        DeclStart::Invariant => read_invariant(alloc, start_span, rest),
        DeclStart::Proc => read_proc(alloc, start_span, rest),
    }
}

/// These declarations, where the end of the text is next and the last token.
fn at_end(decls: List<Decl>, marks: Marks) -> Result<List<Decl>, Fault>
    requires { NoDecl marks.now }
    ensures { Gives result (bounded 64 (in_decls (decls_view decls)) (toks marks.now))
        (λ ds. whole (done (decls_view ds))) }
{
    let Some((first, rest)) = marks.split_first() else {
        return Err(Fault::Syntax(0));
    };
    let Kind::End = first.kind else {
        return Err(Fault::Syntax(marks.len()));
    };
    if !rest.is_empty() {
        return Err(Fault::Syntax(rest.len()));
    }
    Ok(decls)
}

/// All tokens.
pub(crate) fn read_program(alloc: Global, marks: Marks) -> Result<List<Decl>, Fault>
    ensures { Gives result (bounded 64 (in_decls []) (toks marks.now))
        (λ ds. whole (done (decls_view ds))) }
{
    let mut decls = List::new(alloc);
    let Some((start, span, after)) = decl_sign(marks) else {
        return at_end(decls, marks);
    };
    let (first, after) = read_decl(alloc, start, span, Rest::Left(after));
    let mut rest = pushed(&mut decls, first, after);
    'decls: loop {
        let left = match rest {
            Rest::Left(left) => left,
            Rest::Failed(fault) => return Err(fault),
        };
        let Some((start, span, after)) = decl_sign(left) else {
            return at_end(decls, left);
        };
        let (decl, end) = read_decl(alloc, start, span, Rest::Left(after));
        rest = pushed(&mut decls, decl, end);
    }
}
