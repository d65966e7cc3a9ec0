//! Types, parameters and replicated types.

ghost use Rattle.std.specs.Prelude.{◌≡◌, ℕ, ◌≤◌, [], ◌∷◌, IfOk, List as Items, map};
ghost use Rattle.rp_span.specs.declared.Span.{Span as SpanValue};
ghost use Rattle.rp_grammar.specs.Trees.{TypeTree, ParamTree, CrdtTree, FieldTree};
ghost use Rattle.rp_ast.specs.View.{type_view, param_view, crdt_view, field_view};
ghost use Rattle.rp_tokens.specs.MachineStates.{State, want_type, want_crdt, more_fields};
ghost use Rattle.rp_tokens.specs.MachineTypes.{want_entry, want_struct, want_param, want_params, want_param_list, want_element, want_field};
ghost use Rattle.rp_tokens.specs.Machine.{Bounded};
ghost use Rattle.rp_parser.specs.means.Reading.{Stands, Within, left};
ghost use Rattle.rp_parser.specs.means.Starts.{plain_form, container_form, map_form};

use crate::mark::Rest;
use crate::next::join;
use crate::rest::{comma, made, name, nowhere, optional, pushed, symbol};
use crate::starts::{Container, CrdtStart, MapKind, PlainType, TypeStart, crdt_first, type_first};
use rp_ast::build::{crdt, ty};
use rp_ast::{CrdtNode, FieldNode, Param, TypeNode};
use rp_grammar::Symbol;
use rp_span::Span;
use rp_value::{List, Memory, copy_bytes};
use std::alloc::Global;

/// What stands in for a type behind a fault.
fn no_type() -> TypeNode {
    ty::bool_(nowhere())
}

/// What stands in for a replicated type behind a fault.
fn no_crdt() -> CrdtNode {
    crdt::counter(nowhere())
}

fn plain_type(alloc: Global, span: Span, plain: PlainType) -> Result<TypeNode, Memory>
    ensures { IfOk result (λ t. type_view t ≡ TypeTree.node span (plain_form plain.entry)) }
{
    Ok(match plain {
        PlainType::Named(bytes) => ty::named(span, copy_bytes(alloc, bytes)?),
        PlainType::Bool => ty::bool_(span),
        PlainType::Int => ty::int(span),
        PlainType::Text => ty::text(span),
        PlainType::Call => ty::call(span),
        PlainType::Invocation => ty::invocation(span),
    })
}

#[cycle(types)]
pub(crate) fn read_type<'a>(alloc: Global, rest: Rest<'a>, depth: u32) -> (TypeNode, Rest<'a>)
    requires { depth ≤ 65 }
    ensures within { Within depth result.1 }
    ensures no_longer { left result.1 ≤ left rest.entry }
    ensures reads { (o : Bounded) (d : ℕ) → d ≡ depth → (k : TypeTree → State)
        → Stands rest.entry (want_type d k) o → Stands result.1 (k (type_view result.0)) o }
{
    let Rest::Left(marks) = rest else {
        return (no_type(), rest);
    };
    match type_first(marks, depth) {
        Ok((start, span, after)) => match start {
            TypeStart::Plain(plain) => {
                let node = plain_type(alloc, span, plain);
                made(node, no_type(), Rest::Left(after))
            }
            TypeStart::Maybe => {
                let (element, span, end) = read_element(alloc, span, Rest::Left(after), depth);
                let node = ty::maybe(alloc, span, element);
                made(node, no_type(), end)
            }
        },
        Err(fault) => (no_type(), Rest::Failed(fault)),
    }
}

/// An element type in brackets, behind a word; with the span from the word on.
#[cycle(types)]
fn read_element<'a>(
    alloc: Global,
    start: Span,
    rest: Rest<'a>,
    depth: u32,
) -> (TypeNode, Span, Rest<'a>)
    requires { depth ≤ 64 }
    ensures within { Within depth result.2 }
    ensures no_longer { left result.2 ≤ left rest.entry }
    ensures reads { (o : Bounded) (d : ℕ) → d ≡ depth → (k : TypeTree → SpanValue → State)
        → Stands rest.entry (want_element d start k) o
        → Stands result.2 (k (type_view result.0) result.1) o }
{
    let (_, inside) = symbol(rest, Symbol::OpenBracket, depth);
    let (element, after) = read_type(alloc, inside, depth + 1);
    let (close, end) = symbol(after, Symbol::CloseBracket, depth);
    (element, join(start, close), end)
}

pub(crate) fn read_param<'a>(alloc: Global, rest: Rest<'a>, depth: u32) -> (Param, Rest<'a>)
    requires { depth ≤ 65 }
    ensures within { Within depth result.1 }
    ensures no_longer { left result.1 ≤ left rest.entry }
    ensures reads { (o : Bounded) (d : ℕ) → d ≡ depth → (k : ParamTree → State)
        → Stands rest.entry (want_param d k) o → Stands result.1 (k (param_view result.0)) o }
{
    let (name, after) = name(alloc, rest, depth);
    let (_, after) = symbol(after, Symbol::Colon, depth);
    let (ty, end) = read_type(alloc, after, depth);
    (Param { name, ty }, end)
}

/// Parameters with commas between them, one at least.
pub(crate) fn read_params<'a>(alloc: Global, marks: Rest<'a>, depth: u32) -> (List<Param>, Rest<'a>)
    requires { depth ≤ 65 }
    ensures within { Within depth result.1 }
    ensures no_longer { left result.1 ≤ left marks.entry }
    ensures reads { (o : Bounded) (d : ℕ) → d ≡ depth → (k : Items ParamTree → State)
        → Stands marks.entry (want_params d k) o → Stands result.1 (k (map param_view result.0)) o }
{
    let mut params = List::new(alloc);
    let (first, after) = read_param(alloc, marks, depth);
    let mut rest = pushed(&mut params, first, after);
    'params: loop {
        let Some(after) = comma(rest, depth) else {
            return (params, rest);
        };
        let (param, end) = read_param(alloc, Rest::Left(after), depth);
        rest = pushed(&mut params, param, end);
    }
}

/// The parameters of a query or a procedure, in parentheses.
pub(crate) fn read_param_list<'a>(
    alloc: Global,
    rest: Rest<'a>,
    depth: u32,
) -> (List<Param>, Rest<'a>)
    requires { depth ≤ 64 }
    ensures within { Within depth result.1 }
    ensures no_longer { left result.1 ≤ left rest.entry }
    ensures reads { (o : Bounded) (d : ℕ) → d ≡ depth → (k : Items ParamTree → State)
        → Stands rest.entry (want_param_list d k) o → Stands result.1 (k (map param_view result.0)) o }
{
    let (_, inside) = symbol(rest, Symbol::OpenParen, depth);
    if let Some((_, end)) = optional(inside, Symbol::CloseParen, depth) {
        return (List::new(alloc), Rest::Left(end));
    }
    let (params, after) = read_params(alloc, inside, depth + 1);
    let (_, end) = symbol(after, Symbol::CloseParen, depth);
    (params, end)
}

fn container(span: Span, kind: Container, element: TypeNode) -> CrdtNode
    ensures { crdt_view result ≡ CrdtTree.node span (container_form kind (type_view element)) }
{
    match kind {
        Container::SetAw => crdt::set_aw(span, element),
        Container::SetRw => crdt::set_rw(span, element),
        Container::Reg => crdt::reg(span, element),
        Container::MvReg => crdt::mv_reg(span, element),
    }
}

fn map_type(
    alloc: Global,
    span: Span,
    kind: MapKind,
    key: TypeNode,
    value: CrdtNode,
) -> Result<CrdtNode, Memory>
    ensures { IfOk result (λ c. crdt_view c
        ≡ CrdtTree.node span (map_form kind (type_view key) (crdt_view value))) }
{
    match kind {
        MapKind::UpdateWins => crdt::map_uw(alloc, span, key, value),
        MapKind::DeleteWins => crdt::map_dw(alloc, span, key, value),
    }
}

#[cycle(crdts)]
pub(crate) fn read_crdt<'a>(alloc: Global, rest: Rest<'a>, depth: u32) -> (CrdtNode, Rest<'a>)
    requires { depth ≤ 65 }
    ensures within { Within depth result.1 }
    ensures no_longer { left result.1 ≤ left rest.entry }
    ensures reads { (o : Bounded) (d : ℕ) → d ≡ depth → (k : CrdtTree → State)
        → Stands rest.entry (want_crdt d k) o → Stands result.1 (k (crdt_view result.0)) o }
{
    let Rest::Left(marks) = rest else {
        return (no_crdt(), rest);
    };
    match crdt_first(marks, depth) {
        Ok((start, span, after)) => match start {
            CrdtStart::Counter => (crdt::counter(span), Rest::Left(after)),
            CrdtStart::Container(kind) => {
                let (element, span, end) = read_element(alloc, span, Rest::Left(after), depth);
                (container(span, kind, element), end)
            }
            CrdtStart::Map(kind) => read_map(alloc, kind, span, Rest::Left(after), depth),
            CrdtStart::Struct => read_struct(alloc, span, Rest::Left(after), depth),
        },
        Err(fault) => (no_crdt(), Rest::Failed(fault)),
    }
}

/// A map in brackets, behind its word.
#[cycle(crdts)]
fn read_map<'a>(
    alloc: Global,
    kind: MapKind,
    start: Span,
    rest: Rest<'a>,
    depth: u32,
) -> (CrdtNode, Rest<'a>)
    requires { depth ≤ 64 }
    ensures within { Within depth result.1 }
    ensures no_longer { left result.1 ≤ left rest.entry }
    ensures reads { (o : Bounded) (d : ℕ) → d ≡ depth → (k : CrdtTree → State)
        → Stands rest.entry (want_entry d start (λ t v e. k (CrdtTree.node e (map_form kind t v)))) o
        → Stands result.1 (k (crdt_view result.0)) o }
{
    let (_, inside) = symbol(rest, Symbol::OpenBracket, depth);
    let (key, after) = read_type(alloc, inside, depth + 1);
    let (_, behind) = symbol(after, Symbol::Comma, depth + 1);
    let (value, behind) = read_crdt(alloc, behind, depth + 1);
    let (close, end) = symbol(behind, Symbol::CloseBracket, depth);
    let span = join(start, close);
    let node = map_type(alloc, span, kind, key, value);
    made(node, no_crdt(), end)
}

/// Named parts and the closing brace, behind the opening one.
#[cycle(crdts)]
fn read_struct<'a>(alloc: Global, start: Span, rest: Rest<'a>, depth: u32) -> (CrdtNode, Rest<'a>)
    requires { depth ≤ 64 }
    ensures within { Within depth result.1 }
    ensures no_longer { left result.1 ≤ left rest.entry }
    ensures reads { (o : Bounded) (d : ℕ) → d ≡ depth → (k : CrdtTree → State)
        → Stands rest.entry (want_struct d start k) o → Stands result.1 (k (crdt_view result.0)) o }
{
    let (fields, after) = read_fields(alloc, rest, depth + 1);
    let (close, end) = symbol(after, Symbol::CloseBrace, depth);
    let span = join(start, close);
    (crdt::struct_(span, fields), end)
}

/// Named parts with commas between them, one at least.
#[cycle(crdts)]
fn read_fields<'a>(alloc: Global, marks: Rest<'a>, depth: u32) -> (List<FieldNode>, Rest<'a>)
    requires { depth ≤ 65 }
    ensures within { Within depth result.1 }
    ensures no_longer { left result.1 ≤ left marks.entry }
    ensures reads { (o : Bounded) (d : ℕ) → d ≡ depth → (k : Items FieldTree → State)
        → Stands marks.entry (want_field d (λ f. more_fields d (f ∷ []) k)) o
        → Stands result.1 (k (map field_view result.0)) o }
{
    let mut fields = List::new(alloc);
    let (first, after) = read_field(alloc, marks, depth);
    let mut rest = pushed(&mut fields, first, after);
    'fields: loop {
        let Some(after) = comma(rest, depth) else {
            return (fields, rest);
        };
        let (field, end) = read_field(alloc, Rest::Left(after), depth);
        rest = pushed(&mut fields, field, end);
    }
}

#[cycle(crdts)]
fn read_field<'a>(alloc: Global, rest: Rest<'a>, depth: u32) -> (FieldNode, Rest<'a>)
    requires { depth ≤ 65 }
    ensures within { Within depth result.1 }
    ensures no_longer { left result.1 ≤ left rest.entry }
    ensures reads { (o : Bounded) (d : ℕ) → d ≡ depth → (k : FieldTree → State)
        → Stands rest.entry (want_field d k) o → Stands result.1 (k (field_view result.0)) o }
{
    let (name, after) = name(alloc, rest, depth);
    let (_, after) = symbol(after, Symbol::Colon, depth);
    let (part, end) = read_crdt(alloc, after, depth);
    (crdt::field(name, part), end)
}
