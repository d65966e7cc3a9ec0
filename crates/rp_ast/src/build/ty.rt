//! Types from their parts.
#![tactic(auto, using(crate::proofs::TypeViews::type_views))]

ghost use Rattle.std.specs.Prelude.{◌≡◌, IfOk};
ghost use Rattle.rp_grammar.specs.Trees.{TypeTree, TypeForm as TypeShape};
ghost use Rattle.rp_ast.specs.View.{type_view};

use crate::ty::{TypeForm, TypeNode};
use rp_span::Span;
use rp_value::{Boxed, Bytes, Memory};
use std::alloc::Global;

pub fn named(span: Span, name: Bytes) -> TypeNode
    ensures { type_view result ≡ TypeTree.node span (TypeShape.named name) }
{
    TypeNode {
        span,
        what: TypeForm::Named(name),
    }
}

pub fn bool_(span: Span) -> TypeNode
    ensures { type_view result ≡ TypeTree.node span TypeShape.bool }
{
    TypeNode {
        span,
        what: TypeForm::Bool,
    }
}

pub fn int(span: Span) -> TypeNode
    ensures { type_view result ≡ TypeTree.node span TypeShape.int }
{
    TypeNode {
        span,
        what: TypeForm::Int,
    }
}

pub fn text(span: Span) -> TypeNode
    ensures { type_view result ≡ TypeTree.node span TypeShape.text }
{
    TypeNode {
        span,
        what: TypeForm::Text,
    }
}

pub fn call(span: Span) -> TypeNode
    ensures { type_view result ≡ TypeTree.node span TypeShape.call }
{
    TypeNode {
        span,
        what: TypeForm::Call,
    }
}

pub fn invocation(span: Span) -> TypeNode
    ensures { type_view result ≡ TypeTree.node span TypeShape.invocation }
{
    TypeNode {
        span,
        what: TypeForm::Invocation,
    }
}

pub fn maybe(alloc: Global, span: Span, inner: TypeNode) -> Result<TypeNode, Memory>
    ensures { IfOk result (λ x. type_view x
        ≡ TypeTree.node span (TypeShape.maybe (type_view inner))) }
{
    let what = TypeForm::Maybe(Boxed::new(alloc, inner)?);
    Ok(TypeNode { span, what })
}
