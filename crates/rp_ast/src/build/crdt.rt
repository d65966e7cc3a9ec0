//! Replicated types from their parts.
#![tactic(auto, using(crate::proofs::TypeViews::crdt_views))]

ghost use Rattle.std.specs.Prelude.{◌≡◌, IfOk};
ghost use Rattle.rp_grammar.specs.Trees.{CrdtTree, CrdtForm as CrdtShape, FieldTree};
ghost use Rattle.rp_ast.specs.View.{ident_view, type_view, crdt_view, field_view, fields_view};

use crate::crdt::{CrdtForm, CrdtNode, FieldNode};
use crate::ident::Ident;
use crate::ty::TypeNode;
use rp_span::Span;
use rp_value::{Boxed, List, Memory};
use std::alloc::Global;

pub fn set_aw(span: Span, element: TypeNode) -> CrdtNode
    ensures { crdt_view result ≡ CrdtTree.node span (CrdtShape.set_aw (type_view element)) }
{
    CrdtNode {
        span,
        what: CrdtForm::SetAw(element),
    }
}

pub fn set_rw(span: Span, element: TypeNode) -> CrdtNode
    ensures { crdt_view result ≡ CrdtTree.node span (CrdtShape.set_rw (type_view element)) }
{
    CrdtNode {
        span,
        what: CrdtForm::SetRw(element),
    }
}

pub fn reg(span: Span, element: TypeNode) -> CrdtNode
    ensures { crdt_view result ≡ CrdtTree.node span (CrdtShape.reg (type_view element)) }
{
    CrdtNode {
        span,
        what: CrdtForm::Reg(element),
    }
}

pub fn mv_reg(span: Span, element: TypeNode) -> CrdtNode
    ensures { crdt_view result ≡ CrdtTree.node span (CrdtShape.mv_reg (type_view element)) }
{
    CrdtNode {
        span,
        what: CrdtForm::MvReg(element),
    }
}

pub fn counter(span: Span) -> CrdtNode
    ensures { crdt_view result ≡ CrdtTree.node span CrdtShape.counter }
{
    CrdtNode {
        span,
        what: CrdtForm::Counter,
    }
}

pub fn map_uw(alloc: Global, span: Span, key: TypeNode, value: CrdtNode) -> Result<CrdtNode, Memory>
    ensures { IfOk result (λ x. crdt_view x
        ≡ CrdtTree.node span (CrdtShape.map_uw (type_view key) (crdt_view value))) }
{
    let what = CrdtForm::MapUw(key, Boxed::new(alloc, value)?);
    Ok(CrdtNode { span, what })
}

pub fn map_dw(alloc: Global, span: Span, key: TypeNode, value: CrdtNode) -> Result<CrdtNode, Memory>
    ensures { IfOk result (λ x. crdt_view x
        ≡ CrdtTree.node span (CrdtShape.map_dw (type_view key) (crdt_view value))) }
{
    let what = CrdtForm::MapDw(key, Boxed::new(alloc, value)?);
    Ok(CrdtNode { span, what })
}

pub fn struct_(span: Span, fields: List<FieldNode>) -> CrdtNode
    ensures { crdt_view result ≡ CrdtTree.node span (CrdtShape.struct (fields_view fields)) }
{
    CrdtNode {
        span,
        what: CrdtForm::Struct(fields),
    }
}

pub fn field(name: Ident, crdt: CrdtNode) -> FieldNode
    ensures { field_view result ≡ FieldTree.field (ident_view name) (crdt_view crdt) }
{
    FieldNode { name, crdt }
}
