use crate::ident::Ident;
use crate::ty::TypeNode;
use rp_span::Span;
use rp_value::{Boxed, List};

/// A replicated data type as it is written.
#[cycle(crdt)]
#[derive(Drop)]
pub struct CrdtNode {
    pub span: Span,
    pub what: CrdtForm,
}

#[cycle(crdt)]
#[derive(Drop)]
pub enum CrdtForm {
    /// A set where an element added and removed concurrently stays.
    SetAw(TypeNode),
    /// A set where an element added and removed concurrently goes.
    SetRw(TypeNode),
    Reg(TypeNode),
    /// A register with the values of all assignments that no later one replaced.
    MvReg(TypeNode),
    Counter,
    /// A map where an update that is concurrent to a delete stays.
    MapUw(TypeNode, Boxed<CrdtNode>),
    /// A map where an update that is concurrent to a delete goes.
    MapDw(TypeNode, Boxed<CrdtNode>),
    Struct(List<FieldNode>),
}

/// A named part of a `CrdtForm::Struct`.
#[cycle(crdt)]
#[derive(Drop)]
pub struct FieldNode {
    pub name: Ident,
    pub crdt: CrdtNode,
}
