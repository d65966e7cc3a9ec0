use crate::crdt::CrdtNode;
use crate::expr::ExprNode;
use crate::ident::Ident;
use crate::stmt::Block;
use crate::ty::{Param, TypeNode};
use rp_span::Span;
use rp_value::List;

/// The tree of a program.
#[derive(Drop)]
pub struct Ast {
    pub decls: List<Decl>,
}

impl Ast {
    /// Lets go of the tree. A crate that calls this doesn't prove again how trees are let go of.
    pub fn let_go(self) {}
}

/// A declaration.
#[derive(Drop)]
pub struct Decl {
    pub span: Span,
    pub what: DeclForm,
}

#[derive(Drop)]
pub enum DeclForm {
    IdType(Ident),
    Opaque(Ident),
    Datatype(Ident, List<ConNode>),
    Crdt(Ident, CrdtNode),
    Query(QueryNode),
    Invariant(Option<Ident>, ExprNode),
    Proc(ProcNode),
}

/// A constructor of a datatype, and its fields.
#[derive(Drop)]
pub struct ConNode {
    pub name: Ident,
    pub fields: List<Param>,
}

#[derive(Drop)]
pub struct QueryNode {
    pub name: Ident,
    pub params: List<Param>,
    pub result: TypeNode,
    pub body: ExprNode,
}

#[derive(Drop)]
pub struct ProcNode {
    pub name: Ident,
    pub params: List<Param>,
    pub result: Option<TypeNode>,
    pub body: Block,
}
