use crate::ident::Ident;
use rp_span::Span;
use rp_value::{Boxed, Bytes};

/// A type as it is written.
#[cycle(ty)]
#[derive(Drop)]
pub struct TypeNode {
    pub span: Span,
    pub what: TypeForm,
}

#[cycle(ty)]
#[derive(Drop)]
pub enum TypeForm {
    Named(Bytes),
    Bool,
    Int,
    Text,
    Maybe(Boxed<TypeNode>),
    Call,
    Invocation,
}

/// A name with its type: a parameter, a field of a constructor or a quantified variable.
#[derive(Drop)]
pub struct Param {
    pub name: Ident,
    pub ty: TypeNode,
}
