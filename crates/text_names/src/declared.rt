//! What a text declares.

use crate::cons::ConList;
use crate::part::Part;
use rp_ast::{ConNode, ProcNode, QueryNode};

#[derive(Drop)]
pub enum TypeSort<'a> {
    Id,
    Opaque,
    Datatype(ConList<'a>),
}

/// A declared type, with the number of its declaration.
#[derive(Drop)]
pub struct TypeItem<'a> {
    pub name: &'a [u8],
    pub decl: u32,
    pub sort: TypeSort<'a>,
}

#[derive(Clone, Copy)]
pub enum Declared<'a> {
    Root(Part<'a>),
    Query(&'a QueryNode),
    Proc(&'a ProcNode),
    /// A constructor of the type of that number.
    Con(u32, &'a ConNode),
}

/// A root, query, procedure or constructor, with the number of its declaration.
#[derive(Clone, Copy)]
pub struct Item<'a> {
    pub name: &'a [u8],
    pub decl: u32,
    pub what: Declared<'a>,
}
