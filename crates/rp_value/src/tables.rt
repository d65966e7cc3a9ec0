use crate::list::{Bytes, List};

/// The type of a value. `Atom` and `Datatype` name an entry of a `TypeTable`.
#[derive(Clone, Copy, PartialEq, Eq)]
pub enum Ty {
    Int,
    Str,
    Atom(u32),
    Datatype(u32),
    Call,
    Inv,
    Operation,
    Info,
    Outcome,
}

/// The id types, opaque types and datatypes of a program.
#[derive(Drop)]
pub struct TypeTable {
    pub atoms: List<AtomType>,
    pub datatypes: List<DataDecl>,
}

/// An id type or an opaque type.
#[derive(Drop)]
pub struct AtomType {
    pub name: Bytes,
    pub is_id: bool,
}

/// A datatype with the numbers of its constructors, entries of a `ConTable`.
#[derive(Drop)]
pub struct DataDecl {
    pub name: Bytes,
    pub cons: List<u32>,
}

/// The constructors of a program. Constructor 0 is `false` and 1 is `true`.
#[derive(Drop)]
pub struct ConTable {
    pub cons: List<ConDecl>,
}

/// A constructor: its datatype's number, and the types of its fields.
#[derive(Drop)]
pub struct ConDecl {
    pub name: Bytes,
    pub of: u32,
    pub fields: List<Ty>,
}
