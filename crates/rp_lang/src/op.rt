use rp_value::{List, Ty};

/// An operation on the part of a root that a path leads to. Operation 0 of a program is `tx`.
#[derive(Drop)]
pub struct OpDecl {
    pub root: u32,
    pub path: List<PathStep>,
    pub kind: OpKind,
    pub args: List<Ty>,
}

/// One step from a replicated object to a part of it: a field by its number, or a key of a type.
#[derive(Clone, Copy, PartialEq, Eq)]
pub enum PathStep {
    Field(u32),
    Key(Ty),
}

#[derive(Clone, Copy, PartialEq, Eq)]
pub enum OpKind {
    /// Opens a transaction, and changes nothing.
    Tx,
    Add,
    Remove,
    Assign,
    Increment,
    Delete,
}
