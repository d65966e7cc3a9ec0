use crate::op::PathStep;
use rp_value::{List, Ty};

/// A query of the part of a root that a path leads to.
#[derive(Drop)]
pub struct QueryDecl {
    pub root: u32,
    pub path: List<PathStep>,
    pub kind: QueryKind,
    pub args: List<Ty>,
    pub result: Ty,
}

#[derive(Clone, Copy, PartialEq, Eq)]
pub enum QueryKind {
    Contains,
    HasKey,
    GetReg,
    GetSum,
}
