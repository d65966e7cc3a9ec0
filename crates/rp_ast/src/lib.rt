//! The trees of programs.
#![tactic(auto)]

pub mod build;
mod crdt;
mod decl;
mod expr;
mod ident;
pub mod laws;
mod stmt;
mod ty;

pub use crdt::{CrdtForm, CrdtNode, FieldNode};
pub use decl::{Ast, ConNode, Decl, DeclForm, ProcNode, QueryNode};
pub use expr::{AccessNode, AccessStep, ExprArm, ExprForm, ExprNode, PatternNode};
pub use ident::Ident;
pub use rp_grammar::{CallWord, CompareOp};
pub use stmt::{Block, BlockArm, ElseNode, StmtForm, StmtNode};
pub use ty::{Param, TypeForm, TypeNode};
