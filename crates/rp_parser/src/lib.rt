//! The trees of texts: `parse` reads the tree that the grammar gives some tokens, or names the first
//! token that no program goes on with, or the first one that is nested too deep.
#![tactic(auto)]

mod accesses;
mod decl_starts;
mod decls;
mod error;
mod expr_starts;
mod exprs;
mod fault;
mod leaves;
mod mark;
mod next;
mod operands;
mod patterns;
mod reading;
mod rest;
mod sentences;
mod signs;
mod starts;
mod stmt_starts;
mod stmts;
mod sums;
mod text;
mod types;

pub use error::ParseErr;
pub use text::parse;
