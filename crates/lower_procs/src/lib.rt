//! What a text's statements, procedures and invariants become.
#![tactic(auto)]

mod blocks;
mod pieces;
mod procs;
mod stmts;
mod writer;

pub use procs::{invariant, procedure};
