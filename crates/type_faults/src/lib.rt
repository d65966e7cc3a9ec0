//! The first fault of a text: which of the type rules T01 to T24 is broken first, and where.
#![tactic(auto)]

mod accesses;
mod blocks;
mod decls;
mod exprs;
mod marks;
mod names;
mod params;
mod patterns;
mod right;
mod simple;
mod stmts;
mod text;
mod told;
mod walk;

pub use text::first_fault;
