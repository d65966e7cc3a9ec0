//! Whether a program is over truth values: procedures of `Bool` parameters that branch and assert, and nothing else.
#![tactic(auto)]

pub mod laws;
mod procs;
mod program;

pub use program::is_first_form;
