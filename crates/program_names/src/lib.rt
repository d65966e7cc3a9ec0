//! What names stand for in a program, and the names of its parts.
#![tactic(auto)]

mod names;
mod parts;
mod tables;

pub use names::Names;
pub use parts::{atom_name, con_fields, con_name, params_of, proc_name};
