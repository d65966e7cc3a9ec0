//! Which program a text is.
#![tactic(auto)]

mod decls;
mod limits;
mod program;

pub use program::{TypeErr, resolve};
