//! The goals of a program as formulas of logic: what a structure has to make true where a goal's sentence fails. What the
//! definitions say stands in `specs/`.
#![tactic(auto)]

mod laws;

pub use laws::{claims_are_exact, moves_are_exact, refuted_start_holds, start_is_exact};
