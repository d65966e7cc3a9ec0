//! Formulas in another shape with the same meaning: laws, as functions with nothing to run.
#![tactic(auto)]

mod laws;
pub mod rows;

pub use laws::{eliminations_are_sorted, parts_join, reshaping_keeps_meaning};
