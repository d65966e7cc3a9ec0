//! Queries and formulas of programs as formulas of logic: which formula stands for which, and that it means the same.
//! What the definitions say stands in `specs/`.
#![tactic(auto)]

mod laws;
pub mod rows;

pub use laws::{formulas_mean_truth, queries_mean_answers};
