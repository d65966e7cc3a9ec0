//! Counted trees: what a search for a refutation leaves that has used its budget.
#![tactic(auto)]

mod laws;
pub mod rows;

pub use laws::verdicts_are_exact;
