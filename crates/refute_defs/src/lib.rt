//! Refutations: trees of rule uses, what closes them, and that a closed tree refutes its given
//! formulas.
#![tactic(auto)]

mod laws;
pub mod rows;
mod tree;

pub use laws::{children_are_steps, no_structure, refutations_conclude, verdicts_are_exact};
pub use tree::{Node, RuleUse, Tree};
