//! The checker of refutations: whether a tree of rule uses is a closed tree of the given formulas.
#![tactic(auto)]

mod checker;
mod error;
mod walk;

pub use checker::{are_well_sorted, check};
pub use error::CheckErr;
