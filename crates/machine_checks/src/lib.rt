//! Checks of invariants at snapshots of a state, and truth at its views.
#![tactic(auto)]

mod checks;
mod laws;
mod truths;

pub use checks::check;
pub use laws::accessors_tell;
pub use truths::truth;
