//! The rules of refutations: what a node adds for its children at a branch, if it meets its rule.
#![tactic(auto)]

mod additions;
mod conclude;
mod conclusion;
mod congruences;
mod datatypes;
mod equalities;
mod orders;
mod propositions;
mod quantifiers;
mod stop;
mod sums;

pub use additions::Addition;
pub use conclude::children;
pub use stop::Stop;
