//! The goals of a program are tried at all truth values of the parameters.
#![tactic(auto)]

mod counting;
mod counts;
mod goals;
mod left;
mod rows;
mod truth;
mod verdict;
mod walk;

pub use goals::verify;
pub use verdict::{GoalErr, Unproved, Verdict};
