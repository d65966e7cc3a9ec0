//! Terms by their numbers: each term is one node, a symbol over the numbers of its arguments.
#![tactic(auto)]

mod bank;
mod hash;
mod hashes;
mod node;
mod symbol;

pub use bank::Bank;
pub use symbol::Symbol;
