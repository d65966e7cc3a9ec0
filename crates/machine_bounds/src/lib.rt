//! What a program's expressions and formulas come to fits 128 bits.
#![tactic(auto)]

mod laws;

pub use laws::{invariants_within, invocations_within};
