//! What a running invocation evaluates next, within 128 bits.
#![tactic(auto)]

mod next;

pub use next::next_is_within;
