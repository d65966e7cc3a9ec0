//! What an invocation of a state reads, and the values and truths that follow.
#![tactic(auto)]

mod laws;
mod reads;

pub use laws::states_have_words;
pub use reads::{calls_of, truth_at, value_at, values_at};
