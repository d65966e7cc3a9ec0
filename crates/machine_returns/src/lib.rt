//! What invocations return.
#![tactic(auto)]

mod known;
mod returning;

pub use returning::give_back;
