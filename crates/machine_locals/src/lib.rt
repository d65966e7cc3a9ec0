//! Steps of an invocation by itself.
#![tactic(auto)]

mod arm;
mod locals;
mod slots;

pub use locals::local;
