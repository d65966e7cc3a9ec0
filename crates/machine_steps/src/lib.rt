//! The machine, run: one step of a state at a time, and truth at its views.
#![tactic(auto)]

mod steps;

pub use machine_checks::truth;
pub use steps::step;
