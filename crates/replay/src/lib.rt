//! Schedules, run on the machine from the empty state.
#![tactic(auto)]

mod laws;
mod replayed;

pub use laws::{first_limits_are_one, read_schedules_fit};
pub use replayed::{Outcome, ReplayErr, replay};
