//! How many paths lead through procedures, the limits on paths and goals, and goals by their numbers.
#![tactic(auto)]

mod laws;

pub use laws::{goals_are_counted, goals_by_number, paths_are_counted};
