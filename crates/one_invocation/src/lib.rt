//! One invocation by itself: the goals of a program as sentences about states, and what they show of its runs.
#![tactic(auto)]

mod laws;
mod rows;

pub use laws::{goals_keep_safe, goals_of_places, trail_facts, trails_go_on, trails_grow};
pub use rows::{
    a_program_meets_its_goals, an_unsafe_program_has_an_unmet_goal, goals_of_keeps_users,
    goals_of_removes_users, goals_on_paths,
};
