//! The points of a procedure's body: places where an invocation may stand, by numbers, and what is left from each on.
#![tactic(auto)]

mod action;
mod point;
mod table;

pub use point::{Spot, size};
pub use table::{Place, next_at, places_of, rest_at, spot_at};
