//! The axiom of places, computed.
#![tactic(auto)]

mod places;
mod spots;
mod walk;

pub use places::push_places_are_told;
