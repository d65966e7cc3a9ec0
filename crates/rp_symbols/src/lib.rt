//! The symbols of a program's signatures, and their numbers. What the definitions say stands in `specs/`.
#![tactic(auto)]

mod laws;
pub mod rows;

pub use laws::{
    constructors_stand_at_their_numbers, functions_stand_at_their_numbers,
    relations_stand_at_their_numbers, sorts_stand_at_their_numbers, what_a_path_adds_stands,
};
