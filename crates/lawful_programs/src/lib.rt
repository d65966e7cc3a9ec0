//! A lawful text has a program: definitions and laws alone. What the definitions say stands in
//! `specs/`.
#![tactic(auto)]

mod laws;

pub use laws::{
    expressions_have_values, invariants_have_values, roots_are_there, texts_are_ready,
    texts_have_programs,
};
