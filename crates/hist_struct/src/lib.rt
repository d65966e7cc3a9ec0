//! Histories as structures: the structure of a step, and the axioms that hold in each. What the definitions say
//! stands in `specs/`.
#![tactic(auto)]

mod laws;
pub mod rows;

pub use laws::{
    axioms_are_exact, axioms_hold, defaults_are_values, elements_are_values, extensions_go_on,
    labels_are_steps, no_value_is_deeper, steps_are_structures, structures_fit, tables_hold,
};
