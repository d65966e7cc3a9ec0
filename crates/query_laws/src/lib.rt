//! Laws on the bodies of queries: definitions and laws alone. What the definitions say stands in
//! `specs/`.
#![tactic(auto)]

mod forms;
mod laws;
mod measures;
mod over;

pub use forms::{
    accesses_are_said, atoms_are_said, comparisons_are_said, connectives_are_said,
    matches_are_said, numbers_are_said, paths_are_said, quantifiers_are_said, terms_are_said,
    words_are_said,
};
pub use laws::{
    arguments_are_given, bodies_are_uses, names_are_told, parameters_are_given, terms_are_lifted,
    uses_tell_all, variables_are_lifted,
};
pub use measures::{bodies_are_measured, large_values_are_past, measures_are_told};
pub use over::{
    claims_are_over, lists_are_over, parameters_are_few, terms_are_over, uses_are_over,
};
