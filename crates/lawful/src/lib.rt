//! What a lawful text's tree becomes is well formed: facts of texts, and the types of what its
//! expressions become. What the definitions say stands in `specs/`.
#![tactic(auto)]

mod laws;

pub use laws::{
    arms_are_complete, calls_are_typed, constructors_are_numbered, constructors_are_typed,
    expressions_are_typed, fields_are_ordinary, first_entries, invariants_are_typed,
    named_types_are_ranges, names_differ, places_are_kept, programs_are_well_formed,
    results_are_returned, tables_are_tied, values_flow_alike,
};
