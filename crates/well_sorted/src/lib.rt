//! Encoded formulas and the axioms are well sorted.
#![tactic(auto)]

mod laws;

pub use laws::{
    axioms_are_sorted, encoded_formulas_are_sorted, signatures_are_kept, signatures_have_symbols,
};
