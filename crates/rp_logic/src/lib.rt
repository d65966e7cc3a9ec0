//! Many-sorted first-order logic: terms, formulas and signatures.
#![tactic(auto)]

mod atom;
mod formula;
mod kept;
mod laws;
mod negation;
pub mod rows;
mod scope;
mod sig;
mod sort;
mod sorted;
mod substitution;
mod term;

pub use atom::Atom;
pub use formula::{Fml, copy_formulas};
pub use laws::{
    closed_terms_have_values, dual_is_the_denial, duals_are_mutual, equal_elements_pass,
    filling_means_its_values, instance_means_its_body, instances_are_sorted,
    open_terms_have_values, truth_is_classical, unused_constants_are_free,
};
pub use negation::negate;
pub use scope::Scope;
pub use sig::Sig;
pub use sort::{FnDecl, LogicCon, NewConst, Sort};
pub use sorted::{has_sort, head_sort, is_sorted_atom, well_sorted};
pub use substitution::substitute;
pub use term::{Term, copy_terms, same_terms};
