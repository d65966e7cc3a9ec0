//! The axioms of a program's signatures, computed.
#![tactic(auto)]

mod calls;
mod clauses;
mod identifiers;
mod literal;
mod numbers;
mod results;
mod views;

pub use calls::{push_of_calls, push_own_calls_in_line};
pub use identifiers::push_arguments_were_results;
pub use literal::Literal;
pub use numbers::{id_rel, read_rel, seen_rel};
pub use results::{push_markers_stand, push_results_stay};
pub use views::push_views_grow;
