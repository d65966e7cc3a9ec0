//! The branch on which a checker of trees stands: its formulas and constants, what a node names of
//! it, and whether a constant is new.
#![tactic(auto)]

mod branch;
mod form;
mod marks;
mod same;
mod shape;
mod sorts;

pub use branch::{
    OpenBranch, add_formula, conjuncts_at, denied_order_at, disjuncts_at, equality_at,
    existential_at, formula_at, go_back, is_new, literal_at, order_at, start, universal_at,
};
pub use form::{Order, Sides};
pub use marks::Mark;
pub use same::{is_same, is_same_atom};
pub use shape::{
    only_place, only_two_places, place_and_pick, place_and_term, term_and_pick, term_with_places,
    the_atom, the_place, the_places, the_term, two_places, two_terms,
};
pub use sorts::{constructors, is_atom, is_number, is_of_sort, is_term};
