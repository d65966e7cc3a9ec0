//! Which program a text's tree is: the numbers of what it declares, and what its expressions and
//! statements become. What the definitions say stands in `specs/`.
#![tactic(auto)]

mod laws;
mod limit_rows;
mod rows;
mod statement_rows;

pub use laws::{computed_programs, depths_are_told, one_program};
pub use limit_rows::{names_of_invariants, numbers_at_limits, numbers_of_datatypes};
pub use rows::{comparisons, formulas, numbers, records, sums, uses_of_queries, whole_programs};
pub use statement_rows::{
    assertions, atomic_blocks, conditions, declarations, operations, returned_values,
};
