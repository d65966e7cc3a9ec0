//! Whether an expression or a formula is within the limits on one.
#![tactic(auto)]

mod bounds;

pub use bounds::{are_small_exs, fields_of, is_small_ex, is_small_fo};
