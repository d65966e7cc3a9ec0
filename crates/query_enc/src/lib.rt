//! The formulas of logic of a program's queries, computed.
#![tactic(auto)]

mod answers;
mod built;
mod counting;
mod lists;
mod literals;
mod queries;
mod raising;
mod staying;
mod tests;
mod ways;

pub use built::push_selectors;
pub use counting::Such;
pub use literals::{applied, is_before, over_one, over_two};
pub use queries::{encode_query, query_formula};
pub use raising::raise;
pub use tests::Test;
pub use ways::Way;
