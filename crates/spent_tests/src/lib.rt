//! What the nodes of a counted tree keep, tested at a branch.
#![tactic(auto)]

mod bodies;
mod branch;
mod complete;
mod conditions;
mod due;
mod matching;
mod on;
mod ranks;
mod same;
mod standing;

pub use branch::{RankedBranch, add_ranked, go_back_ranked, start_ranked};
pub use complete::is_complete;
pub use conditions::{is_counted, keeps};
pub use ranks::rank_of;
pub use standing::Standing;
