//! What the store means: histories of calls, what queries of replicated types answer at a set of calls,
//! consistent snapshots, truth at a snapshot.
#![tactic(auto)]

mod asked;
mod call;
pub mod rows;

pub use asked::{Answer, Found, Question, Winner};
pub use call::CallRec;
