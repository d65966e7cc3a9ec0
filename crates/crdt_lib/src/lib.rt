//! The store: histories of calls, what queries of replicated types answer at a set of calls, and consistent snapshots.
#![tactic(auto)]

mod answer;
mod atoms;
mod doing;
mod history;
mod integers;
mod picked;
mod query;
mod row;
mod snapshot;
mod view;

pub use atoms::atoms_of;
pub use doing::keys_in;
pub use history::History;
pub use query::{answer_of, holds, query_holds, query_value, value_of};
pub use snapshot::is_snapshot;
pub use view::{ListView, View};
