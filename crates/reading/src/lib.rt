//! What the expressions of a text say, with uses of queries as they stand.
#![tactic(auto)]

mod access;
mod arms;
mod called;
mod chains;
mod exprs;
mod forms;
mod path;
mod queries;
mod reader;

pub use queries::lower_queries;
pub use reader::{Known, Reader};
