//! States of the machine, what is asked of them, why a step is refused, and the writes that steps are made of.
#![tactic(auto)]

mod moves;
mod refusal;
mod state;
mod table;

pub use state::{Run, Standing, State};
pub use table::Table;
