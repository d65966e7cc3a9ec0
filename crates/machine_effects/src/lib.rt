//! What labels of the machine do to a state, where they evaluate nothing: an invocation begins or fails, a transaction
//! begins or is committed, an identifier is made.
#![tactic(auto)]

mod effect;
mod error;
mod laws;
mod points;

pub use effect::{begin, commit, fail, invoke, make};
pub use error::StepErr;
pub use laws::states_fit;
pub use points::{behind_operation, returned};
