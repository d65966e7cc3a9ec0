//! The type rules T01 to T24: what each says of a text's tree, where it is broken, and which fault
//! is the first. What the definitions say stands in `specs/`.
#![tactic(auto)]

mod fault;
mod kind;
mod laws;
mod role;

pub use fault::Fault;
pub use kind::{Base, Kind};
pub use laws::{first_is_least, one_least};
pub use role::Role;
