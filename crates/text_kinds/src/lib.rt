//! The datatypes of a text by their numbers, in the order in which they first appear.
#![tactic(auto)]

mod adding;
mod appearances;
mod datatypes;
mod declared;
mod kinds;
mod numbers;
mod statements;
mod table;

pub use datatypes::datatypes_in;
pub use kinds::con_count;
pub use table::KindTable;
