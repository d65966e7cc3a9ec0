//! Tests that the machine makes of a step: of its values, of its stamp, and of the transactions that it sees.
#![tactic(auto)]

mod atoms;
mod closed;
mod committed;
mod fitting;
mod indexed;
mod integers;
mod lists;
mod rows;
mod sets;
mod stamps;

pub use atoms::{has_atom, outside, unknown};
pub use closed::missing;
pub use committed::{is_committed, least_open};
pub use fitting::{are_of, names_ids};
pub use indexed::IndexedHistory;
pub use integers::{all_ints_fit, ints_fit};
pub use sets::calls_read;
pub use stamps::{greatest_stamp, has_stamp};
