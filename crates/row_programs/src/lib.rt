//! What programs of rows share: the program of a text, the lines of a block, and the count of the rows.
#![tactic(auto)]

mod lines;
mod program;
mod tally;

pub use lines::lines_behind;
pub use program::program_of;
pub use tally::Tally;
