//! What the program `repliss` does with its words, over files and a sink that are handed in.
#![tactic(auto)]

mod judge;
pub mod laws;
mod places;
mod replays;
mod report;
mod sources;
mod texts;
mod top;
mod words;

pub use report::Status;
pub use top::run;
