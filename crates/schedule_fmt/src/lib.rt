//! The text form of schedules: `read` and `write`, and the texts of the values in them.
#![tactic(auto)]

mod bytes;
mod laws;
mod lines;
mod names;
mod numbers;
mod printer;
mod reader;
mod reading;
mod schedule;
mod stop;
mod strings;
mod values;
mod writing;

pub use reading::{read, read_value};
pub use schedule::{Schedule, ScheduleErr, ValueAt};
pub use writing::{value_text, write};
