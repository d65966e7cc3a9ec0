//! What is told of the text of a schedule.
#![tactic(auto)]

mod laws;
mod lines;
mod report;

pub use laws::a_schedule_has_one_report;
pub use lines::line_of;
pub use report::{Replayed, replay_text};
