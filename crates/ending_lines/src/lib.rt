//! The lines that tell how a schedule ends.
#![tactic(auto)]

mod ending;
mod refused;

pub use ending::{ending_line, limit_line};
pub use refused::why_text;
