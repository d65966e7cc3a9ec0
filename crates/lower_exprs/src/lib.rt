//! What a text's expressions become.
#![tactic(auto)]

mod bodies;
mod sound;
mod stop;
mod values;

pub use bodies::are_sound;
pub use stop::Stop;
pub use values::{Made, Maker, Passed, Value, Work, as_formula, as_term};
