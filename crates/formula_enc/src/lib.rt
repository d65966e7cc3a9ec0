//! The formulas of logic of a program's formulas, computed.
#![tactic(auto)]

mod atoms;
mod bounds;
mod formulas;
mod guards;
mod invocations;
mod setting;
mod signs;
mod terms;

pub use bounds::Bounds;
pub use formulas::{encode_formula, formula_of};
pub use setting::{Place, Setting};
pub use terms::term_of;
