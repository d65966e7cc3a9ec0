//! Truth at a snapshot, computed: the values of expressions and the truth of formulas, as the store defines them.
#![tactic(auto)]

mod binders;
mod breadths;
mod done;
mod exprs;
mod formulas;
mod meaning;
mod numbers;
mod ranges;
mod reading;
mod stored;
mod truths;

pub use binders::Binders;
pub use breadths::breadth;
pub use exprs::{value, values};
pub use reading::{Info, Outcome, Reading};
pub use truths::truth;
