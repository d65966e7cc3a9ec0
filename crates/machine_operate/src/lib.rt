//! A call of an open transaction.
#![tactic(auto)]

mod operation;

pub use operation::operate;
