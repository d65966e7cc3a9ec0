//! The signature of a program as a value, which keeps what a signature keeps.
#![tactic(auto)]

mod signature;

pub use signature::sig_of;
