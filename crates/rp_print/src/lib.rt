//! The printed form of a program.
#![tactic(auto)]

mod crdt;
mod decl;
mod expr;
pub mod laws;
mod stmt;
mod token;
mod ty;

pub use decl::print;

/// How an expression stands in what is printed.
#[derive(Clone, Copy, PartialEq, Eq)]
enum Place {
    /// Nothing beside it could be taken for a part of it.
    Whole,
    /// An argument, a key or the body of an arm.
    Argument,
    Operand,
}
