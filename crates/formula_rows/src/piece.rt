//! What is still to be put.

use rp_lang::PathStep;
use rp_logic::{Atom, Fml, Term};

/// A piece of what is told of a program. Behind a formula or a term stands how many variables are bound around it. A
/// list stands for all of its members, each behind this word.
#[derive(Clone, Copy)]
pub enum Piece<'a> {
    Text(&'a [u8]),
    Number(i128),
    /// The variable that so many are bound around.
    Variable(u32),
    Sort(u32),
    Sorts(&'a [u8], &'a [u32]),
    Con(u32),
    Cons(&'a [u8], &'a [u32]),
    Fun(u32),
    Rel(u32),
    Path(&'a [PathStep]),
    Term(&'a Term, u32),
    Terms(&'a [u8], &'a [Term], u32),
    Atom(&'a Atom, u32),
    Formula(&'a Fml, u32),
    Formulas(&'a [u8], &'a [Fml], u32),
}
