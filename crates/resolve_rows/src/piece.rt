//! What is still to be put.

use rp_lang::{Arm, Crdt, Expr, Field, Formula, OpDecl, PathStep, QueryDecl, Root};
use rp_span::Span;
use rp_value::{AtomType, ConDecl, DataDecl, Ty};

/// A piece of what is told of a program. A list stands for all of its members, one behind the other; the
/// number beside it is that of the first.
#[derive(Clone, Copy)]
pub enum Piece<'a> {
    Text(&'a [u8]),
    Number(i128),
    /// A word with a number behind it.
    Named(&'a [u8], u32),
    /// Numbers, each behind this word.
    Numbers(&'a [u8], &'a [u32]),
    Ty(Ty),
    /// Types, each behind a blank.
    Tys(&'a [Ty]),
    /// The type of what a procedure returns.
    Returned(Option<Ty>),
    /// A span, and the end of the line.
    At(Span),
    Expr(&'a Expr),
    /// Arguments in parentheses, if there are any.
    Args(&'a [Expr]),
    /// Expressions, each behind a comma.
    MoreExprs(&'a [Expr]),
    Formula(&'a Formula),
    /// Formulas, each behind a comma.
    MoreFormulas(&'a [Formula]),
    /// Arms, each behind a comma.
    Arms(&'a [Arm]),
    Crdt(&'a Crdt),
    /// Fields, each behind a comma.
    MoreFields(&'a [Field]),
    Path(&'a [PathStep]),
    Atoms(u32, &'a [AtomType]),
    Datatypes(u32, &'a [DataDecl]),
    Cons(u32, &'a [ConDecl]),
    Roots(u32, &'a [Root]),
    Ops(u32, &'a [OpDecl]),
    Queries(u32, &'a [QueryDecl]),
}
