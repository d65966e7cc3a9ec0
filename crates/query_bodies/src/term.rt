use crate::claim::Claim;
use rp_value::{Boxed, Bytes, List};

/// A plain term of a text, in which uses of queries stand as they are. Sums keep their operands, since
/// an argument of a use may turn out to be a literal.
#[cycle(terms)]
#[derive(Drop)]
pub enum Term {
    Slot(u32),
    /// The parameter of this number of the query in whose body it stands.
    Param(u32),
    /// The variable of a binder: so many binders of the same expression stand around that one.
    Level(u32),
    Int(i128),
    Str(Bytes),
    Con(u32, List<Term>),
    Sum(Boxed<Term>, Boxed<Term>),
    Difference(Boxed<Term>, Boxed<Term>),
    Query(u32, List<Term>),
    OpOf(Boxed<Term>),
    OpTerm(u32, List<Term>),
    OriginOf(Boxed<Term>),
    InfoOf(Boxed<Term>),
    InfoTerm(u32, List<Term>),
    ResultOf(Boxed<Term>),
    ResultTerm(u32, Option<Boxed<Term>>),
    Unreturned,
    /// A use of the query of that declaration, whose body is a plain term.
    Use(u32, List<Term>),
}

/// What an expression says: a plain term, or a formula.
#[derive(Drop)]
pub enum Body {
    Term(Boxed<Term>),
    Claim(Boxed<Claim>),
}
