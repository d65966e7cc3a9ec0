use crate::term::Term;
use rp_value::{Boxed, List, Ty};

/// A formula of a text, in which uses of queries stand as they are.
#[cycle(claims)]
#[derive(Drop)]
pub enum Claim {
    And(List<Claim>),
    Or(List<Claim>),
    Not(Boxed<Claim>),
    Implies(Boxed<Claim>, Boxed<Claim>),
    All(Ty, Boxed<Claim>),
    Any(Ty, Boxed<Claim>),
    Holds(Term),
    Equal(Term, Term),
    Less(Term, Term),
    AtMost(Term, Term),
    Visible(Term),
    Before(Term, Term),
    Same(Term, Term),
    Match(Term, List<ClaimArm>),
    /// A use of the query of that declaration, whose body is a formula.
    Use(u32, List<Term>),
}

/// An arm, which binds so many variables.
#[cycle(claims)]
#[derive(Drop)]
pub struct ClaimArm {
    pub con: u32,
    pub binds: u32,
    pub body: Claim,
}
