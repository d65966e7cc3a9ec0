ghost use Rattle.std.specs.Prelude.{◌≡◌, ◌↔◌, IfOk, IsTrue};

use rp_value::{Boxed, Bytes, List, Memory, copy_bytes};
use std::alloc::Global;

/// A term. Functions, constants and constructors go by their numbers in a `Sig`. Terms may nest as deep as the stack
/// allows: each function on them calls itself once for each level.
#[derive(Drop)]
pub enum Term {
    /// The variable of the n-th enclosing quantifier, from 0 for the innermost.
    Var(u32),
    Const(u32),
    Fn(u32, List<Term>),
    Int(i128),
    Str(Bytes),
    Con(u32, List<Term>),
    /// `Sel(con, i, t)`: the i-th argument of t where t is built with the constructor `con`.
    Sel(u32, u32, Boxed<Term>),
    Plus(Boxed<Term>, i128),
}

impl Term {
    /// Whether the terms are equal. It takes no memory.
    #[cycle(same_term)]
    pub fn same(&self, other: &Term) -> bool
        ensures { IsTrue result ↔ (self.now ≡ other.now) }
    {
        match (self, other) {
            (Term::Var(m), Term::Var(n)) => m == n,
            (Term::Const(c), Term::Const(d)) => c == d,
            (Term::Fn(f, a), Term::Fn(g, b)) => f == g && same_terms(a.as_slice(), b.as_slice()),
            (Term::Int(m), Term::Int(n)) => m == n,
            (Term::Str(a), Term::Str(b)) => a == b,
            (Term::Con(c, a), Term::Con(d, b)) => c == d && same_terms(a.as_slice(), b.as_slice()),
            (Term::Sel(c, i, a), Term::Sel(d, j, b)) => c == d && i == j && a.get().same(b.get()),
            (Term::Plus(a, m), Term::Plus(b, n)) => m == n && a.get().same(b.get()),
            _ => false,
        }
    }

    /// An equal term.
    #[cycle(copy_term)]
    pub fn copy(&self, alloc: Global) -> Result<Term, Memory>
        ensures { IfOk result (λ copy. copy ≡ self.now) }
    {
        match self {
            Term::Var(n) => Ok(Term::Var(*n)),
            Term::Const(c) => Ok(Term::Const(*c)),
            Term::Fn(f, args) => Ok(Term::Fn(*f, copy_terms(alloc, args.as_slice())?)),
            Term::Int(n) => Ok(Term::Int(*n)),
            Term::Str(bytes) => Ok(Term::Str(copy_bytes(alloc, bytes.as_slice())?)),
            Term::Con(c, args) => Ok(Term::Con(*c, copy_terms(alloc, args.as_slice())?)),
            Term::Sel(c, i, t) => Ok(Term::Sel(*c, *i, Boxed::new(alloc, t.get().copy(alloc)?)?)),
            Term::Plus(t, n) => Ok(Term::Plus(Boxed::new(alloc, t.get().copy(alloc)?)?, *n)),
        }
    }
}

/// Whether the lists of terms are equal. It takes no memory.
#[cycle(same_term)]
pub fn same_terms(a: &[Term], b: &[Term]) -> bool
    ensures { IsTrue result ↔ (a.now ≡ b.now) }
{
    if a.len() != b.len() {
        return false;
    }
    for i in 0..a.len() {
        if !a[i].same(&b[i]) {
            return false;
        }
    }
    true
}

/// The list of equal terms.
#[cycle(copy_term)]
pub fn copy_terms(alloc: Global, terms: &[Term]) -> Result<List<Term>, Memory>
    ensures { IfOk result (λ copies. copies ≡ terms.now) }
{
    let mut copies = List::new(alloc);
    for term in terms {
        copies.push(term.copy(alloc)?)?;
    }
    Ok(copies)
}
