ghost use Rattle.std.specs.Prelude.{◌≡◌, ◌↔◌, IfOk, IsTrue};

use crate::term::{Term, copy_terms, same_terms};
use rp_value::{List, Memory};
use std::alloc::Global;

/// An atomic formula.
#[derive(Drop)]
pub enum Atom {
    Equal(Term, Term),
    /// a is at most b + k.
    Le { a: Term, b: Term, k: i128 },
    Rel(u32, List<Term>),
}

impl Atom {
    /// Whether the atoms are equal. It takes no memory.
    pub fn same(&self, other: &Atom) -> bool
        ensures { IsTrue result ↔ (self.now ≡ other.now) }
    {
        match (self, other) {
            (Atom::Equal(a, b), Atom::Equal(c, d)) => a.same(c) && b.same(d),
            (Atom::Le { a, b, k }, Atom::Le { a: c, b: d, k: l }) => k == l
                && a.same(c)
                && b.same(d),
            (Atom::Rel(r, a), Atom::Rel(s, b)) => r == s && same_terms(a.as_slice(), b.as_slice()),
            _ => false,
        }
    }

    /// An equal atom.
    pub fn copy(&self, alloc: Global) -> Result<Atom, Memory>
        ensures { IfOk result (λ copy. copy ≡ self.now) }
    {
        match self {
            Atom::Equal(a, b) => Ok(Atom::Equal(a.copy(alloc)?, b.copy(alloc)?)),
            Atom::Le { a, b, k } => Ok(Atom::Le {
                a: a.copy(alloc)?,
                b: b.copy(alloc)?,
                k: *k,
            }),
            Atom::Rel(r, args) => Ok(Atom::Rel(*r, copy_terms(alloc, args.as_slice())?)),
        }
    }
}
