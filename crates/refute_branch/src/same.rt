//! Equal terms and atoms.
ghost use Rattle.std.specs.Prelude.{◌≡◌};
ghost use Rattle.rp_logic.specs.Views.{term_view, atom_view};
ghost use Rattle.refute_defs.specs.Same as spec;

use rp_logic::{Atom, Term};

pub fn is_same(a: &Term, b: &Term) -> bool
    ensures { result ≡ spec.same_tm (term_view a.now) (term_view b.now) }
{
    a.same(b)
}

pub fn is_same_atom(a: &Atom, b: &Atom) -> bool
    ensures { result ≡ spec.same_at (atom_view a.now) (atom_view b.now) }
{
    a.same(b)
}
