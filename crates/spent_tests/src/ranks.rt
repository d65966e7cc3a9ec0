//! The rank of what a node adds.
ghost use Rattle.std.specs.Prelude.{◌≡◌, IfOk, map, max};
ghost use Rattle.rp_logic.specs.Views.{term_view, terms_view, atom_view};
ghost use Rattle.refute_defs.specs.Views.{use_view};
ghost use Rattle.spent_defs.specs.Ranks as spec;
ghost use Rattle.spent_tests.specs.Views.{ranked_view, IsListed};
ghost use Rattle.spent_tests.specs.means.NamedRanks.{rank_of_terms, rank_of_atom, rank_of_atoms, rank_of_places};

use crate::branch::RankedBranch;
use crate::on::term_rank;
use refute_defs::RuleUse;
use rp_logic::{Atom, Term};
use rp_value::Memory;

fn greater(m: u32, n: u32) -> u32
    ensures { result ≡ max m n }
{
    if m <= n { n } else { m }
}

fn rank_at(b: &RankedBranch, p: u32) -> u32
    ensures { result ≡ spec.rank_at (ranked_view b.now) p }
{
    b.ranks.as_slice().get(p as usize).copied().unwrap_or(0)
}

fn places_rank(b: &RankedBranch, places: &[u32]) -> u32
    ensures { result ≡ rank_of_places (ranked_view b.now) places.now }
{
    let mut most = 0;
    for p in places {
        most = greater(most, rank_at(b, *p));
    }
    most
}

fn terms_rank(b: &RankedBranch, terms: &[Term]) -> u32
    requires { IsListed b.now }
    ensures { result ≡ rank_of_terms (ranked_view b.now) (terms_view terms.now) }
{
    let mut most = 0;
    for t in terms {
        most = greater(most, term_rank(b, t));
    }
    most
}

fn atom_rank(b: &RankedBranch, atom: &Atom) -> u32
    requires { IsListed b.now }
    ensures { result ≡ rank_of_atom (ranked_view b.now) (atom_view atom.now) }
{
    match atom {
        Atom::Equal(a, c) => greater(term_rank(b, a), term_rank(b, c)),
        Atom::Le { a, b: c, k: _ } => greater(term_rank(b, a), term_rank(b, c)),
        Atom::Rel(_, args) => terms_rank(b, args.as_slice()),
    }
}

fn atoms_rank(b: &RankedBranch, atoms: &[Atom]) -> u32
    requires { IsListed b.now }
    ensures { result ≡ rank_of_atoms (ranked_view b.now) (map atom_view atoms.now) }
{
    let mut most = 0;
    for atom in atoms {
        most = greater(most, atom_rank(b, atom));
    }
    most
}

/// The greatest rank of the formulas and terms that the node names.
fn named_rank(b: &RankedBranch, u: &RuleUse) -> u32
    requires { IsListed b.now }
    ensures { result ≡ spec.named_rank (ranked_view b.now) (use_view u.now) }
{
    let terms = greater(
        terms_rank(b, u.terms.as_slice()),
        atoms_rank(b, u.atoms.as_slice()),
    );
    greater(places_rank(b, u.places.as_slice()), terms)
}

/// The rank of what the node adds. Want of memory stands also for one past 4,294,967,295.
pub fn rank_of(b: &RankedBranch, u: &RuleUse) -> Result<u32, Memory>
    requires { IsListed b.now }
    ensures { IfOk result (λ rank. rank ≡ spec.rank_of (ranked_view b.now) (use_view u.now)) }
{
    let named = named_rank(b, u);
    if u.rule != 3 {
        return Ok(named);
    }
    if named == u32::MAX {
        return Err(Memory);
    }
    Ok(named + 1)
}
