//! The sorts of terms that a node names.
ghost use Rattle.std.specs.Prelude.{◌≡◌, [], option_copied};
ghost use Rattle.rp_logic.specs.SortTests.{head_sort as head_sort_of};
ghost use Rattle.rp_logic.specs.Views.{term_view, atom_view};
ghost use Rattle.rp_logic.specs.SigView.{sig_view};
ghost use Rattle.rp_logic.specs.Sorted.{has_sort as spec_has_sort};
ghost use Rattle.refute_defs.specs.NewTerms as spec;
ghost use Rattle.refute_branch.specs.Views.{branch_view};

use crate::branch::OpenBranch;
use rp_logic::{Atom, Scope, Sig, Sort, Term, has_sort, head_sort, is_sorted_atom};
use rp_value::List;

#[tactic(auto, using(rp_logic::proofs::ScopeViews::scope_views))]
pub fn is_of_sort(sig: &Sig, b: &OpenBranch, sort: u32, t: &Term) -> bool
    ensures { result ≡ spec_has_sort (sig_view sig.now) b.now.added [] sort (term_view t.now) }
{
    has_sort(sig, b.added.as_slice(), &Scope::Closed, sort, t)
}

#[tactic(auto, using(rp_logic::proofs::ScopeViews::scope_views))]
fn sort_by_head(sig: &Sig, b: &OpenBranch, t: &Term) -> Option<u32>
    ensures { result ≡ head_sort_of (sig_view sig.now) b.now.added [] (term_view t.now) }
{
    head_sort(sig, b.added.as_slice(), &Scope::Closed, t)
}

/// The sort of a closed term over the signature and the constants that were brought.
fn sort_of(sig: &Sig, b: &OpenBranch, t: &Term) -> Option<u32>
    ensures { result ≡ spec.sort_of (sig_view sig.now) (branch_view b.now) (term_view t.now) }
{
    match sort_by_head(sig, b, t) {
        Some(sort) => if is_of_sort(sig, b, sort, t) {
            Some(sort)
        } else {
            None
        },
        None => None,
    }
}

pub fn is_term(sig: &Sig, b: &OpenBranch, t: &Term) -> bool
    ensures { result ≡ spec.is_term (sig_view sig.now) (branch_view b.now) (term_view t.now) }
{
    sort_of(sig, b, t).is_some()
}

fn declared_sort<'a>(sig: &'a Sig, b: &OpenBranch, t: &Term) -> Option<&'a Sort>
    ensures { option_copied result
        ≡ spec.declared_sort (sig_view sig.now) (branch_view b.now) (term_view t.now) }
{
    match sort_of(sig, b, t) {
        Some(sort) => sig.sorts.as_slice().get(sort as usize),
        None => None,
    }
}

pub fn is_number(sig: &Sig, b: &OpenBranch, t: &Term) -> bool
    ensures { result ≡ spec.is_number (sig_view sig.now) (branch_view b.now) (term_view t.now) }
{
    match declared_sort(sig, b, t) {
        Some(Sort::Int) => true,
        Some(_) => false,
        None => false,
    }
}

/// The constructors of the term's sort, if it is a datatype.
pub fn constructors<'a>(sig: &'a Sig, b: &OpenBranch, t: &Term) -> Option<&'a List<u32>>
    ensures { option_copied result
        ≡ spec.datatype (spec.declared_sort (sig_view sig.now) (branch_view b.now)
        (term_view t.now)) }
{
    match declared_sort(sig, b, t) {
        Some(Sort::Datatype(cons)) => Some(cons),
        Some(_) => None,
        None => None,
    }
}

#[tactic(auto, using(rp_logic::proofs::ScopeViews::scope_views))]
pub fn is_atom(sig: &Sig, b: &OpenBranch, atom: &Atom) -> bool
    ensures { result ≡ spec.is_atom (sig_view sig.now) (branch_view b.now) (atom_view atom.now) }
{
    is_sorted_atom(sig, b.added.as_slice(), &Scope::Closed, atom)
}
