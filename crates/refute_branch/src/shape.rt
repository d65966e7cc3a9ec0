//! What a node names: exactly the places, terms and atoms that its rule needs, and the number 0
//! where its rule needs none.
ghost use Rattle.std.specs.Prelude.{◌≡◌, option_map, map};
ghost use Rattle.rp_logic.specs.Views.{term_view, atom_view};
ghost use Rattle.refute_defs.specs.Views.{use_view};
ghost use Rattle.refute_defs.specs.Shapes as spec;

use refute_defs::RuleUse;
use rp_logic::{Atom, Term};

pub fn only_place(places: &[u32]) -> Option<u32>
    ensures { result ≡ spec.only places.now }
{
    match places {
        [p] => Some(*p),
        _ => None,
    }
}

pub fn only_two_places(places: &[u32]) -> Option<(u32, u32)>
    ensures { result ≡ spec.only_two places.now }
{
    match places {
        [p, q] => Some((*p, *q)),
        _ => None,
    }
}

fn only_term(terms: &[Term]) -> Option<&Term>
    ensures { option_map (λ t. term_view t.now) result ≡ spec.only (map term_view terms.now) }
{
    match terms {
        [t] => Some(t),
        _ => None,
    }
}

fn only_two_terms(terms: &[Term]) -> Option<(&Term, &Term)>
    ensures { option_map (λ ts. (term_view ts.0.now, term_view ts.1.now)) result
        ≡ spec.only_two (map term_view terms.now) }
{
    match terms {
        [t, v] => Some((t, v)),
        _ => None,
    }
}

fn only_atom(atoms: &[Atom]) -> Option<&Atom>
    ensures { option_map (λ a. atom_view a.now) result ≡ spec.only (map atom_view atoms.now) }
{
    match atoms {
        [a] => Some(a),
        _ => None,
    }
}

fn no_places(u: &RuleUse) -> bool
    ensures { result ≡ spec.no_places (use_view u.now) }
{
    u.places.len() == 0
}

fn no_terms(u: &RuleUse) -> bool
    ensures { result ≡ spec.no_terms (use_view u.now) }
{
    u.terms.len() == 0
}

fn no_atoms(u: &RuleUse) -> bool
    ensures { result ≡ spec.no_atoms (use_view u.now) }
{
    u.atoms.len() == 0
}

/// One place, and a number.
pub fn place_and_pick(u: &RuleUse) -> Option<u32>
    ensures { result ≡ spec.place_and_pick (use_view u.now) }
{
    if no_terms(u) && no_atoms(u) {
        only_place(u.places.as_slice())
    } else {
        None
    }
}

/// Places and nothing else.
pub fn the_places(u: &RuleUse) -> Option<&[u32]>
    ensures { option_map (λ ps. ps.now) result ≡ spec.the_places (use_view u.now) }
{
    if no_terms(u) && no_atoms(u) && u.pick == 0 {
        Some(u.places.as_slice())
    } else {
        None
    }
}

pub fn the_place(u: &RuleUse) -> Option<u32>
    ensures { result ≡ spec.the_place (use_view u.now) }
{
    match the_places(u) {
        Some(places) => only_place(places),
        None => None,
    }
}

pub fn two_places(u: &RuleUse) -> Option<(u32, u32)>
    ensures { result ≡ spec.two_places (use_view u.now) }
{
    match the_places(u) {
        Some(places) => only_two_places(places),
        None => None,
    }
}

pub fn place_and_term(u: &RuleUse) -> Option<(u32, &Term)>
    ensures { option_map (λ x. (x.0, term_view x.1.now)) result
        ≡ spec.place_and_term (use_view u.now) }
{
    if no_atoms(u) && u.pick == 0 {
        let p = only_place(u.places.as_slice())?;
        let t = only_term(u.terms.as_slice())?;
        Some((p, t))
    } else {
        None
    }
}

/// One term, and any places.
pub fn term_with_places(u: &RuleUse) -> Option<&Term>
    ensures { option_map (λ t. term_view t.now) result ≡ spec.term_with_places (use_view u.now) }
{
    if no_atoms(u) && u.pick == 0 {
        only_term(u.terms.as_slice())
    } else {
        None
    }
}

/// One term, and a number.
pub fn term_and_pick(u: &RuleUse) -> Option<&Term>
    ensures { option_map (λ t. term_view t.now) result ≡ spec.term_and_pick (use_view u.now) }
{
    if no_places(u) && no_atoms(u) {
        only_term(u.terms.as_slice())
    } else {
        None
    }
}

pub fn the_term(u: &RuleUse) -> Option<&Term>
    ensures { option_map (λ t. term_view t.now) result ≡ spec.the_term (use_view u.now) }
{
    if u.pick == 0 { term_and_pick(u) } else { None }
}

pub fn two_terms(u: &RuleUse) -> Option<(&Term, &Term)>
    ensures { option_map (λ ts. (term_view ts.0.now, term_view ts.1.now)) result
        ≡ spec.two_terms (use_view u.now) }
{
    if no_places(u) && no_atoms(u) && u.pick == 0 {
        only_two_terms(u.terms.as_slice())
    } else {
        None
    }
}

pub fn the_atom(u: &RuleUse) -> Option<&Atom>
    ensures { option_map (λ a. atom_view a.now) result ≡ spec.the_atom (use_view u.now) }
{
    if no_places(u) && no_terms(u) && u.pick == 0 {
        only_atom(u.atoms.as_slice())
    } else {
        None
    }
}
