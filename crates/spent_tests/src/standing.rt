//! The closed terms that stand in formulas.
ghost use Rattle.std.specs.Prelude.{◌≡◌, ◌++◌, [], OnOk, map};
ghost use Rattle.rp_logic.specs.Terms.{is_closed as spec_is_closed, are_closed as spec_are_closed};
ghost use Rattle.rp_logic.specs.Views.{term_view, terms_view, atom_view, formula_view, formulas_view};
ghost use Rattle.refute_defs.specs.Parts.{atom_args};
ghost use Rattle.spent_defs.specs.Standing.{before, terms_in, terms_of_each, terms_of, terms_of_parts};
ghost use Rattle.spent_tests.specs.Views.{standing_view, with_rank};

use rp_logic::{Atom, Fml, Term};
use rp_value::{List, Memory};
use std::alloc::Global;

/// A closed term, and the rank of the formula in which it stands.
#[derive(Drop)]
pub struct Standing {
    pub term: Term,
    pub rank: u32,
}

#[cycle(is_closed)]
#[tactic(auto, using(rp_logic::proofs::TermViews::term_views))]
fn is_closed(t: &Term) -> bool
    ensures { result ≡ spec_is_closed (term_view t.now) }
{
    match t {
        Term::Var(_) => false,
        Term::Const(_) => true,
        Term::Fn(_, args) => are_closed(args.as_slice()),
        Term::Int(_) => true,
        Term::Str(_) => true,
        Term::Con(_, args) => are_closed(args.as_slice()),
        Term::Sel(_, _, t) => is_closed(t.get()),
        Term::Plus(t, _) => is_closed(t.get()),
    }
}

#[cycle(is_closed)]
fn are_closed(terms: &[Term]) -> bool
    ensures { result ≡ spec_are_closed (terms_view terms.now) }
{
    for t in terms {
        if !is_closed(t) {
            return false;
        }
    }
    true
}

/// Adds the term, if it is closed.
fn add_itself(
    alloc: Global,
    rank: u32,
    standing: &mut List<Standing>,
    t: &Term,
) -> Result<(), Memory>
    ensures { OnOk result (map standing_view standing.new
        ≡ map standing_view standing.old ++ with_rank rank (before (term_view t.now) [])) }
{
    if is_closed(t) {
        standing.push(Standing {
            term: t.copy(alloc)?,
            rank,
        })?;
        Ok(())
    } else {
        Ok(())
    }
}

/// Adds the closed terms that stand in the term, the outer before the inner.
#[cycle(add_term)]
#[tactic(auto, using(rp_logic::proofs::TermViews::term_views))]
fn add_term(alloc: Global, rank: u32, standing: &mut List<Standing>, t: &Term) -> Result<(), Memory>
    ensures { OnOk result (map standing_view standing.new
        ≡ map standing_view standing.old ++ with_rank rank (terms_in (term_view t.now))) }
{
    add_itself(alloc, rank, standing, t)?;
    match t {
        Term::Var(_) => Ok(()),
        Term::Const(_) => Ok(()),
        Term::Fn(_, args) => add_terms(alloc, rank, standing, args.as_slice()),
        Term::Int(_) => Ok(()),
        Term::Str(_) => Ok(()),
        Term::Con(_, args) => add_terms(alloc, rank, standing, args.as_slice()),
        Term::Sel(_, _, t) => add_term(alloc, rank, standing, t.get()),
        Term::Plus(t, _) => add_term(alloc, rank, standing, t.get()),
    }
}

#[cycle(add_term)]
fn add_terms(
    alloc: Global,
    rank: u32,
    standing: &mut List<Standing>,
    terms: &[Term],
) -> Result<(), Memory>
    ensures { OnOk result (map standing_view standing.new
        ≡ map standing_view standing.old ++ with_rank rank (terms_of_each (terms_view terms.now))) }
{
    for t in terms {
        add_term(alloc, rank, standing, t)?;
    }
    Ok(())
}

fn add_atom(
    alloc: Global,
    rank: u32,
    standing: &mut List<Standing>,
    atom: &Atom,
) -> Result<(), Memory>
    ensures { OnOk result (map standing_view standing.new
        ≡ map standing_view standing.old
        ++ with_rank rank (terms_of_each (atom_args (atom_view atom.now)))) }
{
    match atom {
        Atom::Equal(a, b) => {
            add_term(alloc, rank, standing, a)?;
            add_term(alloc, rank, standing, b)
        }
        Atom::Le { a, b, k: _ } => {
            add_term(alloc, rank, standing, a)?;
            add_term(alloc, rank, standing, b)
        }
        Atom::Rel(_, args) => add_terms(alloc, rank, standing, args.as_slice()),
    }
}

/// Adds the closed terms that stand in the formula, also under quantifiers, as they begin in its
/// text.
#[cycle(add_formula_terms)]
#[tactic(auto, using(rp_logic::proofs::FormulaViews::formula_views))]
pub(crate) fn add_formula_terms(
    alloc: Global,
    rank: u32,
    standing: &mut List<Standing>,
    f: &Fml,
) -> Result<(), Memory>
    ensures { OnOk result (map standing_view standing.new
        ≡ map standing_view standing.old ++ with_rank rank (terms_of (formula_view f.now))) }
{
    match f {
        Fml::And(parts) => add_terms_of_each(alloc, rank, standing, parts.as_slice()),
        Fml::Or(parts) => add_terms_of_each(alloc, rank, standing, parts.as_slice()),
        Fml::All(_, body) => add_formula_terms(alloc, rank, standing, body.get()),
        Fml::Ex(_, body) => add_formula_terms(alloc, rank, standing, body.get()),
        Fml::Lit(_, atom) => add_atom(alloc, rank, standing, atom),
    }
}

#[cycle(add_formula_terms)]
fn add_terms_of_each(
    alloc: Global,
    rank: u32,
    standing: &mut List<Standing>,
    formulas: &[Fml],
) -> Result<(), Memory>
    ensures { OnOk result (map standing_view standing.new
        ≡ map standing_view standing.old
        ++ with_rank rank (terms_of_parts (formulas_view formulas.now))) }
{
    for f in formulas {
        add_formula_terms(alloc, rank, standing, f)?;
    }
    Ok(())
}
