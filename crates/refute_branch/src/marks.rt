//! Marks of the constants that stand on a branch, so that whether one is new is told without reading
//! the branch.
ghost use Rattle.std.specs.Prelude.{◌≡◌, OnOk, reverse};
ghost use Rattle.rp_logic.specs.Views.{term_view, terms_view, atom_view, formula_view, formulas_view};
ghost use Rattle.refute_branch.specs.means.Marking as spec;

use rp_logic::{Atom, Fml, Term};
use rp_value::{List, Memory};

/// A constant, and the first place of the branch where it stands.
#[derive(Clone, Copy)]
pub struct Mark {
    pub number: u32,
    pub place: u32,
}

fn has_mark(marks: &[Mark], c: u32) -> bool
    ensures { result ≡ spec.is_marked c marks.now }
{
    for mark in marks {
        if c == mark.number {
            return true;
        }
    }
    false
}

/// Whether the constant has a mark.
#[tactic(auto, using(crate::proofs::Marking::marked_in_reverse))]
pub(crate) fn is_marked(marks: &List<Mark>, c: u32) -> bool
    ensures { result ≡ spec.is_marked c (reverse marks.now) }
{
    has_mark(marks.as_slice(), c)
}

/// Marks the constant at the place, if it is past the signature's and has no mark.
fn mark_constant(consts: u32, place: u32, marks: &mut List<Mark>, c: u32) -> Result<(), Memory>
    ensures { OnOk result (reverse marks.new
        ≡ spec.with_constant consts place c (reverse marks.old)) }
{
    if consts <= c && !is_marked(marks, c) {
        marks.push(Mark { number: c, place })?;
        Ok(())
    } else {
        Ok(())
    }
}

#[cycle(mark_term)]
#[tactic(auto, using(rp_logic::proofs::TermViews::term_views))]
fn mark_term(consts: u32, place: u32, marks: &mut List<Mark>, t: &Term) -> Result<(), Memory>
    ensures { OnOk result (reverse marks.new
        ≡ spec.with_term consts place (term_view t.now) (reverse marks.old)) }
{
    match t {
        Term::Var(_) => Ok(()),
        Term::Const(c) => mark_constant(consts, place, marks, *c),
        Term::Fn(_, args) => mark_terms(consts, place, marks, args.as_slice()),
        Term::Int(_) => Ok(()),
        Term::Str(_) => Ok(()),
        Term::Con(_, args) => mark_terms(consts, place, marks, args.as_slice()),
        Term::Sel(_, _, t) => mark_term(consts, place, marks, t.get()),
        Term::Plus(t, _) => mark_term(consts, place, marks, t.get()),
    }
}

#[cycle(mark_term)]
#[tactic(auto, using(rp_logic::proofs::TermViews::term_views))]
fn mark_terms(consts: u32, place: u32, marks: &mut List<Mark>, terms: &[Term]) -> Result<(), Memory>
    ensures { OnOk result (reverse marks.new
        ≡ spec.with_terms consts place (terms_view terms.now) (reverse marks.old)) }
{
    for t in terms {
        mark_term(consts, place, marks, t)?;
    }
    Ok(())
}

fn mark_atom(consts: u32, place: u32, marks: &mut List<Mark>, atom: &Atom) -> Result<(), Memory>
    ensures { OnOk result (reverse marks.new
        ≡ spec.with_atom consts place (atom_view atom.now) (reverse marks.old)) }
{
    match atom {
        Atom::Equal(a, b) => {
            mark_term(consts, place, marks, a)?;
            mark_term(consts, place, marks, b)
        }
        Atom::Le { a, b, k: _ } => {
            mark_term(consts, place, marks, a)?;
            mark_term(consts, place, marks, b)
        }
        Atom::Rel(_, args) => mark_terms(consts, place, marks, args.as_slice()),
    }
}

/// Marks the constants of a formula at its place.
#[cycle(mark_formula)]
#[tactic(auto, using(rp_logic::proofs::FormulaViews::formula_views))]
pub(crate) fn mark_formula(
    consts: u32,
    place: u32,
    marks: &mut List<Mark>,
    f: &Fml,
) -> Result<(), Memory>
    ensures { OnOk result (reverse marks.new
        ≡ spec.with_formula consts place (formula_view f.now) (reverse marks.old)) }
{
    match f {
        Fml::And(parts) => mark_formulas(consts, place, marks, parts.as_slice()),
        Fml::Or(parts) => mark_formulas(consts, place, marks, parts.as_slice()),
        Fml::All(_, body) => mark_formula(consts, place, marks, body.get()),
        Fml::Ex(_, body) => mark_formula(consts, place, marks, body.get()),
        Fml::Lit(_, atom) => mark_atom(consts, place, marks, atom),
    }
}

#[cycle(mark_formula)]
#[tactic(auto, using(rp_logic::proofs::FormulaViews::formula_views))]
fn mark_formulas(
    consts: u32,
    place: u32,
    marks: &mut List<Mark>,
    formulas: &[Fml],
) -> Result<(), Memory>
    ensures { OnOk result (reverse marks.new
        ≡ spec.with_formulas consts place (formulas_view formulas.now) (reverse marks.old)) }
{
    for f in formulas {
        mark_formula(consts, place, marks, f)?;
    }
    Ok(())
}

/// Whether the newest mark is not at one of the first n places.
#[tactic(auto, using(crate::proofs::Marking::late_at_end))]
fn is_late(marks: &List<Mark>, n: u32) -> bool
    ensures { result ≡ spec.is_late n (reverse marks.now) }
{
    match marks.as_slice().split_last() {
        Some((mark, _)) => n <= mark.place,
        None => false,
    }
}

/// Lets go the newest marks that are not at one of the first n places.
pub(crate) fn drop_marks(marks: &mut List<Mark>, n: u32)
    ensures { reverse marks.new ≡ spec.dropped n (reverse marks.old) }
{
    while is_late(marks, n) {
        marks.pop();
    }
}
