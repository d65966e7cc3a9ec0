//! Rules of equality with equal arguments.
ghost use Rattle.std.specs.Prelude.{◌≡◌, IfOk, IsErrOf, Some, None, option_map, option_and_then};
ghost use Rattle.rp_logic.specs.Terms.{no_tm, also_tm};
ghost use Rattle.rp_logic.specs.SigView.{sig_view};
ghost use Rattle.rp_logic.specs.Views.{term_view, terms_view, atom_view, formula_view};
ghost use Rattle.refute_defs.specs.Views.{use_view};
ghost use Rattle.refute_defs.specs.Children as spec;
ghost use Rattle.refute_branch.specs.Views.{branch_view};
ghost use Rattle.refute_rules.specs.means.Replaced.{side_at, replaced_args, replaced_term, replaced_atom};

use crate::stop::Stop;
use refute_branch::{
    OpenBranch, equality_at, is_same, is_term, literal_at, only_place, only_two_places,
    term_with_places, the_places,
};
use refute_defs::RuleUse;
use rp_logic::{Atom, Fml, Sig, Term};
use rp_value::{Boxed, List};
use std::alloc::Global;

/// The other side of the equality at the place, where the term is the first.
fn other_side<'a>(b: &'a OpenBranch, p: u32, t: &Term) -> Option<&'a Term>
    ensures { option_map (λ v. term_view v.now) result
        ≡ side_at (branch_view b.now) p (term_view t.now) }
{
    let e = equality_at(b, p)?;
    if is_same(t, e.left) {
        Some(e.right)
    } else {
        None
    }
}

/// A copy of the other side.
fn copy_of_other_side(alloc: Global, b: &OpenBranch, p: u32, t: &Term) -> Result<Term, Stop>
    ensures found { IfOk result
        (λ v. side_at (branch_view b.now) p (term_view t.now) ≡ Some (term_view v)) }
    ensures unmet { IsErrOf result Stop.Unmet → side_at (branch_view b.now) p (term_view t.now)
        ≡ None }
{
    match other_side(b, p, t) {
        Some(v) => Ok(v.copy(alloc)?),
        None => Err(Stop::Unmet),
    }
}

/// Copies of the other sides of the equalities at the places, where these terms are the first, one
/// by one.
#[tactic(auto, using(crate::proofs::Sides::sides_differ))]
fn other_sides(
    alloc: Global,
    b: &OpenBranch,
    places: &[u32],
    terms: &[Term],
) -> Result<List<Term>, Stop>
    ensures found { IfOk result
        (λ us. spec.other_sides (branch_view b.now) places.now (terms_view terms.now)
        ≡ Some (terms_view us)) }
    ensures unmet { IsErrOf result Stop.Unmet
        → spec.other_sides (branch_view b.now) places.now (terms_view terms.now) ≡ None }
{
    if places.len() != terms.len() {
        return Err(Stop::Unmet);
    }
    let mut sides = List::new(alloc);
    for i in 0..terms.len() {
        sides.push(copy_of_other_side(alloc, b, places[i], &terms[i])?)?;
    }
    Ok(sides)
}

/// The other sides of some terms, and not of none.
fn some_other_sides(
    alloc: Global,
    b: &OpenBranch,
    places: &[u32],
    terms: &[Term],
) -> Result<List<Term>, Stop>
    ensures found { IfOk result
        (λ us. replaced_args (branch_view b.now) places.now (terms_view terms.now)
        ≡ Some (terms_view us)) }
    ensures unmet { IsErrOf result Stop.Unmet
        → replaced_args (branch_view b.now) places.now (terms_view terms.now) ≡ None }
{
    if terms.is_empty() {
        Err(Stop::Unmet)
    } else {
        other_sides(alloc, b, places, terms)
    }
}

/// The other side of the only equality.
#[tactic(auto, using(crate::proofs::Sides::only_side))]
fn only_other_side(
    alloc: Global,
    b: &OpenBranch,
    places: &[u32],
    t: &Term,
) -> Result<Boxed<Term>, Stop>
    ensures found { IfOk result
        (λ v. replaced_args (branch_view b.now) places.now (also_tm (term_view t.now) no_tm)
        ≡ Some (also_tm (term_view v) no_tm)) }
    ensures unmet { IsErrOf result Stop.Unmet
        → replaced_args (branch_view b.now) places.now (also_tm (term_view t.now) no_tm) ≡ None }
{
    match only_place(places) {
        Some(p) => Ok(Boxed::new(alloc, copy_of_other_side(alloc, b, p, t)?)?),
        None => Err(Stop::Unmet),
    }
}

/// The term with the other sides in the place of its arguments.
#[tactic(auto, using(rp_logic::proofs::TermViews::term_views))]
fn replaced(alloc: Global, b: &OpenBranch, places: &[u32], t: &Term) -> Result<Term, Stop>
    ensures found { IfOk result
        (λ v. replaced_term (branch_view b.now) places.now (term_view t.now) ≡ Some (term_view v)) }
    ensures unmet { IsErrOf result Stop.Unmet
        → replaced_term (branch_view b.now) places.now (term_view t.now) ≡ None }
{
    match t {
        Term::Var(_) => Err(Stop::Unmet),
        Term::Const(_) => Err(Stop::Unmet),
        Term::Fn(f, args) => {
            let sides = some_other_sides(alloc, b, places, args.as_slice())?;
            Ok(Term::Fn(*f, sides))
        }
        Term::Int(_) => Err(Stop::Unmet),
        Term::Str(_) => Err(Stop::Unmet),
        Term::Con(con, args) => {
            let sides = some_other_sides(alloc, b, places, args.as_slice())?;
            Ok(Term::Con(*con, sides))
        }
        Term::Sel(con, i, inner) => {
            let side = only_other_side(alloc, b, places, inner.get())?;
            Ok(Term::Sel(*con, *i, side))
        }
        Term::Plus(inner, k) => {
            let side = only_other_side(alloc, b, places, inner.get())?;
            Ok(Term::Plus(side, *k))
        }
    }
}

/// Of a term with arguments, and equalities of them, the equality with the other sides in their
/// place.
#[tactic(auto, using(crate::proofs::Sides::term_replaced_is))]
pub(crate) fn congruent_term(
    alloc: Global,
    sig: &Sig,
    b: &OpenBranch,
    u: &RuleUse,
) -> Result<Fml, Stop>
    ensures found { IfOk result
        (λ f. spec.congruent_term (sig_view sig.now) (branch_view b.now) (use_view u.now)
        ≡ Some (spec.one_child (formula_view f))) }
    ensures unmet { IsErrOf result Stop.Unmet
        → spec.congruent_term (sig_view sig.now) (branch_view b.now) (use_view u.now) ≡ None }
{
    match term_with_places(u) {
        Some(t) => if is_term(sig, b, t) {
            let made = replaced(alloc, b, u.places.as_slice(), t)?;
            Ok(Fml::Lit(true, Atom::Equal(t.copy(alloc)?, made)))
        } else {
            Err(Stop::Unmet)
        },
        None => Err(Stop::Unmet),
    }
}

/// The atom with the other sides in the place of its terms.
#[tactic(auto, using(crate::proofs::Sides::two_sides))]
fn replaced_in_atom(
    alloc: Global,
    b: &OpenBranch,
    places: &[u32],
    atom: &Atom,
) -> Result<Atom, Stop>
    ensures found { IfOk result
        (λ made. replaced_atom (branch_view b.now) places.now (atom_view atom.now)
        ≡ Some (atom_view made)) }
    ensures unmet { IsErrOf result Stop.Unmet
        → replaced_atom (branch_view b.now) places.now (atom_view atom.now) ≡ None }
{
    match atom {
        Atom::Equal(x, y) => match only_two_places(places) {
            Some((p, q)) => Ok(Atom::Equal(
                copy_of_other_side(alloc, b, p, x)?,
                copy_of_other_side(alloc, b, q, y)?,
            )),
            None => Err(Stop::Unmet),
        },
        Atom::Le { a: x, b: y, k } => match only_two_places(places) {
            Some((p, q)) => Ok(Atom::Le {
                a: copy_of_other_side(alloc, b, p, x)?,
                b: copy_of_other_side(alloc, b, q, y)?,
                k: *k,
            }),
            None => Err(Stop::Unmet),
        },
        Atom::Rel(r, args) => {
            let sides = other_sides(alloc, b, places, args.as_slice())?;
            Ok(Atom::Rel(*r, sides))
        }
    }
}

/// The literal at the first place, with the other sides of the equalities at the other places.
fn literal_at_first(alloc: Global, b: &OpenBranch, places: &[u32]) -> Result<Fml, Stop>
    ensures found { IfOk result
        (λ f. spec.literal_at_first (branch_view b.now) places.now ≡ Some (formula_view f)) }
    ensures unmet { IsErrOf result Stop.Unmet → spec.literal_at_first (branch_view b.now) places.now
        ≡ None }
{
    match places {
        [p, rest @ ..] => match literal_at(b, *p) {
            Some((sign, atom)) => Ok(Fml::Lit(sign, replaced_in_atom(alloc, b, rest, atom)?)),
            None => Err(Stop::Unmet),
        },
        [] => Err(Stop::Unmet),
    }
}

/// Of a literal, and equalities of its terms, the literal with the other sides in their place.
pub(crate) fn congruent_literal(alloc: Global, b: &OpenBranch, u: &RuleUse) -> Result<Fml, Stop>
    ensures found { IfOk result
        (λ f. spec.congruent_literal (branch_view b.now) (use_view u.now)
        ≡ Some (spec.one_child (formula_view f))) }
    ensures unmet { IsErrOf result Stop.Unmet
        → spec.congruent_literal (branch_view b.now) (use_view u.now) ≡ None }
{
    match the_places(u) {
        Some(places) => literal_at_first(alloc, b, places),
        None => Err(Stop::Unmet),
    }
}
