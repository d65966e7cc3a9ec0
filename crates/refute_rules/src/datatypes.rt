//! Rules of constructors, and of numbers and texts.
ghost use Rattle.std.specs.Prelude.{◌≡◌, option_map};
ghost use Rattle.rp_logic.specs.SigView.{sig_view};
ghost use Rattle.rp_logic.specs.Terms as tm;
ghost use Rattle.rp_logic.specs.Views.{term_view, terms_view};
ghost use Rattle.refute_defs.specs.Views.{use_view};
ghost use Rattle.refute_defs.specs.Parts.{nth_tm};
ghost use Rattle.refute_defs.specs.Children as spec;
ghost use Rattle.refute_branch.specs.Views.{branch_view, sides_view};
ghost use Rattle.refute_rules.specs.means.Made.{made_view};
ghost use Rattle.refute_rules.specs.means.Conclusions.{concluded};

use crate::conclusion::Conclusion;
use refute_branch::{
    OpenBranch, Sides, constructors, equality_at, is_term, place_and_pick, the_place, the_term,
};
use refute_defs::RuleUse;
use rp_logic::{Sig, Term};
use rp_value::{Bytes, List};

/// A constructor and its arguments.
#[derive(Clone, Copy)]
pub(crate) struct Made<'a> {
    pub con: u32,
    pub args: &'a List<Term>,
}

#[tactic(auto, using(crate::proofs::Lists::nths))]
fn nth_term(terms: &List<Term>, n: u32) -> Option<&Term>
    ensures { option_map (λ t. term_view t.now) result ≡ nth_tm (terms_view terms.now) n }
{
    if n < terms.count() {
        Some(terms.get(n as usize))
    } else {
        None
    }
}

#[tactic(auto, using(rp_logic::proofs::TermViews::term_views))]
fn made_with(t: &Term) -> Option<Made>
    ensures { option_map made_view result ≡ spec.built (term_view t.now) }
{
    match t {
        Term::Var(_) => None,
        Term::Const(_) => None,
        Term::Fn(_, _) => None,
        Term::Int(_) => None,
        Term::Str(_) => None,
        Term::Con(con, args) => Some(Made { con: *con, args }),
        Term::Sel(_, _, _) => None,
        Term::Plus(_, _) => None,
    }
}

/// Both sides of an equality, where constructors made them.
fn made_sides<'a>(e: &Sides<'a>) -> Option<(Made<'a>, Made<'a>)>
    ensures { option_map (λ x. (made_view x.0, made_view x.1)) result
        ≡ spec.built_sides (sides_view e.now) }
{
    let x = made_with(e.left)?;
    let y = made_with(e.right)?;
    Some((x, y))
}

fn made_sides_at(b: &OpenBranch, p: u32) -> Option<(Made, Made)>
    ensures { option_map (λ x. (made_view x.0, made_view x.1)) result
        ≡ spec.built_sides_at (branch_view b.now) p }
{
    match equality_at(b, p) {
        Some(e) => made_sides(&e),
        None => None,
    }
}

/// An equality of different constructors closes the branch.
pub(crate) fn constructor_clash<'a>(b: &OpenBranch, u: &RuleUse) -> Option<Conclusion<'a>>
    ensures { option_map concluded result
        ≡ spec.constructor_clash (branch_view b.now) (use_view u.now) }
{
    let p = the_place(u)?;
    let (x, y) = made_sides_at(b, p)?;
    if x.con != y.con {
        Some(Conclusion::Closed)
    } else {
        None
    }
}

/// Of an equality of one constructor the equality of the arguments of the number that is named.
pub(crate) fn injective<'a>(b: &'a OpenBranch, u: &RuleUse) -> Option<Conclusion<'a>>
    ensures { option_map concluded result ≡ spec.injective (branch_view b.now) (use_view u.now) }
{
    let p = place_and_pick(u)?;
    let (x, y) = made_sides_at(b, p)?;
    if x.con == y.con {
        let left = nth_term(x.args, u.pick)?;
        let right = nth_term(y.args, u.pick)?;
        Some(Conclusion::Equal(left, right))
    } else {
        None
    }
}

/// Of a term of a datatype a child for each constructor.
pub(crate) fn cases<'a>(sig: &'a Sig, b: &OpenBranch, u: &'a RuleUse) -> Option<Conclusion<'a>>
    ensures { option_map concluded result
        ≡ spec.cases (sig_view sig.now) (branch_view b.now) (use_view u.now) }
{
    let t = the_term(u)?;
    let cons = constructors(sig, b, t)?;
    Some(Conclusion::Built { sig, t, cons })
}

fn selected_from<'a>(con: u32, i: u32, made: &Made<'a>) -> Option<&'a Term>
    ensures { option_map (λ t. term_view t.now) result
        ≡ spec.selected_from con i (made_view made.now) }
{
    if con == made.con {
        nth_term(made.args, i)
    } else {
        None
    }
}

/// What a selector of a term of its own constructor gives.
#[tactic(auto, using(rp_logic::proofs::TermViews::term_views))]
fn selected(t: &Term) -> Option<&Term>
    ensures { option_map (λ x. term_view x.now) result ≡ spec.selected (term_view t.now) }
{
    match t {
        Term::Var(_) => None,
        Term::Const(_) => None,
        Term::Fn(_, _) => None,
        Term::Int(_) => None,
        Term::Str(_) => None,
        Term::Con(_, _) => None,
        Term::Sel(con, i, t) => match made_with(t.get()) {
            Some(made) => selected_from(*con, *i, &made),
            None => None,
        },
        Term::Plus(_, _) => None,
    }
}

/// A selector of its own constructor gives the argument.
pub(crate) fn selector<'a>(sig: &Sig, b: &OpenBranch, u: &'a RuleUse) -> Option<Conclusion<'a>>
    ensures { option_map concluded result
        ≡ spec.selector (sig_view sig.now) (branch_view b.now) (use_view u.now) }
{
    let t = the_term(u)?;
    if is_term(sig, b, t) {
        let x = selected(t)?;
        Some(Conclusion::Equal(t, x))
    } else {
        None
    }
}

#[tactic(auto, using(rp_logic::proofs::TermViews::term_views))]
fn is_other_number(m: i128, t: &Term) -> bool
    ensures { result ≡ spec.are_different (tm.Int m) (term_view t.now) }
{
    match t {
        Term::Var(_) => false,
        Term::Const(_) => false,
        Term::Fn(_, _) => false,
        Term::Int(n) => m != *n,
        Term::Str(_) => false,
        Term::Con(_, _) => false,
        Term::Sel(_, _, _) => false,
        Term::Plus(_, _) => false,
    }
}

#[tactic(auto, using(rp_logic::proofs::TermViews::term_views))]
fn is_other_text(text: &Bytes, t: &Term) -> bool
    ensures { result ≡ spec.are_different (tm.Str text.now) (term_view t.now) }
{
    match t {
        Term::Var(_) => false,
        Term::Const(_) => false,
        Term::Fn(_, _) => false,
        Term::Int(_) => false,
        Term::Str(other) => text.as_slice() != other.as_slice(),
        Term::Con(_, _) => false,
        Term::Sel(_, _, _) => false,
        Term::Plus(_, _) => false,
    }
}

/// Whether the terms are two numbers or two texts, and different.
#[tactic(auto, using(rp_logic::proofs::TermViews::term_views))]
fn are_different(a: &Term, b: &Term) -> bool
    ensures { result ≡ spec.are_different (term_view a.now) (term_view b.now) }
{
    match a {
        Term::Var(_) => false,
        Term::Const(_) => false,
        Term::Fn(_, _) => false,
        Term::Int(m) => is_other_number(*m, b),
        Term::Str(text) => is_other_text(text, b),
        Term::Con(_, _) => false,
        Term::Sel(_, _, _) => false,
        Term::Plus(_, _) => false,
    }
}

/// An equality of two different numbers, or of two different texts, closes the branch.
pub(crate) fn literal_clash<'a>(b: &OpenBranch, u: &RuleUse) -> Option<Conclusion<'a>>
    ensures { option_map concluded result
        ≡ spec.literal_clash (branch_view b.now) (use_view u.now) }
{
    let p = the_place(u)?;
    let e = equality_at(b, p)?;
    if are_different(e.left, e.right) {
        Some(Conclusion::Closed)
    } else {
        None
    }
}
