//! Rules of propositions: parts of formulas, cuts, and literals that contradict each other.
ghost use Rattle.std.specs.Prelude.{◌≡◌, true, false, option_map};
ghost use Rattle.rp_logic.specs.Formulas.{Lit};
ghost use Rattle.rp_logic.specs.SigView.{sig_view};
ghost use Rattle.rp_logic.specs.Views.{atom_view, formula_view, formulas_view};
ghost use Rattle.refute_defs.specs.Views.{use_view};
ghost use Rattle.refute_defs.specs.Parts.{nth_fm};
ghost use Rattle.refute_defs.specs.Children as spec;
ghost use Rattle.refute_branch.specs.Views.{branch_view};
ghost use Rattle.refute_rules.specs.means.Conclusions.{concluded};

use crate::conclusion::Conclusion;
use refute_branch::{
    OpenBranch, conjuncts_at, disjuncts_at, formula_at, is_atom, is_same_atom, place_and_pick,
    the_atom, the_place, two_places,
};
use refute_defs::RuleUse;
use rp_logic::{Atom, Fml, Sig};
use rp_value::List;

#[tactic(auto, using(crate::proofs::Lists::nths))]
fn nth_formula(parts: &List<Fml>, n: u32) -> Option<&Fml>
    ensures { option_map (λ f. formula_view f.now) result ≡ nth_fm (formulas_view parts.now) n }
{
    if n < parts.count() {
        Some(parts.get(n as usize))
    } else {
        None
    }
}

/// Of an `And` the conjunct of the number that is named.
pub(crate) fn part<'a>(b: &'a OpenBranch, u: &RuleUse) -> Option<Conclusion<'a>>
    ensures { option_map concluded result ≡ spec.part (branch_view b.now) (use_view u.now) }
{
    let p = place_and_pick(u)?;
    let parts = conjuncts_at(b, p)?;
    let f = nth_formula(parts, u.pick)?;
    Some(Conclusion::Part(f))
}

/// Of an `Or` a child for each disjunct.
pub(crate) fn split<'a>(b: &'a OpenBranch, u: &RuleUse) -> Option<Conclusion<'a>>
    ensures { option_map concluded result ≡ spec.split (branch_view b.now) (use_view u.now) }
{
    let p = the_place(u)?;
    let parts = disjuncts_at(b, p)?;
    Some(Conclusion::Each(parts))
}

/// Of an atom two children, with it and with its negation.
pub(crate) fn cut<'a>(sig: &Sig, b: &OpenBranch, u: &'a RuleUse) -> Option<Conclusion<'a>>
    ensures { option_map concluded result
        ≡ spec.cut (sig_view sig.now) (branch_view b.now) (use_view u.now) }
{
    let atom = the_atom(u)?;
    if is_atom(sig, b, atom) {
        Some(Conclusion::Cut(atom))
    } else {
        None
    }
}

/// Whether the formula is the negation of the atom.
#[tactic(auto, using(rp_logic::proofs::FormulaViews::formula_views))]
fn is_denied_by(atom: &Atom, f: &Fml) -> bool
    ensures { result ≡ spec.are_opposite (Lit true (atom_view atom.now)) (formula_view f.now) }
{
    match f {
        Fml::And(_) => false,
        Fml::Or(_) => false,
        Fml::All(_, _) => false,
        Fml::Ex(_, _) => false,
        Fml::Lit(false, other) => is_same_atom(atom, other),
        Fml::Lit(true, _) => false,
    }
}

/// Whether the formula is the atom.
#[tactic(auto, using(rp_logic::proofs::FormulaViews::formula_views))]
fn is_stated_by(atom: &Atom, f: &Fml) -> bool
    ensures { result ≡ spec.are_opposite (Lit false (atom_view atom.now)) (formula_view f.now) }
{
    match f {
        Fml::And(_) => false,
        Fml::Or(_) => false,
        Fml::All(_, _) => false,
        Fml::Ex(_, _) => false,
        Fml::Lit(false, _) => false,
        Fml::Lit(true, other) => is_same_atom(atom, other),
    }
}

/// Whether the formulas are a literal and its negation, in either order.
#[tactic(auto, using(rp_logic::proofs::FormulaViews::formula_views))]
fn are_opposite(f: &Fml, g: &Fml) -> bool
    ensures { result ≡ spec.are_opposite (formula_view f.now) (formula_view g.now) }
{
    match f {
        Fml::And(_) => false,
        Fml::Or(_) => false,
        Fml::All(_, _) => false,
        Fml::Ex(_, _) => false,
        Fml::Lit(true, atom) => is_denied_by(atom, g),
        Fml::Lit(false, atom) => is_stated_by(atom, g),
    }
}

/// A literal and its negation close the branch.
pub(crate) fn clash<'a>(b: &OpenBranch, u: &RuleUse) -> Option<Conclusion<'a>>
    ensures { option_map concluded result ≡ spec.clash (branch_view b.now) (use_view u.now) }
{
    let (p, q) = two_places(u)?;
    let f = formula_at(b, p)?;
    let g = formula_at(b, q)?;
    if are_opposite(f, g) {
        Some(Conclusion::Closed)
    } else {
        None
    }
}
