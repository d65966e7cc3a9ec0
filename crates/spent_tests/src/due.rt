//! What is due at a counted node, by its rule.
ghost use Rattle.std.specs.Prelude.{◌≡◌, IfOk, map, false};
ghost use Rattle.std.specs.List.{list_any, list_all};
ghost use Rattle.rp_logic.specs.Formulas.{Lit};
ghost use Rattle.rp_logic.specs.SigView.{sig_view};
ghost use Rattle.rp_logic.specs.Views.{term_view, atom_view, formula_view};
ghost use Rattle.refute_defs.specs.Branches.{formula_at as spec_formula_at};
ghost use Rattle.refute_defs.specs.Views.{use_view};
ghost use Rattle.refute_branch.specs.Views.{branch_view};
ghost use Rattle.spent_defs.specs.Conditions as spec;
ghost use Rattle.spent_tests.specs.Views.{ranked_view, only_terms, IsListed};
ghost use Rattle.spent_tests.specs.means.Parts.{is_plain_there, is_cut_due as is_cut_due_at, are_cases_due as are_cases_due_at};

use crate::branch::RankedBranch;
use crate::complete::{Universal, has_body, is_complete, is_instance_there};
use crate::matching::matches_plainly;
use crate::ranks::rank_of;
use crate::standing::Standing;
use refute_branch::{existential_at, is_same, only_place, universal_at};
use refute_defs::RuleUse;
use rp_logic::{Atom, Fml, Sig, Term};
use rp_value::Memory;
use std::alloc::Global;

fn is_plain_instance_there(
    alloc: Global,
    sig: &Sig,
    b: &RankedBranch,
    n: u32,
    all: &Universal,
    t: &Term,
) -> Result<bool, Memory>
    requires { IsListed b.now }
    ensures { IfOk result (λ is. is
        ≡ is_plain_there (sig_view sig.now) (ranked_view b.now) n all.now.rank all.now.sort
        (formula_view all.now.body.now) (term_view t.now)) }
{
    if matches_plainly(sig, b, all.sort, all.body, t) {
        is_instance_there(alloc, sig, b, n, all, t)
    } else {
        Ok(true)
    }
}

fn are_plain_instances_there(
    alloc: Global,
    sig: &Sig,
    b: &RankedBranch,
    n: u32,
    all: &Universal,
    standing: &[Standing],
) -> Result<bool, Memory>
    requires { IsListed b.now }
    ensures { IfOk result (λ is. is ≡ list_all (is_plain_there (sig_view sig.now)
        (ranked_view b.now) n all.now.rank all.now.sort (formula_view all.now.body.now))
        (only_terms standing.now)) }
{
    for s in standing {
        if !is_plain_instance_there(alloc, sig, b, n, all, &s.term)? {
            return Ok(false);
        }
    }
    Ok(true)
}

/// Whether of a universal of rank r the plain instances up to rank n are on the branch.
#[tactic(auto, using(crate::proofs::Listed::standing_is, rp_logic::proofs::FormulaViews::formula_views))]
fn has_plain_instances(
    alloc: Global,
    sig: &Sig,
    b: &RankedBranch,
    n: u32,
    r: u32,
    f: &Fml,
) -> Result<bool, Memory>
    requires { IsListed b.now }
    ensures { IfOk result (λ is. is ≡ spec.has_plain_instances (sig_view sig.now)
        (ranked_view b.now) n r (formula_view f.now)) }
{
    match f {
        Fml::And(_) => Ok(true),
        Fml::Or(_) => Ok(true),
        Fml::All(sort, body) => {
            let all = Universal {
                rank: r,
                sort: *sort,
                body: body.get(),
            };
            are_plain_instances_there(alloc, sig, b, n, &all, b.standing.as_slice())
        }
        Fml::Ex(_, _) => Ok(true),
        Fml::Lit(_, _) => Ok(true),
    }
}

fn has_all_plain_instances(
    alloc: Global,
    sig: &Sig,
    b: &RankedBranch,
    n: u32,
) -> Result<bool, Memory>
    requires { IsListed b.now }
    ensures { IfOk result (λ is. is
        ≡ spec.has_all_plain_instances (sig_view sig.now) (ranked_view b.now) n) }
{
    for p in 0..b.ranks.count() {
        let r = *b.ranks.get(p as usize);
        if !has_plain_instances(alloc, sig, b, n, r, b.branch.formulas.get(p as usize))? {
            return Ok(false);
        }
    }
    Ok(true)
}

fn is_plainly_matched(sig: &Sig, b: &RankedBranch, t: &Term, p: u32) -> bool
    requires { IsListed b.now }
    ensures { result ≡ spec.is_plainly_matched (sig_view sig.now) (branch_view b.now.branch)
        (term_view t.now) (spec_formula_at (branch_view b.now.branch) p) }
{
    match universal_at(&b.branch, p) {
        Some((sort, body)) => matches_plainly(sig, b, sort, body, t),
        None => false,
    }
}

/// Whether the instance is by a term that matches plainly, or all plain ones up to its rank are
/// there.
pub(crate) fn is_instance_due(
    alloc: Global,
    sig: &Sig,
    b: &RankedBranch,
    u: &RuleUse,
) -> Result<bool, Memory>
    requires { IsListed b.now }
    ensures { IfOk result (λ is. is ≡ spec.is_instance_due (sig_view sig.now) (ranked_view b.now)
        (use_view u.now) (use_view u.now).places (use_view u.now).terms) }
{
    match (u.places.as_slice(), u.terms.as_slice()) {
        ([p], [t]) => {
            if is_plainly_matched(sig, b, t, *p) {
                return Ok(true);
            }
            let rank = rank_of(b, u)?;
            has_all_plain_instances(alloc, sig, b, rank)
        }
        _ => Ok(false),
    }
}

/// Whether the existential has no body with a constant yet.
pub(crate) fn is_constant_due(
    alloc: Global,
    sig: &Sig,
    b: &RankedBranch,
    u: &RuleUse,
) -> Result<bool, Memory>
    requires { IsListed b.now }
    ensures { IfOk result (λ is. is ≡ spec.is_constant_due (sig_view sig.now) (ranked_view b.now)
        (use_view u.now).places) }
{
    match only_place(u.places.as_slice()) {
        Some(p) => match existential_at(&b.branch, p) {
            Some((sort, body)) => Ok(!has_body(alloc, sig, b, sort, body)?),
            None => Ok(false),
        },
        None => Ok(false),
    }
}

fn has_small_number(atom: &Atom) -> bool
    ensures { result ≡ spec.has_small_number (atom_view atom.now) }
{
    match atom {
        Atom::Equal(_, _) => true,
        Atom::Le { a: _, b: _, k } => *k == 0 || *k == -1,
        Atom::Rel(_, _) => true,
    }
}

pub(crate) fn have_small_numbers(atoms: &[Atom]) -> bool
    ensures { result ≡ list_all spec.has_small_number (map atom_view atoms.now) }
{
    for atom in atoms {
        if !has_small_number(atom) {
            return false;
        }
    }
    true
}

#[tactic(auto, using(rp_logic::proofs::TermViews::term_views))]
fn is_built(t: &Term) -> bool
    ensures { result ≡ spec.is_built (term_view t.now) }
{
    match t {
        Term::Var(_) => false,
        Term::Const(_) => false,
        Term::Fn(_, _) => false,
        Term::Int(_) => false,
        Term::Str(_) => false,
        Term::Con(_, _) => true,
        Term::Sel(_, _, _) => false,
        Term::Plus(_, _) => false,
    }
}

fn are_other_and_built(t: &Term, atom: &Atom) -> bool
    ensures { result ≡ spec.denies (term_view t.now) (Lit false (atom_view atom.now)) }
{
    match atom {
        Atom::Equal(a, b) => (is_same(t, a) && is_built(b)) || (is_same(t, b) && is_built(a)),
        Atom::Le { .. } => false,
        Atom::Rel(_, _) => false,
    }
}

#[tactic(auto, using(rp_logic::proofs::FormulaViews::formula_views))]
fn denies(t: &Term, f: &Fml) -> bool
    ensures { result ≡ spec.denies (term_view t.now) (formula_view f.now) }
{
    match f {
        Fml::And(_) => false,
        Fml::Or(_) => false,
        Fml::All(_, _) => false,
        Fml::Ex(_, _) => false,
        Fml::Lit(true, _) => false,
        Fml::Lit(false, atom) => are_other_and_built(t, atom),
    }
}

fn is_denied(t: &Term, formulas: &[Fml]) -> bool
    ensures { result ≡ list_any (spec.denies (term_view t.now)) (map formula_view formulas.now) }
{
    for f in formulas {
        if denies(t, f) {
            return true;
        }
    }
    false
}

/// Whether a formula says that the term that is named isn't a term of a constructor.
fn is_denied_constructor(b: &RankedBranch, u: &RuleUse) -> bool
    ensures { result
        ≡ spec.is_denied_constructor (branch_view b.now.branch) (use_view u.now).terms }
{
    match u.terms.as_slice() {
        [t] => is_denied(t, b.branch.formulas.as_slice()),
        _ => false,
    }
}

fn is_cut_due(
    alloc: Global,
    sig: &Sig,
    depth: u32,
    b: &RankedBranch,
    u: &RuleUse,
) -> Result<bool, Memory>
    requires { IsListed b.now }
    ensures { IfOk result (λ is. is ≡ is_cut_due_at (sig_view sig.now) depth (ranked_view b.now)
        (use_view u.now)) }
{
    if have_small_numbers(u.atoms.as_slice()) {
        is_complete(alloc, sig, b, depth)
    } else {
        Ok(false)
    }
}

fn are_cases_due(
    alloc: Global,
    sig: &Sig,
    depth: u32,
    b: &RankedBranch,
    u: &RuleUse,
) -> Result<bool, Memory>
    requires { IsListed b.now }
    ensures { IfOk result (λ is. is ≡ are_cases_due_at (sig_view sig.now) depth
        (ranked_view b.now) (use_view u.now)) }
{
    if is_denied_constructor(b, u) {
        Ok(true)
    } else {
        is_complete(alloc, sig, b, depth)
    }
}

/// Whether the node is due, by its rule.
pub(crate) fn is_due(
    alloc: Global,
    sig: &Sig,
    depth: u32,
    b: &RankedBranch,
    u: &RuleUse,
) -> Result<bool, Memory>
    requires { IsListed b.now }
    ensures { IfOk result (λ is. is ≡ spec.is_due (sig_view sig.now) depth (ranked_view b.now)
        (use_view u.now)) }
{
    match u.rule {
        3 => is_instance_due(alloc, sig, b, u),
        4 => is_constant_due(alloc, sig, b, u),
        5 => is_cut_due(alloc, sig, depth, b, u),
        14 => are_cases_due(alloc, sig, depth, b, u),
        _ => Ok(true),
    }
}
