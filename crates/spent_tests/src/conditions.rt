//! What each node of a counted tree keeps beside its rule.
ghost use Rattle.std.specs.Prelude.{◌≡◌, ◌&&◌, IfOk, map};
ghost use Rattle.std.specs.List.{list_all, range_with_len};
ghost use Rattle.rp_logic.specs.SigView.{sig_view};
ghost use Rattle.rp_logic.specs.Views.{term_view, terms_view, atom_view, formula_view};
ghost use Rattle.refute_defs.specs.Parts.{atom_args};
ghost use Rattle.refute_defs.specs.Views.{use_view};
ghost use Rattle.refute_branch.specs.Views.{branch_view};
ghost use Rattle.refute_rules.specs.Added.{addition_view};
ghost use Rattle.spent_defs.specs.Conditions as spec;
ghost use Rattle.spent_tests.specs.Views.{ranked_view, IsListed};
ghost use Rattle.spent_tests.specs.means.Parts.{all_known, atoms_known, is_signature_constant as is_signature_constant_at, is_settled_by as is_settled_by_at};

use crate::branch::RankedBranch;
use crate::complete::is_complete;
use crate::due::is_due;
use crate::on::{all_on, is_on, stands};
use crate::ranks::rank_of;
use refute_branch::OpenBranch;
use refute_defs::RuleUse;
use refute_rules::Addition;
use rp_logic::{Atom, Fml, Sig, Term};
use rp_value::{List, Memory};
use std::alloc::Global;

#[tactic(auto, using(rp_logic::proofs::TermViews::term_views))]
fn is_signature_constant(sig: &Sig, t: &Term) -> bool
    ensures { result ≡ is_signature_constant_at (sig_view sig.now) (term_view t.now) }
{
    match t {
        Term::Var(_) => false,
        Term::Const(c) => *c < sig.consts.count(),
        Term::Fn(_, _) => false,
        Term::Int(_) => false,
        Term::Str(_) => false,
        Term::Con(_, _) => false,
        Term::Sel(_, _, _) => false,
        Term::Plus(_, _) => false,
    }
}

/// Whether the term stands on the branch, or is a constant of the signature.
fn is_known(sig: &Sig, b: &RankedBranch, t: &Term) -> bool
    requires { IsListed b.now }
    ensures { result ≡ spec.is_known (sig_view sig.now) (branch_view b.now.branch) (term_view t.now) }
{
    is_signature_constant(sig, t) || stands(b, t)
}

fn are_known(sig: &Sig, b: &RankedBranch, terms: &[Term]) -> bool
    requires { IsListed b.now }
    ensures { result
        ≡ all_known (sig_view sig.now) (branch_view b.now.branch) (terms_view terms.now) }
{
    for t in terms {
        if !is_known(sig, b, t) {
            return false;
        }
    }
    true
}

fn knows_atom(sig: &Sig, b: &RankedBranch, atom: &Atom) -> bool
    requires { IsListed b.now }
    ensures { result ≡ all_known (sig_view sig.now) (branch_view b.now.branch)
        (atom_args (atom_view atom.now)) }
{
    match atom {
        Atom::Equal(a, c) => is_known(sig, b, a) && is_known(sig, b, c),
        Atom::Le { a, b: c, k: _ } => is_known(sig, b, a) && is_known(sig, b, c),
        Atom::Rel(_, args) => are_known(sig, b, args.as_slice()),
    }
}

fn knows_atoms(sig: &Sig, b: &RankedBranch, atoms: &[Atom]) -> bool
    requires { IsListed b.now }
    ensures { result ≡ atoms_known (sig_view sig.now) (branch_view b.now.branch)
        (map atom_view atoms.now) }
{
    for atom in atoms {
        if !knows_atom(sig, b, atom) {
            return false;
        }
    }
    true
}

fn knows_all(sig: &Sig, b: &RankedBranch, u: &RuleUse) -> bool
    requires { IsListed b.now }
    ensures { result ≡ (all_known (sig_view sig.now) (branch_view b.now.branch)
        (terms_view u.now.terms) && atoms_known (sig_view sig.now) (branch_view b.now.branch)
        (map atom_view u.now.atoms)) }
{
    are_known(sig, b, u.terms.as_slice()) && knows_atoms(sig, b, u.atoms.as_slice())
}

/// Whether each term that the node names is known, unless it brings a constant.
fn names_known_terms(sig: &Sig, b: &RankedBranch, u: &RuleUse) -> bool
    requires { IsListed b.now }
    ensures { result
        ≡ spec.names_known_terms (sig_view sig.now) (ranked_view b.now) (use_view u.now) }
{
    u.rule == 4 || knows_all(sig, b, u)
}

/// Whether the node is counted, where it adds this for its children.
pub fn is_counted(u: &RuleUse, adds: &List<Addition>) -> bool
    ensures { result ≡ spec.is_counted (use_view u.now) (map addition_view adds.now) }
{
    match u.rule {
        2 => adds.count() >= 2,
        3 => true,
        4 => true,
        5 => true,
        14 => true,
        _ => false,
    }
}

fn adds_new(b: &OpenBranch, adds: &[Addition]) -> bool
    ensures { result ≡ spec.adds_new (branch_view b.now) (map addition_view adds.now) }
{
    for a in adds {
        if is_on(b, &a.formula) {
            return false;
        }
    }
    true
}

/// Whether the conjuncts of each `And` are there.
#[tactic(auto, using(rp_logic::proofs::FormulaViews::formula_views))]
fn has_conjuncts(b: &OpenBranch, f: &Fml) -> bool
    ensures { result ≡ spec.has_conjuncts (branch_view b.now) (formula_view f.now) }
{
    match f {
        Fml::And(parts) => all_on(b, parts.as_slice()),
        Fml::Or(_) => true,
        Fml::All(_, _) => true,
        Fml::Ex(_, _) => true,
        Fml::Lit(_, _) => true,
    }
}

/// Whether the formula is a literal whose negation is there too.
#[tactic(auto, using(rp_logic::proofs::FormulaViews::formula_views))]
fn is_in_clash(alloc: Global, b: &OpenBranch, f: &Fml) -> Result<bool, Memory>
    ensures { IfOk result (λ is. is
        ≡ spec.is_in_clash (branch_view b.now) (formula_view f.now)) }
{
    match f {
        Fml::And(_) => Ok(false),
        Fml::Or(_) => Ok(false),
        Fml::All(_, _) => Ok(false),
        Fml::Ex(_, _) => Ok(false),
        Fml::Lit(sign, atom) => {
            let negated = Fml::Lit(!*sign, atom.copy(alloc)?);
            Ok(is_on(b, &negated))
        }
    }
}

fn is_settled_by(alloc: Global, b: &OpenBranch, f: &Fml) -> Result<bool, Memory>
    ensures { IfOk result (λ is. is ≡ is_settled_by_at (branch_view b.now) (formula_view f.now)) }
{
    if has_conjuncts(b, f) {
        Ok(!is_in_clash(alloc, b, f)?)
    } else {
        Ok(false)
    }
}

fn are_settled(alloc: Global, b: &OpenBranch, formulas: &[Fml]) -> Result<bool, Memory>
    ensures { IfOk result (λ is. is
        ≡ list_all (is_settled_by_at (branch_view b.now)) (map formula_view formulas.now)) }
{
    for f in formulas {
        if !is_settled_by(alloc, b, f)? {
            return Ok(false);
        }
    }
    Ok(true)
}

/// Whether no conjunct is put off, and no clash is passed over.
fn is_settled(alloc: Global, b: &OpenBranch) -> Result<bool, Memory>
    ensures { IfOk result (λ is. is ≡ spec.is_settled (branch_view b.now)) }
{
    are_settled(alloc, b, b.formulas.as_slice())
}

/// Whether the rank waits for each of so many levels, from r on: from its predecessor on it waits
/// for none.
#[cycle(waits_from)]
#[tactic(auto, using(crate::proofs::Waits::waiting))]
fn waits_from(
    alloc: Global,
    sig: &Sig,
    b: &RankedBranch,
    rank: u32,
    r: u32,
    left: u32,
) -> Result<bool, Memory>
    requires { IsListed b.now }
    ensures { IfOk result (λ is. is ≡ list_all (spec.waits_for (sig_view sig.now)
        (ranked_view b.now) rank) (range_with_len r left)) }
{
    if left == 0 {
        return Ok(true);
    }
    if rank <= 1 || rank - 1 <= r {
        return Ok(true);
    }
    if is_complete(alloc, sig, b, r)? {
        waits_from(alloc, sig, b, rank, r + 1, left - 1)
    } else {
        Ok(false)
    }
}

fn is_rank_due(
    alloc: Global,
    sig: &Sig,
    depth: u32,
    b: &RankedBranch,
    rank: u32,
) -> Result<bool, Memory>
    requires { IsListed b.now }
    ensures { IfOk result (λ is. is ≡ spec.is_rank_due (sig_view sig.now) depth
        (ranked_view b.now) rank) }
{
    if rank <= depth {
        waits_from(alloc, sig, b, rank, 0, depth)
    } else {
        Ok(false)
    }
}

fn keeps_if_counted(
    alloc: Global,
    sig: &Sig,
    depth: u32,
    b: &RankedBranch,
    u: &RuleUse,
    adds: &List<Addition>,
) -> Result<bool, Memory>
    requires { IsListed b.now }
    ensures { IfOk result (λ is. is ≡ spec.keeps_if_counted (sig_view sig.now) depth
        (ranked_view b.now) (use_view u.now) (map addition_view adds.now)) }
{
    if !adds_new(&b.branch, adds.as_slice()) {
        return Ok(false);
    }
    if !is_settled(alloc, &b.branch)? {
        return Ok(false);
    }
    if !is_due(alloc, sig, depth, b, u)? {
        return Ok(false);
    }
    let rank = rank_of(b, u)?;
    is_rank_due(alloc, sig, depth, b, rank)
}

/// Whether the node keeps what a counted tree asks, where it adds this for its children.
pub fn keeps(
    alloc: Global,
    sig: &Sig,
    depth: u32,
    b: &RankedBranch,
    u: &RuleUse,
    adds: &List<Addition>,
) -> Result<bool, Memory>
    requires { IsListed b.now }
    ensures { IfOk result (λ is. is ≡ spec.keeps (sig_view sig.now) depth (ranked_view b.now)
        (use_view u.now) (map addition_view adds.now)) }
{
    if !names_known_terms(sig, b, u) {
        return Ok(false);
    }
    if is_counted(u, adds) {
        keeps_if_counted(alloc, sig, depth, b, u, adds)
    } else {
        Ok(true)
    }
}
