//! Branches that are complete to a depth.
ghost use Rattle.std.specs.Prelude.{◌≡◌, IfOk, not, ◌||◌, nat_le};
ghost use Rattle.std.specs.List.{list_any, list_all};
ghost use Rattle.rp_logic.specs.SigView.{sig_view};
ghost use Rattle.rp_logic.specs.Views.{term_view, formula_view};
ghost use Rattle.refute_branch.specs.Views.{branch_view};
ghost use Rattle.spent_defs.specs.Complete as spec;
ghost use Rattle.spent_tests.specs.Views.{ranked_view, only_terms, IsListed};
ghost use Rattle.spent_tests.specs.means.Parts.{has_constant_body};

use crate::bodies::uses_var;
use crate::branch::RankedBranch;
use crate::on::{all_on, instance_on, some_on, term_rank};
use crate::standing::Standing;
use refute_branch::{OpenBranch, is_of_sort};
use rp_logic::{Fml, Sig, Term};
use rp_value::Memory;
use std::alloc::Global;

#[tactic(auto, using(rp_logic::proofs::TermViews::term_views))]
fn is_constant(t: &Term) -> bool
    ensures { result ≡ spec.is_constant (term_view t.now) }
{
    match t {
        Term::Var(_) => false,
        Term::Const(_) => true,
        Term::Fn(_, _) => false,
        Term::Int(_) => false,
        Term::Str(_) => false,
        Term::Con(_, _) => false,
        Term::Sel(_, _, _) => false,
        Term::Plus(_, _) => false,
    }
}

fn gives_body(
    alloc: Global,
    sig: &Sig,
    b: &OpenBranch,
    sort: u32,
    body: &Fml,
    t: &Term,
) -> Result<bool, Memory>
    ensures { IfOk result (λ is. is ≡ spec.gives_body (sig_view sig.now) (branch_view b.now) sort
        (formula_view body.now) (term_view t.now)) }
{
    if is_constant(t) && is_of_sort(sig, b, sort, t) {
        instance_on(alloc, b, body, t)
    } else {
        Ok(false)
    }
}

fn some_gives_body(
    alloc: Global,
    sig: &Sig,
    b: &OpenBranch,
    sort: u32,
    body: &Fml,
    standing: &[Standing],
) -> Result<bool, Memory>
    ensures { IfOk result (λ is. is ≡ list_any
        (spec.gives_body (sig_view sig.now) (branch_view b.now) sort (formula_view body.now))
        (only_terms standing.now)) }
{
    for s in standing {
        if gives_body(alloc, sig, b, sort, body, &s.term)? {
            return Ok(true);
        }
    }
    Ok(false)
}

/// Whether the body is on the branch where it is the same with each constant.
#[tactic(auto, using(rp_logic::proofs::TermViews::term_views))]
fn stands_alone(alloc: Global, b: &OpenBranch, body: &Fml) -> Result<bool, Memory>
    ensures { IfOk result (λ is. is
        ≡ has_constant_body (branch_view b.now) (formula_view body.now)) }
{
    if uses_var(body) {
        Ok(false)
    } else {
        instance_on(alloc, b, body, &Term::Const(0))
    }
}

/// Whether a body of the existential with a constant of its sort is on the branch.
#[tactic(auto, using(crate::proofs::Listed::standing_is))]
pub(crate) fn has_body(
    alloc: Global,
    sig: &Sig,
    b: &RankedBranch,
    sort: u32,
    body: &Fml,
) -> Result<bool, Memory>
    requires { IsListed b.now }
    ensures { IfOk result (λ is. is ≡ spec.has_body (sig_view sig.now) (branch_view b.now.branch)
        sort (formula_view body.now)) }
{
    if some_gives_body(alloc, sig, &b.branch, sort, body, b.standing.as_slice())? {
        Ok(true)
    } else {
        stands_alone(alloc, &b.branch, body)
    }
}

/// A universal of a branch, and the rank up to which its instances are asked for.
#[derive(Clone, Copy)]
pub(crate) struct Universal<'a> {
    pub rank: u32,
    pub sort: u32,
    pub body: &'a Fml,
}

/// Whether the instance by the term is on the branch, unless it isn't asked for.
pub(crate) fn is_instance_there(
    alloc: Global,
    sig: &Sig,
    b: &RankedBranch,
    n: u32,
    all: &Universal,
    t: &Term,
) -> Result<bool, Memory>
    requires { IsListed b.now }
    ensures { IfOk result (λ is. is ≡ spec.is_instance_there (sig_view sig.now) (ranked_view b.now)
        n all.now.rank all.now.sort (formula_view all.now.body.now) (term_view t.now)) }
{
    if !is_of_sort(sig, &b.branch, all.sort, t) {
        return Ok(true);
    }
    if n <= all.rank || n <= term_rank(b, t) {
        return Ok(true);
    }
    instance_on(alloc, &b.branch, all.body, t)
}

fn are_instances_there(
    alloc: Global,
    sig: &Sig,
    b: &RankedBranch,
    n: u32,
    all: &Universal,
    standing: &[Standing],
) -> Result<bool, Memory>
    requires { IsListed b.now }
    ensures { IfOk result (λ is. is ≡ list_all (spec.is_instance_there (sig_view sig.now)
        (ranked_view b.now) n all.now.rank all.now.sort (formula_view all.now.body.now))
        (only_terms standing.now)) }
{
    for s in standing {
        if !is_instance_there(alloc, sig, b, n, all, &s.term)? {
            return Ok(false);
        }
    }
    Ok(true)
}

/// Whether what the formula of rank r asks for up to rank n is on the branch.
#[tactic(auto, using(crate::proofs::Listed::standing_is, rp_logic::proofs::FormulaViews::formula_views))]
fn is_met(
    alloc: Global,
    sig: &Sig,
    b: &RankedBranch,
    n: u32,
    r: u32,
    f: &Fml,
) -> Result<bool, Memory>
    requires { IsListed b.now }
    ensures { IfOk result (λ is. is ≡ spec.is_met (sig_view sig.now) (ranked_view b.now) n r
        (formula_view f.now)) }
{
    match f {
        Fml::And(parts) => Ok(all_on(&b.branch, parts.as_slice())),
        Fml::Or(parts) => Ok(some_on(&b.branch, parts.as_slice())),
        Fml::All(sort, body) => {
            let all = Universal {
                rank: r,
                sort: *sort,
                body: body.get(),
            };
            are_instances_there(alloc, sig, b, n, &all, b.standing.as_slice())
        }
        Fml::Ex(sort, body) => has_body(alloc, sig, b, *sort, body.get()),
        Fml::Lit(_, _) => Ok(true),
    }
}

fn is_met_up_to(
    alloc: Global,
    sig: &Sig,
    b: &RankedBranch,
    n: u32,
    r: u32,
    f: &Fml,
) -> Result<bool, Memory>
    requires { IsListed b.now }
    ensures { IfOk result (λ is. is ≡ (not (nat_le r n) || spec.is_met (sig_view sig.now)
        (ranked_view b.now) n r (formula_view f.now))) }
{
    if r <= n {
        is_met(alloc, sig, b, n, r, f)
    } else {
        Ok(true)
    }
}

/// Whether all that formulas of rank up to n ask for up to that rank is on the branch.
pub fn is_complete(alloc: Global, sig: &Sig, b: &RankedBranch, n: u32) -> Result<bool, Memory>
    requires { IsListed b.now }
    ensures { IfOk result (λ is. is
        ≡ spec.is_complete (sig_view sig.now) (ranked_view b.now) n) }
{
    for p in 0..b.ranks.count() {
        let r = *b.ranks.get(p as usize);
        if !is_met_up_to(alloc, sig, b, n, r, b.branch.formulas.get(p as usize))? {
            return Ok(false);
        }
    }
    Ok(true)
}
