//! A test of what was read: its parameters are those of its query, arms bind the fields of their
//! constructors, and what is used as a formula is one. What is measured is told of such alone.

ghost use Rattle.std.specs.Prelude.{◌≡◌};
ghost use Rattle.rp_value.specs.declared.tables.ConTable.{ConTable};
ghost use Rattle.query_bodies.specs.Expanded.{said_at};
ghost use Rattle.query_bodies.specs.Seen.{saids_in};
ghost use Rattle.query_bodies.specs.Views.{body_view, claim_arms_view, claim_view, claims_view, term_view, terms_view};
ghost use Rattle.lower_exprs.specs.Sound as spec;

use program_bounds::fields_of;
use query_bodies::{Bodies, Body, Claim, ClaimArm, Term};
use rp_value::ConTable;

/// Whether the parameters are among the first, so many.
#[cycle(terms_over)]
#[tactic(auto, using(query_bodies::proofs::TermViews::term_views))]
fn is_over(params: usize, term: &Term) -> bool
    ensures { result ≡ spec.is_over params (term_view term.now) }
{
    match term {
        Term::Slot(_) => true,
        Term::Param(param) => (*param as usize) < params,
        Term::Level(_) => true,
        Term::Int(_) => true,
        Term::Str(_) => true,
        Term::Con(_, args) => are_over(params, args.as_slice()),
        Term::Sum(a, b) => is_over(params, a.get()) && is_over(params, b.get()),
        Term::Difference(a, b) => is_over(params, a.get()) && is_over(params, b.get()),
        Term::Query(_, args) => are_over(params, args.as_slice()),
        Term::OpOf(call) => is_over(params, call.get()),
        Term::OpTerm(_, args) => are_over(params, args.as_slice()),
        Term::OriginOf(call) => is_over(params, call.get()),
        Term::InfoOf(inv) => is_over(params, inv.get()),
        Term::InfoTerm(_, args) => are_over(params, args.as_slice()),
        Term::ResultOf(inv) => is_over(params, inv.get()),
        Term::ResultTerm(_, value) => match value {
            Some(value) => is_over(params, value.get()),
            None => true,
        },
        Term::Unreturned => true,
        Term::Use(_, args) => are_over(params, args.as_slice()),
    }
}

#[cycle(terms_over)]
#[tactic(auto, using(query_bodies::proofs::TermViews::term_views))]
fn are_over(params: usize, terms: &[Term]) -> bool
    ensures { result ≡ spec.are_over params (terms_view terms.now) }
{
    for term in terms {
        if !is_over(params, term) {
            return false;
        }
    }
    true
}

/// Whether the body of that query is a formula.
fn is_claim(bodies: &Bodies, decl: u32) -> bool
    ensures { result ≡ spec.is_claim (said_at (saids_in bodies.now) decl) }
{
    match bodies.body(decl) {
        Some(body) => match body {
            Body::Term(_) => false,
            Body::Claim(_) => true,
        },
        None => false,
    }
}

/// Whether there are as many variables as fields.
fn binds_fields(cons: &ConTable, con: u32, binds: u32) -> bool
    ensures { result ≡ spec.binds_fields cons.now con binds }
{
    fields_of(cons, con).len() == binds as usize
}

#[cycle(sound_claims)]
#[tactic(auto, using(query_bodies::proofs::ClaimViews::claim_views))]
fn claims_are_sound(cons: &ConTable, bodies: &Bodies, params: usize, claims: &[Claim]) -> bool
    ensures { result ≡ spec.are_sound cons.now (saids_in bodies.now) params (claims_view claims.now) }
{
    for claim in claims {
        if !is_sound_claim(cons, bodies, params, claim) {
            return false;
        }
    }
    true
}

#[cycle(sound_claims)]
#[tactic(auto, using(query_bodies::proofs::ClaimViews::claim_views))]
fn arms_are_sound(cons: &ConTable, bodies: &Bodies, params: usize, arms: &[ClaimArm]) -> bool
    ensures { result ≡ spec.arms_are_sound cons.now (saids_in bodies.now) params (claim_arms_view arms.now) }
{
    for arm in arms {
        if !binds_fields(cons, arm.con, arm.binds) {
            return false;
        }
        if !is_sound_claim(cons, bodies, params, &arm.body) {
            return false;
        }
    }
    true
}

#[cycle(sound_claims)]
#[tactic(auto, using(query_bodies::proofs::ClaimViews::claim_views))]
fn is_sound_claim(cons: &ConTable, bodies: &Bodies, params: usize, claim: &Claim) -> bool
    ensures { result ≡ spec.is_sound cons.now (saids_in bodies.now) params (claim_view claim.now) }
{
    match claim {
        Claim::And(parts) => claims_are_sound(cons, bodies, params, parts.as_slice()),
        Claim::Or(parts) => claims_are_sound(cons, bodies, params, parts.as_slice()),
        Claim::Not(part) => is_sound_claim(cons, bodies, params, part.get()),
        Claim::Implies(a, b) => {
            is_sound_claim(cons, bodies, params, a.get())
                && is_sound_claim(cons, bodies, params, b.get())
        }
        Claim::All(_, body) => is_sound_claim(cons, bodies, params, body.get()),
        Claim::Any(_, body) => is_sound_claim(cons, bodies, params, body.get()),
        Claim::Holds(e) => is_over(params, e),
        Claim::Equal(a, b) => is_over(params, a) && is_over(params, b),
        Claim::Less(a, b) => is_over(params, a) && is_over(params, b),
        Claim::AtMost(a, b) => is_over(params, a) && is_over(params, b),
        Claim::Visible(e) => is_over(params, e),
        Claim::Before(a, b) => is_over(params, a) && is_over(params, b),
        Claim::Same(a, b) => is_over(params, a) && is_over(params, b),
        Claim::Match(on, arms) => {
            is_over(params, on) && arms_are_sound(cons, bodies, params, arms.as_slice())
        }
        Claim::Use(decl, args) => is_claim(bodies, *decl) && are_over(params, args.as_slice()),
    }
}

/// Whether a body over so many parameters is sound.
pub(crate) fn is_sound(cons: &ConTable, bodies: &Bodies, params: usize, body: &Body) -> bool
    ensures { result ≡ spec.is_sound_said cons.now (saids_in bodies.now) params (body_view body.now) }
{
    match body {
        Body::Term(term) => is_over(params, term.get()),
        Body::Claim(claim) => is_sound_claim(cons, bodies, params, claim.get()),
    }
}
