//! Forms of expressions, made of what their parts say.

ghost use Rattle.std.specs.Prelude.{◌≡◌, ◌∷◌, ◌++◌, [], IfOk, OnOk, Some, if◌then◌else◌, map};
ghost use Rattle.query_bodies.specs.Terms as te;
ghost use Rattle.query_bodies.specs.Terms.{no_te, said_claim, said_term};
ghost use Rattle.query_bodies.specs.Views.{body_view, claim_arm_view, claim_arms_view, claim_view, claims_view, term_view, terms_view};
ghost use Rattle.query_laws.specs.Sight.{compared as compared_by, word_of as said_by};
ghost use Rattle.reading.specs.Forms.{claim_of};

use query_bodies::{Body, Claim, ClaimArm, Term};
use rp_ast::{CallWord, CompareOp};
use rp_value::{Boxed, List, Memory, Ty, copy_bytes};
use std::alloc::Global;

pub(crate) fn of_term(alloc: Global, term: Term) -> Result<Body, Memory>
    ensures { IfOk result (λ body. body_view body ≡ said_term (term_view term)) }
{
    Ok(Body::Term(Boxed::new(alloc, term)?))
}

pub(crate) fn of_claim(alloc: Global, claim: Claim) -> Result<Body, Memory>
    ensures { IfOk result (λ body. body_view body ≡ said_claim (claim_view claim)) }
{
    Ok(Body::Claim(Boxed::new(alloc, claim)?))
}

/// A term without parts.
#[tactic(auto, using(query_bodies::proofs::TermViews::term_views))]
pub(crate) fn number(alloc: Global, n: &i128) -> Result<Body, Memory>
    ensures { IfOk result (λ body. body_view body ≡ said_term (te.Int n.now)) }
{
    of_term(alloc, Term::Int(*n))
}

#[tactic(auto, using(query_bodies::proofs::TermViews::term_views))]
pub(crate) fn text(alloc: Global, bytes: &[u8]) -> Result<Body, Memory>
    ensures { IfOk result (λ body. body_view body ≡ said_term (te.Str bytes.now)) }
{
    let bytes = copy_bytes(alloc, bytes)?;
    of_term(alloc, Term::Str(bytes))
}

/// A constructor of `Bool`.
#[tactic(auto, using(query_bodies::proofs::TermViews::term_views))]
pub(crate) fn truth(alloc: Global, value: bool) -> Result<Body, Memory>
    ensures { IfOk result (λ body. body_view body ≡ said_term (te.Con (if value then 1 else 0) no_te)) }
{
    let con = if value { 1 } else { 0 };
    of_term(alloc, Term::Con(con, List::new(alloc)))
}

#[tactic(auto, using(query_bodies::proofs::TermViews::term_views))]
pub(crate) fn unreturned(alloc: Global) -> Result<Body, Memory>
    ensures { IfOk result (λ body. body_view body ≡ said_term te.Unreturned) }
{
    of_term(alloc, Term::Unreturned)
}

#[tactic(auto, using(query_bodies::proofs::TermViews::term_views))]
pub(crate) fn tx(alloc: Global) -> Result<Body, Memory>
    ensures { IfOk result (λ body. body_view body ≡ said_term (te.OpTerm 0 no_te)) }
{
    of_term(alloc, Term::OpTerm(0, List::new(alloc)))
}

/// A constructor without fields.
#[tactic(auto, using(query_bodies::proofs::TermViews::term_views))]
pub(crate) fn bare(alloc: Global, con: u32) -> Result<Body, Memory>
    ensures { IfOk result (λ body. body_view body ≡ said_term (te.Con con no_te)) }
{
    of_term(alloc, Term::Con(con, List::new(alloc)))
}

/// A constructor with one field.
#[tactic(auto, using(query_bodies::proofs::TermViews::term_views))]
pub(crate) fn holding(alloc: Global, con: u32, field: Boxed<Term>) -> Result<Body, Memory>
    ensures { IfOk result (λ body. body_view body ≡ said_term (te.Con con (te.also_te (term_view field) no_te))) }
{
    let mut fields = List::new(alloc);
    push_boxed(&mut fields, field)?;
    of_term(alloc, Term::Con(con, fields))
}

/// Adds what stands in a box. The generic parameter keeps its destructor out of here.
pub(crate) fn push_boxed<A: Drop>(list: &mut List<A>, value: Boxed<A>) -> Result<(), Memory>
    ensures { OnOk result (list.new ≡ list.old ++ value ∷ []) }
{
    list.push(value.into_inner())?;
    Ok(())
}

/// An equality that doesn't hold.
#[tactic(auto, using(query_bodies::proofs::ClaimViews::claim_views))]
fn unequal(alloc: Global, left: Boxed<Term>, right: Boxed<Term>) -> Result<Body, Memory>
    ensures { IfOk result (λ body. body_view body ≡ said_claim (te.Not (te.Equal (term_view left) (term_view right)))) }
{
    let equal = Boxed::new(alloc, Claim::Equal(left.into_inner(), right.into_inner()))?;
    of_claim(alloc, Claim::Not(equal))
}

/// A comparison. What is greater is turned round.
#[tactic(auto, using(query_bodies::proofs::ClaimViews::claim_views))]
pub(crate) fn compared(
    alloc: Global,
    op: CompareOp,
    left: Boxed<Term>,
    right: Boxed<Term>,
) -> Result<Body, Memory>
    ensures { IfOk result (λ body. body_view body ≡ said_claim (compared_by op (term_view left) (term_view right))) }
{
    match op {
        CompareOp::Equal => of_claim(alloc, Claim::Equal(left.into_inner(), right.into_inner())),
        CompareOp::NotEqual => unequal(alloc, left, right),
        CompareOp::Less => of_claim(alloc, Claim::Less(left.into_inner(), right.into_inner())),
        CompareOp::AtMost => of_claim(alloc, Claim::AtMost(left.into_inner(), right.into_inner())),
        CompareOp::Greater => of_claim(alloc, Claim::Less(right.into_inner(), left.into_inner())),
        CompareOp::AtLeast => of_claim(alloc, Claim::AtMost(right.into_inner(), left.into_inner())),
    }
}

#[tactic(auto, using(query_bodies::proofs::TermViews::term_views))]
fn of_record(alloc: Global, word: CallWord, arg: Term) -> Result<Body, Memory>
    ensures { IfOk result (λ body. said_by word (te.also_te (term_view arg) no_te) ≡ Some (body_view body)) }
{
    let arg = Boxed::new(alloc, arg)?;
    match word {
        CallWord::Op => of_term(alloc, Term::OpOf(arg)),
        CallWord::Origin => of_term(alloc, Term::OriginOf(arg)),
        CallWord::Info => of_term(alloc, Term::InfoOf(arg)),
        CallWord::Result => of_term(alloc, Term::ResultOf(arg)),
        CallWord::Visible => visible(alloc, arg),
        CallWord::Before => Err(Memory),
        CallWord::Same => Err(Memory),
    }
}

#[tactic(auto, using(query_bodies::proofs::ClaimViews::claim_views))]
fn visible(alloc: Global, call: Boxed<Term>) -> Result<Body, Memory>
    ensures { IfOk result (λ body. body_view body ≡ said_claim (te.Visible (term_view call))) }
{
    of_claim(alloc, Claim::Visible(call.into_inner()))
}

#[tactic(auto, using(query_bodies::proofs::ClaimViews::claim_views))]
fn of_calls(alloc: Global, word: CallWord, first: Term, last: Term) -> Result<Body, Memory>
    ensures { IfOk result (λ body. said_by word (te.also_te (term_view first) (te.also_te (term_view last) no_te))
        ≡ Some (body_view body)) }
{
    match word {
        CallWord::Before => of_claim(alloc, Claim::Before(first, last)),
        CallWord::Same => of_claim(alloc, Claim::Same(first, last)),
        CallWord::Visible => Err(Memory),
        CallWord::Op => Err(Memory),
        CallWord::Origin => Err(Memory),
        CallWord::Info => Err(Memory),
        CallWord::Result => Err(Memory),
    }
}

/// A word on calls and invocations, with these arguments. `Err` is also that they aren't as many as it takes.
pub(crate) fn word_of(alloc: Global, word: CallWord, args: List<Term>) -> Result<Body, Memory>
    ensures { IfOk result (λ body. said_by word (terms_view args) ≡ Some (body_view body)) }
{
    let mut args = args;
    match args.pop() {
        Some(last) => match args.pop() {
            Some(first) => {
                if args.is_empty() {
                    of_calls(alloc, word, first, last)
                } else {
                    Err(Memory)
                }
            }
            None => of_record(alloc, word, last),
        },
        None => Err(Memory),
    }
}

#[tactic(auto, using(query_bodies::proofs::TermViews::term_views))]
pub(crate) fn sum(alloc: Global, left: Boxed<Term>, right: Boxed<Term>) -> Result<Body, Memory>
    ensures { IfOk result (λ body. body_view body ≡ said_term (te.Sum (term_view left) (term_view right))) }
{
    of_term(alloc, Term::Sum(left, right))
}

#[tactic(auto, using(query_bodies::proofs::TermViews::term_views))]
pub(crate) fn difference(
    alloc: Global,
    left: Boxed<Term>,
    right: Boxed<Term>,
) -> Result<Body, Memory>
    ensures { IfOk result (λ body. body_view body ≡ said_term (te.Difference (term_view left) (term_view right))) }
{
    of_term(alloc, Term::Difference(left, right))
}

#[tactic(auto, using(query_bodies::proofs::ClaimViews::claim_views))]
pub(crate) fn implied(
    alloc: Global,
    left: Boxed<Claim>,
    right: Boxed<Claim>,
) -> Result<Body, Memory>
    ensures { IfOk result (λ body. body_view body ≡ said_claim (te.Implies (claim_view left) (claim_view right))) }
{
    of_claim(alloc, Claim::Implies(left, right))
}

#[tactic(auto, using(query_bodies::proofs::ClaimViews::claim_views))]
pub(crate) fn negated(alloc: Global, part: Boxed<Claim>) -> Result<Body, Memory>
    ensures { IfOk result (λ body. body_view body ≡ said_claim (te.Not (claim_view part))) }
{
    of_claim(alloc, Claim::Not(part))
}

#[tactic(auto, using(query_bodies::proofs::ClaimViews::claim_views))]
pub(crate) fn one_of(alloc: Global, parts: List<Claim>) -> Result<Body, Memory>
    ensures { IfOk result (λ body. body_view body ≡ said_claim (te.Or (claims_view parts))) }
{
    of_claim(alloc, Claim::Or(parts))
}

#[tactic(auto, using(query_bodies::proofs::ClaimViews::claim_views))]
pub(crate) fn each_of(alloc: Global, parts: List<Claim>) -> Result<Body, Memory>
    ensures { IfOk result (λ body. body_view body ≡ said_claim (te.And (claims_view parts))) }
{
    of_claim(alloc, Claim::And(parts))
}

#[tactic(auto, using(query_bodies::proofs::ClaimViews::claim_views))]
pub(crate) fn for_all(alloc: Global, ty: Ty, body: Boxed<Claim>) -> Result<Body, Memory>
    ensures { IfOk result (λ made. body_view made ≡ said_claim (te.All ty (claim_view body))) }
{
    of_claim(alloc, Claim::All(ty, body))
}

#[tactic(auto, using(query_bodies::proofs::ClaimViews::claim_views))]
pub(crate) fn for_some(alloc: Global, ty: Ty, body: Boxed<Claim>) -> Result<Body, Memory>
    ensures { IfOk result (λ made. body_view made ≡ said_claim (te.Any ty (claim_view body))) }
{
    of_claim(alloc, Claim::Any(ty, body))
}

#[tactic(auto, using(query_bodies::proofs::ClaimViews::claim_views))]
pub(crate) fn matched(alloc: Global, on: Boxed<Term>, arms: List<ClaimArm>) -> Result<Body, Memory>
    ensures { IfOk result (λ body. body_view body ≡ said_claim (te.Match (term_view on) (claim_arms_view arms))) }
{
    of_claim(alloc, Claim::Match(on.into_inner(), arms))
}

/// Adds an arm.
#[tactic(auto, using(query_bodies::proofs::ClaimViews::claim_views))]
pub(crate) fn push_arm(
    arms: &mut List<ClaimArm>,
    con: u32,
    binds: u32,
    body: Boxed<Claim>,
) -> Result<(), Memory>
    ensures { OnOk result (map claim_arm_view arms.new ≡ map claim_arm_view arms.old
        ++ ((con, binds), claim_view body) ∷ []) }
{
    arms.push(ClaimArm {
        con,
        binds,
        body: body.into_inner(),
    })?;
    Ok(())
}

/// As a formula. A term of type `Bool` holds where it is true.
#[tactic(auto, using(query_bodies::proofs::ClaimViews::claim_views))]
pub(crate) fn as_claim(alloc: Global, body: Body) -> Result<Boxed<Claim>, Memory>
    ensures { IfOk result (λ claim. claim_view claim ≡ claim_of (body_view body)) }
{
    match body {
        Body::Term(term) => Boxed::new(alloc, Claim::Holds(term.into_inner())),
        Body::Claim(claim) => Ok(claim),
    }
}

/// As a plain term. `Err` is that it is a formula.
pub(crate) fn as_term(body: Body) -> Result<Boxed<Term>, Memory>
    ensures { IfOk result (λ term. body_view body ≡ said_term (term_view term)) }
{
    match body {
        Body::Term(term) => Ok(term),
        Body::Claim(_) => Err(Memory),
    }
}
