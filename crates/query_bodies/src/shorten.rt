//! Uses of queries that only hand on to another, which are shortened: so chains of uses nest no deeper
//! than what they make.

ghost use Rattle.std.specs.Prelude.{◌≡◌, ◌<◌, IfOk, IfSome, Some, slice_get, take};
ghost use Rattle.std.specs.Option.{option_map};
ghost use Rattle.query_bodies.specs.Expanded.{IsUse};
ghost use Rattle.query_bodies.specs.means.Putting.{ArePut, IsPut, IsSame, IsUseOf};
ghost use Rattle.query_bodies.specs.Seen.{saids_in};
ghost use Rattle.query_bodies.specs.Terms.{said_claim, said_term};
ghost use Rattle.query_bodies.specs.Views.{body_view, claim_view, term_view, terms_view};

use crate::bodies::Bodies;
use crate::claim::Claim;
use crate::term::{Body, Term};
use rp_value::{Boxed, List, Memory, copy_bytes};
use std::alloc::Global;

/// Arguments of a shortened use. With more the text is long, and its chains are short.
const MOST_ARGS: usize = 16;

/// A copy of a term without parts that is the same wherever it stands.
#[tactic(auto, using(crate::proofs::TermViews::term_views))]
fn constant(alloc: Global, term: &Term) -> Result<Option<Term>, Memory>
    ensures copy { IfOk result (λ found. IfSome found (λ copy. term_view copy ≡ term_view term.now)) }
    ensures same { IfOk result (λ found. IfSome found (λ copy. IsSame (term_view copy))) }
{
    Ok(match term {
        Term::Slot(slot) => Some(Term::Slot(*slot)),
        Term::Int(n) => Some(Term::Int(*n)),
        Term::Str(bytes) => Some(Term::Str(copy_bytes(alloc, bytes.as_slice())?)),
        Term::Con(con, args) if args.is_empty() => Some(Term::Con(*con, List::new(alloc))),
        Term::Unreturned => Some(Term::Unreturned),
        _ => None,
    })
}

/// A copy of a term without parts.
#[tactic(auto, using(crate::proofs::TermViews::term_views))]
fn leaf(alloc: Global, term: &Term) -> Result<Option<Term>, Memory>
    ensures { IfOk result (λ found. IfSome found (λ copy. term_view copy ≡ term_view term.now)) }
{
    match term {
        Term::Param(param) => Ok(Some(Term::Param(*param))),
        Term::Level(level) => Ok(Some(Term::Level(*level))),
        _ => constant(alloc, term),
    }
}

/// An argument of the inner use with those of the outer in place of its parameters, if it has no parts.
#[tactic(auto, using(crate::proofs::TermViews::term_views))]
fn handed_on(alloc: Global, outer: &[Term], arg: &Term) -> Result<Option<Term>, Memory>
    ensures { IfOk result (λ found. IfSome found (λ copy. IsPut (terms_view outer.now)
        (term_view arg.now) (term_view copy))) }
{
    match arg {
        Term::Param(param) => match outer.get(*param as usize) {
            Some(whole) => leaf(alloc, whole),
            None => Ok(None),
        },
        _ => constant(alloc, arg),
    }
}

/// The arguments of the inner use with those of the outer in place of its parameters, where none has parts.
fn joined(alloc: Global, outer: &[Term], inner: &[Term]) -> Result<Option<List<Term>>, Memory>
    ensures { IfOk result (λ found. IfSome found (λ args. ArePut (terms_view outer.now)
        (terms_view inner.now) (terms_view args))) }
{
    if inner.len() > MOST_ARGS {
        return Ok(None);
    }
    let mut made = List::new(alloc);
    for arg in inner {
        match handed_on(alloc, outer, arg)? {
            Some(copy) => made.push(copy)?,
            None => return Ok(None),
        }
    }
    Ok(Some(made))
}

/// The same, of a use in the body of the query of this declaration. Others than those before it aren't used.
fn further_args(
    alloc: Global,
    decl: u32,
    outer: &[Term],
    further: u32,
    inner: &[Term],
) -> Result<Option<List<Term>>, Memory>
    ensures put { IfOk result (λ found. IfSome found (λ args. ArePut (terms_view outer.now)
        (terms_view inner.now) (terms_view args))) }
    ensures before { IfOk result (λ found. IfSome found (λ args. further < decl)) }
{
    if further < decl {
        joined(alloc, outer, inner)
    } else {
        Ok(None)
    }
}

/// A use of the query of this declaration, whose body is this term.
fn term_use(alloc: Global, decl: u32, body: &Term, args: List<Term>) -> Result<Term, Memory>
    ensures { IfOk result (λ made. IsUseOf (said_term (term_view body.now)) (said_term (term_view made)) decl
        (terms_view args)) }
{
    match body {
        Term::Param(param) => nth(args, *param),
        Term::Use(further, inner) => {
            match further_args(alloc, decl, args.as_slice(), *further, inner.as_slice())? {
                Some(joined) => Ok(Term::Use(*further, joined)),
                None => Ok(Term::Use(decl, args)),
            }
        }
        _ => Ok(Term::Use(decl, args)),
    }
}

/// A use of the query of this declaration, whose body is this formula.
fn claim_use(alloc: Global, decl: u32, body: &Claim, args: List<Term>) -> Result<Claim, Memory>
    ensures { IfOk result (λ made. IsUseOf (said_claim (claim_view body.now)) (said_claim (claim_view made)) decl
        (terms_view args)) }
{
    match body {
        Claim::Use(further, inner) => {
            match further_args(alloc, decl, args.as_slice(), *further, inner.as_slice())? {
                Some(joined) => Ok(Claim::Use(*further, joined)),
                None => Ok(Claim::Use(decl, args)),
            }
        }
        _ => Ok(Claim::Use(decl, args)),
    }
}

/// A use of a query. One whose body is a parameter gives the argument.
pub fn use_of(alloc: Global, bodies: &Bodies, decl: u32, args: List<Term>) -> Result<Body, Memory>
    ensures { IfOk result (λ made. IsUse (saids_in bodies.now) (body_view made) decl
        (terms_view args)) }
{
    match bodies.body(decl) {
        Some(Body::Term(body)) => {
            let made = term_use(alloc, decl, body.get(), args)?;
            Ok(Body::Term(Boxed::new(alloc, made)?))
        }
        Some(Body::Claim(body)) => {
            let made = claim_use(alloc, decl, body.get(), args)?;
            Ok(Body::Claim(Boxed::new(alloc, made)?))
        }
        None => Err(Memory),
    }
}

/// Lets go all but the first elements.
fn keep<T: Drop>(items: &mut List<T>, n: u32)
    ensures { items.new ≡ take n items.old }
{
    while items.count() > n {
        items.pop();
    }
}

/// The element at a place. The others are let go.
fn taken<T: Drop>(items: List<T>, place: u32) -> Option<T>
    ensures { result ≡ slice_get items place }
{
    if items.count() <= place {
        return None;
    }
    let mut items = items;
    keep(&mut items, place + 1);
    items.pop()
}

/// The term at a place.
fn nth(terms: List<Term>, place: u32) -> Result<Term, Memory>
    ensures { IfOk result (λ term. option_map term_view (slice_get terms place) ≡ Some
        (term_view term)) }
{
    match taken(terms, place) {
        Some(term) => Ok(term),
        None => Err(Memory),
    }
}
