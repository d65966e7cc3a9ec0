//! A variable that a literal determines.
ghost use Rattle.std.specs.Prelude.{◌≡◌, IfOk, IsErrOf, Some, None};
ghost use Rattle.rp_logic.specs.Terms as tm;
ghost use Rattle.rp_logic.specs.Views.{term_view, terms_view};
ghost use Rattle.reshape.specs.Determining as spec;
ghost use Rattle.reshaped.specs.declared.missing.Missing.TheVariants as missing;
ghost use Rattle.reshaped.specs.Occurring as occurring;

use crate::missing::Missing;
use rp_logic::Term;
use rp_value::{Boxed, List, Memory};
use std::alloc::Global;

/// Whether the innermost variable stands in the term.
#[cycle(stands)]
#[tactic(auto, using(rp_logic::proofs::TermViews::term_views))]
pub fn stands(t: &Term) -> bool
    ensures { result ≡ occurring.stands (term_view t.now) }
{
    match t {
        Term::Var(n) => *n == 0,
        Term::Const(_) => false,
        Term::Fn(_, args) => stands_among(args.as_slice()),
        Term::Int(_) => false,
        Term::Str(_) => false,
        Term::Con(_, args) => stands_among(args.as_slice()),
        Term::Sel(_, _, u) => stands(u.get()),
        Term::Plus(u, _) => stands(u.get()),
    }
}

#[cycle(stands)]
#[tactic(auto, using(rp_logic::proofs::TermViews::term_views))]
fn stands_among(terms: &[Term]) -> bool
    ensures { result ≡ occurring.stands_among (terms_view terms.now) }
{
    for t in terms {
        if stands(t) {
            return true;
        }
    }
    false
}

/// The innermost variable as a selector term of `whole`, where `whole` equals the term.
#[cycle(found)]
#[tactic(auto, using(rp_logic::proofs::TermViews::term_views))]
pub fn found(alloc: Global, t: &Term, whole: &Term) -> Result<Boxed<Term>, Missing>
    ensures found { IfOk result (λ w. spec.found (term_view t.now) (term_view whole.now) ≡ Some (term_view w)) }
    ensures none { IsErrOf result missing.Untold → spec.found (term_view t.now) (term_view whole.now) ≡ None }
{
    match t {
        Term::Var(n) => {
            if *n == 0 {
                Ok(Boxed::new(alloc, whole.copy(alloc)?)?)
            } else {
                Err(Missing::Untold)
            }
        },
        Term::Const(_) => Err(Missing::Untold),
        Term::Fn(_, _) => Err(Missing::Untold),
        Term::Int(_) => Err(Missing::Untold),
        Term::Str(_) => Err(Missing::Untold),
        Term::Con(c, args) => found_among(alloc, args, *c, whole),
        Term::Sel(_, _, _) => Err(Missing::Untold),
        Term::Plus(_, _) => Err(Missing::Untold),
    }
}

/// By the first of the arguments of `whole` that has it.
#[cycle(found)]
#[tactic(auto, using(rp_logic::proofs::TermViews::term_views))]
fn found_among(
    alloc: Global,
    args: &List<Term>,
    con: u32,
    whole: &Term,
) -> Result<Boxed<Term>, Missing>
    ensures found { IfOk result (λ w. spec.found_among (terms_view args.now) con 0 (term_view whole.now) ≡ Some (term_view w)) }
    ensures none { IsErrOf result missing.Untold → spec.found_among (terms_view args.now) con 0 (term_view whole.now) ≡ None }
{
    for i in 0..args.count() {
        let part = selected(alloc, con, i, whole)?;
        let arg = args.get(i as usize);
        let selector = part.get();
        match found(alloc, arg, selector) {
            Ok(w) => return Ok(w),
            Err(Missing::Untold) => {},
            Err(Missing::Memory) => return Err(Missing::Memory),
        }
    }
    Err(Missing::Untold)
}

/// The i-th argument of the term where it is built with the constructor.
#[tactic(auto, using(rp_logic::proofs::TermViews::term_views))]
fn selected(alloc: Global, con: u32, i: u32, whole: &Term) -> Result<Boxed<Term>, Memory>
    ensures { IfOk result (λ t. term_view t ≡ tm.Sel con i (term_view whole.now)) }
{
    let copy = Boxed::new(alloc, whole.copy(alloc)?)?;
    Ok(Boxed::new(alloc, Term::Sel(con, i, copy))?)
}
