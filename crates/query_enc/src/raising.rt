//! Terms under more quantifiers.
ghost use Rattle.std.specs.Prelude.{◌≡◌, IfOk, map};
ghost use Rattle.rp_logic.specs.Filling.{raised};
ghost use Rattle.rp_logic.specs.Views.{term_view};

use program_sigs::plus;
use rp_logic::Term;
use rp_value::{Boxed, List, Memory};
use std::alloc::Global;

/// The term where k more variables are open, which are nearer.
#[cycle(raise)]
#[tactic(auto, using(rp_logic::proofs::TermViews::term_views))]
pub fn raise(alloc: Global, k: u32, t: &Term) -> Result<Term, Memory>
    ensures { IfOk result (λ made. term_view made ≡ raised k (term_view t.now)) }
{
    match t {
        Term::Var(n) => Ok(Term::Var(plus(*n, k)?)),
        Term::Const(c) => Ok(Term::Const(*c)),
        Term::Fn(f, args) => Ok(Term::Fn(*f, raise_each(alloc, k, args.as_slice())?)),
        Term::Int(n) => Ok(Term::Int(*n)),
        Term::Str(_) => t.copy(alloc),
        Term::Con(c, args) => Ok(Term::Con(*c, raise_each(alloc, k, args.as_slice())?)),
        Term::Sel(c, i, u) => {
            let made = Boxed::new(alloc, raise(alloc, k, u.get())?)?;
            Ok(Term::Sel(*c, *i, made))
        }
        Term::Plus(u, n) => {
            let made = Boxed::new(alloc, raise(alloc, k, u.get())?)?;
            Ok(Term::Plus(made, *n))
        }
    }
}

#[cycle(raise)]
#[tactic(auto, using(rp_logic::proofs::TermViews::term_views))]
fn raise_each(alloc: Global, k: u32, terms: &[Term]) -> Result<List<Term>, Memory>
    ensures { IfOk result (λ us. map term_view us ≡ map (λ u. raised k (term_view u)) terms.now) }
{
    let mut made = List::new(alloc);
    for u in terms {
        made.push(raise(alloc, k, u)?)?;
    }
    Ok(made)
}
