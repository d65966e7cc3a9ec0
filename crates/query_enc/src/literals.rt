//! Literals, and terms with one function.
ghost use Rattle.std.specs.Prelude.{◌≡◌, IfOk};
ghost use Rattle.rp_logic.specs.Terms.{Var};
ghost use Rattle.rp_logic.specs.Views.{term_view, formula_view};
ghost use Rattle.crdt_enc.specs.Builders as spec;

use rp_logic::{Atom, Fml, Term};
use rp_value::{Boxed, List, Memory};
use std::alloc::Global;

/// The function at one term.
#[tactic(auto, using(rp_logic::proofs::TermViews::term_views))]
pub fn applied(alloc: Global, f: u32, t: Term) -> Result<Term, Memory>
    ensures { IfOk result (λ made. term_view made ≡ spec.applied f (term_view t)) }
{
    let mut args = List::new(alloc);
    args.push(t)?;
    Ok(Term::Fn(f, args))
}

/// The relation holds of the term, or doesn't.
#[tactic(auto, using(rp_logic::proofs::FormulaViews::formula_views))]
pub fn over_one(alloc: Global, sign: bool, r: u32, t: Term) -> Result<Fml, Memory>
    ensures { IfOk result (λ f. formula_view f ≡ spec.over_one sign r (term_view t)) }
{
    let mut args = List::new(alloc);
    args.push(t)?;
    Ok(Fml::Lit(sign, Atom::Rel(r, args)))
}

/// The relation holds of the two terms, or doesn't.
#[tactic(auto, using(rp_logic::proofs::FormulaViews::formula_views))]
pub fn over_two(
    alloc: Global,
    sign: bool,
    r: u32,
    t: Boxed<Term>,
    u: Boxed<Term>,
) -> Result<Fml, Memory>
    ensures { IfOk result (λ f. formula_view f ≡ spec.over_two sign r (term_view t) (term_view u)) }
{
    let mut args = List::new(alloc);
    args.push(t.into_inner())?;
    args.push(u.into_inner())?;
    Ok(Fml::Lit(sign, Atom::Rel(r, args)))
}

/// The first variable is before the second, or isn't.
#[tactic(auto, using(rp_logic::proofs::TermViews::term_views))]
pub fn is_before(alloc: Global, sign: bool, m: u32, n: u32) -> Result<Fml, Memory>
    ensures { IfOk result (λ f. formula_view f ≡ spec.is_before sign (Var m) (Var n)) }
{
    let first = Boxed::new(alloc, Term::Var(m))?;
    let second = Boxed::new(alloc, Term::Var(n))?;
    over_two(alloc, sign, 4, first, second)
}
