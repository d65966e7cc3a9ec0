//! Quantifiers, and what their variables have to be.
ghost use Rattle.std.specs.Prelude.{◌≡◌, Bool, Some, false, true, IfOk};
ghost use Rattle.rp_logic.specs.Formulas as fm;
ghost use Rattle.rp_logic.specs.Views.{formula_view, formulas_view};
ghost use Rattle.reshape.specs.Joined.{joined};
ghost use Rattle.crdt_enc.specs.FormulaFormulas as spec;
ghost use Rattle.formula_enc.specs.means.Guards.{by_set};
ghost use Rattle.formula_enc.specs.means.Signs as by_sign;
ghost use Rattle.formula_enc.specs.Settings.{place_view};

use crate::setting::Place;
use program_sigs::plus;
use query_enc::over_one;
use rp_logic::{Fml, Term};
use rp_value::{Boxed, List, Memory, Ty};
use std::alloc::Global;

/// The sort that a quantifier ranges over.
fn sort_of(over: Ty) -> Result<u32, Memory>
    ensures { IfOk result (λ n. n ≡ spec.sort_of over) }
{
    match over {
        Ty::Inv => Ok(1),
        Ty::Atom(n) => plus(2, n),
        Ty::Int => Ok(0),
        Ty::Str => Ok(0),
        Ty::Datatype(_) => Ok(0),
        Ty::Call => Ok(0),
        Ty::Operation => Ok(0),
        Ty::Info => Ok(0),
        Ty::Outcome => Ok(0),
    }
}

/// The set that a quantifier's variable has to be in: committed calls, or the invocations that exist.
fn set_of(at: Place, over: Ty) -> Option<u32>
    ensures { (sign : Bool) → by_set sign result ≡ spec.guard sign (place_view at) over }
{
    match over {
        Ty::Call => Some(at.calls),
        Ty::Inv => Some(at.invs),
        Ty::Int => None,
        Ty::Str => None,
        Ty::Atom(_) => None,
        Ty::Datatype(_) => None,
        Ty::Operation => None,
        Ty::Info => None,
        Ty::Outcome => None,
    }
}

/// The innermost variable is in the set, or isn't, and then the body.
#[tactic(auto, using(rp_logic::proofs::TermViews::term_views))]
fn with_guard(alloc: Global, sign: bool, set: u32, body: Boxed<Fml>) -> Result<List<Fml>, Memory>
    ensures { IfOk result (λ fs. formulas_view fs ≡ joined (by_set sign (Some set)) (fm.also_fm (formula_view body) fm.no_fm)) }
{
    let mut parts = List::new(alloc);
    parts.push(over_one(alloc, sign, set, Term::Var(0))?)?;
    parts.push(body.into_inner())?;
    Ok(parts)
}

/// For all that are in the set.
#[tactic(auto, using(rp_logic::proofs::FormulaViews::formula_views))]
fn each_under(alloc: Global, set: Option<u32>, body: Boxed<Fml>) -> Result<Boxed<Fml>, Memory>
    ensures { IfOk result (λ f. formula_view f ≡ spec.each_under (by_set false set) (formula_view body)) }
{
    match set {
        None => Ok(body),
        Some(set) => Boxed::new(alloc, Fml::Or(with_guard(alloc, false, set, body)?)),
    }
}

/// For some that is in the set.
#[tactic(auto, using(rp_logic::proofs::FormulaViews::formula_views))]
fn some_under(alloc: Global, set: Option<u32>, body: Boxed<Fml>) -> Result<Boxed<Fml>, Memory>
    ensures { IfOk result (λ f. formula_view f ≡ spec.some_under (by_set true set) (formula_view body)) }
{
    match set {
        None => Ok(body),
        Some(set) => Boxed::new(alloc, Fml::And(with_guard(alloc, true, set, body)?)),
    }
}

/// For all of the type.
#[tactic(auto, using(rp_logic::proofs::FormulaViews::formula_views))]
fn for_all(alloc: Global, at: Place, over: Ty, body: Boxed<Fml>) -> Result<Fml, Memory>
    ensures { IfOk result (λ f. formula_view f ≡ fm.All (spec.sort_of over) (spec.each_under (spec.guard false (place_view at) over) (formula_view body))) }
{
    let sort = sort_of(over)?;
    let inner = each_under(alloc, set_of(at, over), body)?;
    Ok(Fml::All(sort, inner))
}

/// For some of the type.
#[tactic(auto, using(rp_logic::proofs::FormulaViews::formula_views))]
fn for_some(alloc: Global, at: Place, over: Ty, body: Boxed<Fml>) -> Result<Fml, Memory>
    ensures { IfOk result (λ f. formula_view f ≡ fm.Ex (spec.sort_of over) (spec.some_under (spec.guard true (place_view at) over) (formula_view body))) }
{
    let sort = sort_of(over)?;
    let inner = some_under(alloc, set_of(at, over), body)?;
    Ok(Fml::Ex(sort, inner))
}

/// For all of the type, or for some.
pub fn quantified(
    alloc: Global,
    all: bool,
    at: Place,
    over: Ty,
    body: Boxed<Fml>,
) -> Result<Fml, Memory>
    ensures { IfOk result (λ f. formula_view f ≡ by_sign.quantified all (place_view at) over (formula_view body)) }
{
    if all {
        for_all(alloc, at, over, body)
    } else {
        for_some(alloc, at, over, body)
    }
}
