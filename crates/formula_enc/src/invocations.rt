//! Invocations one before the other.
ghost use Rattle.std.specs.Prelude.{◌≡◌, IfOk, OnOk};
ghost use Rattle.rp_logic.specs.Filling.{raised};
ghost use Rattle.rp_logic.specs.Formulas as fm;
ghost use Rattle.rp_logic.specs.Terms as tm;
ghost use Rattle.rp_logic.specs.Views.{term_view, formula_view, formulas_view};
ghost use Rattle.reshape.specs.Joined.{joined};
ghost use Rattle.rp_symbols.specs.Numbers.{origin_fn};
ghost use Rattle.crdt_enc.specs.Builders as builders;
ghost use Rattle.crdt_enc.specs.FormulaFormulas as spec;
ghost use Rattle.formula_enc.specs.means.Orders as order;
ghost use Rattle.formula_enc.specs.Settings.{place_view};

use crate::setting::Place;
use query_enc::{applied, is_before, over_one, raise};
use rp_logic::{Atom, Fml, Term};
use rp_value::{Boxed, List, Memory};
use std::alloc::Global;

/// The call of this variable is of the invocation, or isn't. The invocation stands outside of k quantifiers.
#[tactic(auto, using(rp_logic::proofs::FormulaViews::formula_views, rp_logic::proofs::TermViews::term_views))]
fn origin_is(alloc: Global, sign: bool, call: u32, inv: &Term, k: u32) -> Result<Fml, Memory>
    ensures { IfOk result (λ f. formula_view f ≡ fm.Lit sign (tm.Equal (builders.applied origin_fn (tm.Var call)) (raised k (term_view inv.now)))) }
{
    let origin = Boxed::new(alloc, applied(alloc, 1, Term::Var(call))?)?;
    let made = raise(alloc, k, inv)?;
    Ok(Fml::Lit(sign, Atom::Equal(origin.into_inner(), made)))
}

/// The variable is a committed call of the invocation.
#[tactic(auto, using(rp_logic::proofs::TermViews::term_views, query_enc::proofs::Joins::joins))]
fn push_done_by(
    alloc: Global,
    out: &mut List<Fml>,
    sign: bool,
    at: Place,
    call: u32,
    inv: &Term,
    k: u32,
) -> Result<(), Memory>
    ensures { OnOk result (formulas_view out.new ≡ joined (formulas_view out.old) (spec.done_by sign (place_view at) (tm.Var call) (raised k (term_view inv.now)))) }
{
    out.push(over_one(alloc, sign, at.calls, Term::Var(call))?)?;
    out.push(origin_is(alloc, sign, call, inv, k)?)?;
    Ok(())
}

/// Some committed call is of the invocation.
#[tactic(auto, using(rp_logic::proofs::FormulaViews::formula_views, query_enc::proofs::Joins::joins))]
fn does_one(alloc: Global, at: Place, inv: &Term) -> Result<Fml, Memory>
    ensures { IfOk result (λ f. formula_view f ≡ spec.does_one (place_view at) (term_view inv.now)) }
{
    let mut parts = List::new(alloc);
    push_done_by(alloc, &mut parts, true, at, 0, inv, 1)?;
    let body = Boxed::new(alloc, Fml::And(parts))?;
    Ok(Fml::Ex(0, body))
}

/// Each call of the first is before each of the other.
#[tactic(auto, using(rp_logic::proofs::FormulaViews::formula_views, query_enc::proofs::Joins::joins))]
fn calls_before(alloc: Global, at: Place, i: &Term, j: &Term) -> Result<Fml, Memory>
    ensures { IfOk result (λ f. formula_view f ≡ order.calls_before (place_view at) (term_view i.now) (term_view j.now)) }
{
    let mut parts = List::new(alloc);
    push_done_by(alloc, &mut parts, false, at, 1, i, 2)?;
    push_done_by(alloc, &mut parts, false, at, 0, j, 2)?;
    parts.push(is_before(alloc, true, 1, 0)?)?;
    let body = Boxed::new(alloc, Fml::Or(parts))?;
    let inner = Boxed::new(alloc, Fml::All(0, body))?;
    Ok(Fml::All(0, inner))
}

/// Both have a committed call, and each of the first is before each of the other.
#[tactic(auto, using(rp_logic::proofs::FormulaViews::formula_views, query_enc::proofs::Joins::joins))]
pub fn inv_before(alloc: Global, at: Place, i: &Term, j: &Term) -> Result<Fml, Memory>
    ensures { IfOk result (λ f. formula_view f ≡ spec.inv_before (place_view at) (term_view i.now) (term_view j.now)) }
{
    let mut parts = List::new(alloc);
    parts.push(does_one(alloc, at, i)?)?;
    parts.push(does_one(alloc, at, j)?)?;
    parts.push(calls_before(alloc, at, i, j)?)?;
    Ok(Fml::And(parts))
}
