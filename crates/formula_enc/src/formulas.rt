//! The formulas of formulas. A sign says whether the formula is made or its dual, so that negations copy nothing.
ghost use Rattle.std.specs.Prelude.{◌≡◌, [], IfOk, OnOk, reverse};
ghost use Rattle.rp_lang.specs.ProgramView.{program_view};
ghost use Rattle.rp_lang.specs.Formulas.{Arms, also_arm};
ghost use Rattle.rp_lang.specs.Typing.{is_among};
ghost use Rattle.rp_lang.specs.Views as lang;
ghost use Rattle.rp_logic.specs.Formulas as fm;
ghost use Rattle.rp_logic.specs.Views.{term_view, formula_view, formulas_view};
ghost use Rattle.reshape.specs.Joined.{joined};
ghost use Rattle.crdt_enc.specs.FormulaFormulas as spec;
ghost use Rattle.formula_enc.specs.means.Signs as by_sign;
ghost use Rattle.formula_enc.specs.Settings.{place_view, around_view, closed_view};

use crate::atoms::{at_most, equal, fields_of, holds, is_built, less, precedes, same, visible};
use crate::bounds::Bounds;
use crate::guards::quantified;
use crate::setting::Setting;
use crate::signs::{joint, two};
use crate::terms::term_of;
use rp_lang::{Arm, Formula};
use rp_logic::{Fml, Term};
use rp_value::{Boxed, List, Memory};
use std::alloc::Global;

/// The constructor is one of those seen.
fn is_seen(con: u32, seen: &[u32]) -> bool
    ensures { result ≡ is_among con (reverse seen.now) }
{
    is_one_of(con, seen)
}

fn is_one_of(con: u32, cons: &[u32]) -> bool
    ensures { result ≡ is_among con cons.now }
{
    for other in cons {
        if con == *other {
            return true;
        }
    }
    false
}

/// The term is built with this constructor, and the body holds.
fn arm(
    alloc: Global,
    s: &Setting,
    sign: bool,
    con: u32,
    on: &Term,
    body: Boxed<Fml>,
) -> Result<Fml, Memory>
    ensures { IfOk result (λ f. formula_view f ≡ by_sign.joint sign (fm.also_fm (by_sign.signed sign (spec.is_built (program_view s.now.program.now) con (term_view on.now))) (fm.also_fm (formula_view body) fm.no_fm))) }
{
    let built = Boxed::new(alloc, is_built(alloc, s.program, sign, con, on)?)?;
    two(alloc, sign, built, body)
}

/// The formula by its form, or its dual.
#[cycle(formula_of)]
#[tactic(auto, using(rp_lang::proofs::FormulaViews::formula_views, crate::proofs::BoundsViews::bounds_views, crate::proofs::SignLaws::signs))]
pub fn formula_of(
    alloc: Global,
    s: &Setting,
    bounds: &Bounds,
    sign: bool,
    f: &Formula,
) -> Result<Fml, Memory>
    ensures { IfOk result (λ g. formula_view g ≡ by_sign.signed sign (spec.formula_of (program_view s.now.program.now) (place_view s.now.at) (around_view s.now bounds.now) (lang.formula_view f.now))) }
{
    match f {
        Formula::And(parts) => {
            let made = formulas_of(alloc, s, bounds, sign, parts.as_slice())?;
            Ok(joint(sign, made))
        }
        Formula::Or(parts) => {
            let made = formulas_of(alloc, s, bounds, sign, parts.as_slice())?;
            Ok(joint(!sign, made))
        }
        Formula::Not(part) => formula_of(alloc, s, bounds, !sign, part.get()),
        Formula::Implies(a, b) => {
            let left = Boxed::new(alloc, formula_of(alloc, s, bounds, !sign, a.get())?)?;
            let right = Boxed::new(alloc, formula_of(alloc, s, bounds, sign, b.get())?)?;
            two(alloc, !sign, left, right)
        }
        Formula::All(over, body) => {
            let inner = Bounds::Quantified(*over, &*bounds);
            let made = Boxed::new(alloc, formula_of(alloc, s, &inner, sign, body.get())?)?;
            quantified(alloc, sign, s.at, *over, made)
        }
        Formula::Any(over, body) => {
            let inner = Bounds::Quantified(*over, &*bounds);
            let made = Boxed::new(alloc, formula_of(alloc, s, &inner, sign, body.get())?)?;
            quantified(alloc, !sign, s.at, *over, made)
        }
        Formula::Holds(e) => holds(alloc, s, bounds, sign, e),
        Formula::Equal(a, b) => equal(alloc, s, bounds, sign, a, b),
        Formula::Less(a, b) => less(alloc, s, bounds, sign, a, b),
        Formula::AtMost(a, b) => at_most(alloc, s, bounds, sign, a, b),
        Formula::Visible(call) => visible(alloc, s, bounds, sign, call),
        Formula::Before(a, b) => precedes(alloc, s, bounds, sign, a, b),
        Formula::Same(a, b) => same(alloc, s, bounds, sign, a, b),
        Formula::Match(on, arms) => {
            let on = Boxed::new(alloc, term_of(alloc, s, bounds, on)?)?;
            let made = arms_of(alloc, s, bounds, sign, on.get(), arms.as_slice())?;
            Ok(joint(!sign, made))
        }
    }
}

#[cycle(formula_of)]
#[tactic(auto)]
fn formulas_of(
    alloc: Global,
    s: &Setting,
    bounds: &Bounds,
    sign: bool,
    parts: &[Formula],
) -> Result<List<Fml>, Memory>
    ensures { IfOk result (λ fs. formulas_view fs ≡ by_sign.signed_all sign (spec.formulas_of (program_view s.now.program.now) (place_view s.now.at) (around_view s.now bounds.now) (lang.formulas_view parts.now))) }
{
    let mut made = List::new(alloc);
    for part in parts {
        made.push(formula_of(alloc, s, bounds, sign, part)?)?;
    }
    Ok(made)
}

/// The formula of an arm.
#[cycle(formula_of)]
#[tactic(auto, using(crate::proofs::BoundsViews::bounds_views))]
fn arm_of(
    alloc: Global,
    s: &Setting,
    bounds: &Bounds,
    sign: bool,
    on: &Term,
    con: u32,
    body: &Formula,
) -> Result<Fml, Memory>
    ensures { IfOk result (λ g. formula_view g ≡ by_sign.joint sign (fm.also_fm (by_sign.signed sign (spec.is_built (program_view s.now.program.now) con (term_view on.now))) (fm.also_fm (by_sign.signed sign (spec.formula_of (program_view s.now.program.now) (place_view s.now.at) (spec.under_arm (program_view s.now.program.now) con (term_view on.now) (around_view s.now bounds.now)) (lang.formula_view body.now))) fm.no_fm))) }
{
    let inner = Bounds::Fields(con, fields_of(s.program, con), &*on, &*bounds);
    let made = Boxed::new(alloc, formula_of(alloc, s, &inner, sign, body)?)?;
    arm(alloc, s, sign, con, on, made)
}

/// The formula of an arm, whose constructor is seen from then on. One that was seen stands for nothing.
#[cycle(formula_of)]
#[tactic(auto)]
fn push_arm(
    alloc: Global,
    s: &Setting,
    bounds: &Bounds,
    sign: bool,
    on: &Term,
    made: &mut List<Fml>,
    seen: &mut List<u32>,
    arm: &Arm,
) -> Result<(), Memory>
    ensures { OnOk result ((rest : Arms) → joined (formulas_view made.new) (by_sign.signed_all sign (spec.arms_of (program_view s.now.program.now) (place_view s.now.at) (around_view s.now bounds.now) (term_view on.now) (reverse seen.new) rest))
        ≡ joined (formulas_view made.old) (by_sign.signed_all sign (spec.arms_of (program_view s.now.program.now) (place_view s.now.at) (around_view s.now bounds.now) (term_view on.now) (reverse seen.old) (also_arm arm.now.con (lang.formula_view arm.now.body) rest)))) }
{
    if is_seen(arm.con, seen.as_slice()) {
        return Ok(());
    }
    made.push(arm_of(alloc, s, bounds, sign, on, arm.con, &arm.body)?)?;
    seen.push(arm.con)?;
    Ok(())
}

/// The formulas of the arms, of each constructor the first.
#[cycle(formula_of)]
#[tactic(auto)]
fn arms_of(
    alloc: Global,
    s: &Setting,
    bounds: &Bounds,
    sign: bool,
    on: &Term,
    arms: &[Arm],
) -> Result<List<Fml>, Memory>
    ensures { IfOk result (λ fs. formulas_view fs ≡ by_sign.signed_all sign (spec.arms_of (program_view s.now.program.now) (place_view s.now.at) (around_view s.now bounds.now) (term_view on.now) [] (lang.arms_view arms.now))) }
{
    let mut made = List::new(alloc);
    let mut seen = List::new(alloc);
    for arm in arms {
        push_arm(alloc, s, bounds, sign, on, &mut made, &mut seen, arm)?;
    }
    Ok(made)
}

/// The formula of logic for a formula of the program, around which no variable stands.
pub fn encode_formula(alloc: Global, s: &Setting, f: &Formula) -> Result<Boxed<Fml>, Memory>
    ensures { IfOk result (λ g. formula_view g ≡ spec.formula_of (program_view s.now.program.now) (place_view s.now.at) (closed_view s.now) (lang.formula_view f.now)) }
{
    let closed = Bounds::Closed;
    let made = formula_of(alloc, s, &closed, true, f)?;
    Ok(Boxed::new(alloc, made)?)
}
