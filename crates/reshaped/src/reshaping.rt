//! The pass.
ghost use Rattle.std.specs.Prelude.{◌≡◌, IfOk, IsErrOf, OnOk, Some, None, map, [], ◌∷◌, ◌++◌, false};
ghost use Rattle.rp_logic.specs.Formulas as fm;
ghost use Rattle.rp_logic.specs.Dual.{dual};
ghost use Rattle.rp_logic.specs.Filling.{filled_in, MeansSame};
ghost use Rattle.rp_logic.specs.Signatures.{Signature};
ghost use Rattle.rp_logic.specs.Sorted.{IsWellSorted};
ghost use Rattle.rp_logic.specs.Views.{formula_view, formulas_view};
ghost use Rattle.reshape.specs.Eliminating.{eliminated};
ghost use Rattle.reshaped.specs.Fillings.{innermost};
ghost use Rattle.reshaped.specs.Clauses as clauses;
ghost use Rattle.reshaped.specs.Shapes as spec;
ghost use Rattle.reshaped.specs.declared.missing.Missing.TheVariants as missing;

use crate::clauses::{clause_of, one};
use crate::eliminating::eliminate;
use crate::filling::{Filling, fill, fill_all};
use crate::missing::Missing;
use crate::terms::one_more;
use rp_logic::{Fml, negate};
use rp_value::{Boxed, List, Memory};
use std::alloc::Global;

/// A disjunction without its n-th variable.
#[tactic(auto, using(rp_logic::proofs::FormulaViews::formula_views))]
fn parts_without(alloc: Global, n: u32, parts: &List<Fml>) -> Result<Boxed<Fml>, Missing>
    ensures found { IfOk result (λ g. spec.without n (fm.Or (formulas_view parts.now)) ≡ Some (formula_view g)) }
    ensures none { IsErrOf result missing.Untold → spec.without n (fm.Or (formulas_view parts.now)) ≡ None }
{
    let turned = fill_all(alloc, &Filling::Innermost(n), parts.as_slice())?;
    eliminate(alloc, &turned)
}

/// A formula that is no disjunction without its n-th variable.
#[tactic(auto, using(rp_logic::proofs::FormulaViews::formula_views))]
fn one_without(alloc: Global, n: u32, f: &Fml) -> Result<Boxed<Fml>, Missing>
    ensures found { IfOk result (λ g. eliminated (fm.also_fm (filled_in (innermost n) (formula_view f.now)) fm.no_fm) ≡ Some (formula_view g)) }
    ensures none { IsErrOf result missing.Untold → eliminated (fm.also_fm (filled_in (innermost n) (formula_view f.now)) fm.no_fm) ≡ None }
{
    let turned = one(alloc, fill(alloc, &Filling::Innermost(n), 0, f)?)?;
    eliminate(alloc, &turned)
}

/// The body without its n-th variable, which an `all` binds, where some part tells it.
#[tactic(auto, using(rp_logic::proofs::FormulaViews::formula_views))]
fn without(alloc: Global, n: u32, f: &Fml) -> Result<Boxed<Fml>, Missing>
    ensures found { IfOk result (λ g. spec.without n (formula_view f.now) ≡ Some (formula_view g)) }
    ensures none { IsErrOf result missing.Untold → spec.without n (formula_view f.now) ≡ None }
{
    match f {
        Fml::And(_) => one_without(alloc, n, f),
        Fml::Or(parts) => parts_without(alloc, n, parts),
        Fml::All(s, body) => {
            let made = without(alloc, one_more(n)?, body.get())?;
            Ok(Boxed::new(alloc, Fml::All(*s, made))?)
        },
        Fml::Ex(_, _) => one_without(alloc, n, f),
        Fml::Lit(_, _) => one_without(alloc, n, f),
    }
}

/// `all` of the body, or where its variable is told the body without it.
#[tactic(auto, using(rp_logic::proofs::FormulaViews::formula_views))]
fn universal(alloc: Global, s: u32, body: Boxed<Fml>) -> Result<Boxed<Fml>, Memory>
    ensures { IfOk result (λ g. formula_view g ≡ spec.universal s (formula_view body)) }
{
    match without(alloc, 0, body.get()) {
        Ok(made) => Ok(made),
        Err(Missing::Untold) => Ok(Boxed::new(alloc, Fml::All(s, body))?),
        Err(Missing::Memory) => Err(Memory),
    }
}

fn denied(alloc: Global, f: &Fml) -> Result<Boxed<Fml>, Memory>
    ensures { IfOk result (λ g. formula_view g ≡ dual (formula_view f.now)) }
{
    Ok(Boxed::new(alloc, negate(alloc, f)?)?)
}

/// `some` of the body, or where its variable is told the body without it.
fn existential(alloc: Global, s: u32, body: &Fml) -> Result<Boxed<Fml>, Memory>
    ensures { IfOk result (λ g. formula_view g ≡ dual (spec.universal s (dual (formula_view body.now)))) }
{
    let denial = denied(alloc, body)?;
    let made = universal(alloc, s, denial)?;
    denied(alloc, made.get())
}

/// All of the parts, the `some`s of each in front. They are the duals of these.
fn conjunction(alloc: Global, duals: &List<Fml>) -> Result<Boxed<Fml>, Memory>
    ensures { IfOk result (λ g. formula_view g ≡ dual (clauses.clause (formulas_view duals.now))) }
{
    let made = clause_of(alloc, duals)?;
    denied(alloc, made.get())
}

/// The formula, put in a list.
fn push<T: Drop>(items: &mut List<T>, item: Boxed<T>) -> Result<(), Memory>
    ensures { OnOk result (items.new ≡ items.old ++ item ∷ []) }
{
    items.push(item.into_inner())
}

/// Each disjunction a clause, each told variable gone.
#[cycle(shape)]
#[tactic(auto, using(rp_logic::proofs::FormulaViews::formula_views))]
fn shape(alloc: Global, f: &Fml) -> Result<Boxed<Fml>, Memory>
    ensures { IfOk result (λ g. formula_view g ≡ spec.shaped (formula_view f.now)) }
{
    match f {
        Fml::And(parts) => {
            let made = shape_denied(alloc, parts.as_slice())?;
            conjunction(alloc, &made)
        },
        Fml::Or(parts) => {
            let made = shape_each(alloc, parts.as_slice())?;
            clause_of(alloc, &made)
        },
        Fml::All(s, body) => {
            let made = shape(alloc, body.get())?;
            universal(alloc, *s, made)
        },
        Fml::Ex(s, body) => {
            let made = shape(alloc, body.get())?;
            existential(alloc, *s, made.get())
        },
        Fml::Lit(_, _) => Ok(Boxed::new(alloc, f.copy(alloc)?)?),
    }
}

#[cycle(shape)]
#[tactic(auto, using(rp_logic::proofs::FormulaViews::formula_views))]
fn shape_each(alloc: Global, formulas: &[Fml]) -> Result<List<Fml>, Memory>
    ensures { IfOk result (λ gs. map formula_view gs ≡ map (λ f. spec.shaped (formula_view f)) formulas.now) }
{
    let mut made = List::new(alloc);
    for f in formulas {
        push(&mut made, shape(alloc, f)?)?;
    }
    Ok(made)
}

/// The duals of what each becomes.
#[cycle(shape)]
#[tactic(auto, using(rp_logic::proofs::FormulaViews::formula_views))]
fn shape_denied(alloc: Global, formulas: &[Fml]) -> Result<List<Fml>, Memory>
    ensures { IfOk result (λ gs. map formula_view gs ≡ map (λ f. dual (spec.shaped (formula_view f))) formulas.now) }
{
    let mut made = List::new(alloc);
    for f in formulas {
        let shaped = shape(alloc, f)?;
        made.push(negate(alloc, shaped.get())?)?;
    }
    Ok(made)
}

#[cycle(is_quantified)]
#[tactic(auto, using(rp_logic::proofs::FormulaViews::formula_views))]
fn is_quantified(f: &Fml) -> bool
    ensures { result ≡ spec.is_quantified (formula_view f.now) }
{
    match f {
        Fml::And(parts) => are_quantified(parts.as_slice()),
        Fml::Or(parts) => are_quantified(parts.as_slice()),
        Fml::All(_, _) => true,
        Fml::Ex(_, _) => true,
        Fml::Lit(_, _) => false,
    }
}

#[cycle(is_quantified)]
#[tactic(auto, using(rp_logic::proofs::FormulaViews::formula_views))]
fn are_quantified(formulas: &[Fml]) -> bool
    ensures { result ≡ spec.are_quantified (formulas_view formulas.now) }
{
    for f in formulas {
        if is_quantified(f) {
            return true;
        }
    }
    false
}

/// The shape of a formula that has quantifiers, and else the formula.
fn turn(alloc: Global, f: &Fml) -> Result<Boxed<Fml>, Memory>
    ensures { IfOk result (λ g. formula_view g ≡ spec.reshaped (formula_view f.now)) }
{
    if is_quantified(f) {
        shape(alloc, f)
    } else {
        Ok(Boxed::new(alloc, f.copy(alloc)?)?)
    }
}

/// The formula in the shape that a search wants: the `all`s of a disjunction in front and its parts flat, likewise the `some`s
/// of a conjunction, and no quantifier whose variable a literal determines. A formula without quantifiers stays as it is.
pub fn reshape(alloc: Global, f: &Fml) -> Result<Boxed<Fml>, Memory>
    ensures shape { IfOk result (λ g. formula_view g ≡ spec.reshaped (formula_view f.now)) }
    ensures keeps { (S : Signature) → IsWellSorted S (formula_view f.now)
        → IfOk result (λ g. MeansSame S [] [] (formula_view g) (formula_view f.now) × IsWellSorted S (formula_view g)) }
    ensures plain { spec.is_quantified (formula_view f.now) ≡ false → IfOk result (λ g. formula_view g ≡ formula_view f.now) }
{
    let made = turn(alloc, f)?;
    Ok(made)
}
