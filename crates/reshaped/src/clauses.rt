//! Disjunctions as clauses, with their `all`s in front.
ghost use Rattle.std.specs.Prelude.{◌≡◌, ◌∷◌, ◌++◌, [], IfOk};
ghost use Rattle.rp_logic.specs.Formulas as fm;
ghost use Rattle.rp_logic.specs.Views.{formula_view, formulas_view};
ghost use Rattle.reshape.specs.Joined as joining;
ghost use Rattle.reshaped.specs.Clauses as spec;

use crate::filling::{Filling, fill, fill_all};
use rp_logic::{Fml, copy_formulas};
use rp_value::{Boxed, List, Memory};
use std::alloc::Global;

/// The formula alone.
pub fn one(alloc: Global, f: Fml) -> Result<List<Fml>, Memory>
    ensures { IfOk result (λ fs. fs ≡ f ∷ []) }
{
    let mut fs = List::new(alloc);
    fs.push(f)?;
    Ok(fs)
}

/// Copies of both.
fn appended(alloc: Global, fs: &[Fml], gs: &[Fml]) -> Result<List<Fml>, Memory>
    ensures { IfOk result (λ both. both ≡ fs.now ++ gs.now) }
{
    let mut both = copy_formulas(alloc, fs)?;
    for g in gs {
        both.push(g.copy(alloc)?)?;
    }
    Ok(both)
}

/// The disjunction of both.
#[tactic(auto, using(rp_logic::proofs::FormulaViews::formula_views, crate::proofs::WalkViews::joined_seen))]
fn joined(alloc: Global, fs: &[Fml], gs: &[Fml]) -> Result<Boxed<Fml>, Memory>
    ensures { IfOk result (λ h. formula_view h ≡ fm.Or (joining.joined (formulas_view fs.now) (formulas_view gs.now))) }
{
    let both = appended(alloc, fs, gs)?;
    Ok(Boxed::new(alloc, Fml::Or(both))?)
}

/// The parts, or a formula that is no disjunction.
fn joined_one(alloc: Global, fs: &[Fml], g: &Fml) -> Result<Boxed<Fml>, Memory>
    ensures { IfOk result (λ h. formula_view h ≡ fm.Or (joining.joined (formulas_view fs.now) (fm.also_fm (formula_view g.now) fm.no_fm))) }
{
    let single = one(alloc, g.copy(alloc)?)?;
    joined(alloc, fs, single.as_slice())
}

/// These parts or the formula, whose `all`s stand in front.
#[tactic(auto, using(rp_logic::proofs::FormulaViews::formula_views))]
fn beside(alloc: Global, fs: &[Fml], g: &Fml) -> Result<Boxed<Fml>, Memory>
    ensures { IfOk result (λ h. formula_view h ≡ spec.beside (formulas_view fs.now) (formula_view g.now)) }
{
    match g {
        Fml::And(_) => joined_one(alloc, fs, g),
        Fml::Or(gs) => joined(alloc, fs, gs.as_slice()),
        Fml::All(s, body) => {
            let outer = fill_all(alloc, &Filling::Behind, fs)?;
            let made = beside(alloc, outer.as_slice(), body.get())?;
            Ok(Boxed::new(alloc, Fml::All(*s, made))?)
        },
        Fml::Ex(_, _) => joined_one(alloc, fs, g),
        Fml::Lit(_, _) => joined_one(alloc, fs, g),
    }
}

/// A formula that is no disjunction, or the other, whose `all`s stand in front.
#[tactic(auto, using(rp_logic::proofs::FormulaViews::formula_views))]
fn beside_one(alloc: Global, f: &Fml, g: &Fml) -> Result<Boxed<Fml>, Memory>
    ensures { IfOk result (λ h. formula_view h ≡ spec.beside (fm.also_fm (formula_view f.now) fm.no_fm) (formula_view g.now)) }
{
    let single = one(alloc, f.copy(alloc)?)?;
    beside(alloc, single.as_slice(), g)
}

/// One or the other, the `all`s of both in front.
#[tactic(auto, using(rp_logic::proofs::FormulaViews::formula_views))]
fn either(alloc: Global, f: &Fml, g: &Fml) -> Result<Boxed<Fml>, Memory>
    ensures { IfOk result (λ h. formula_view h ≡ spec.either (formula_view f.now) (formula_view g.now)) }
{
    match f {
        Fml::And(_) => beside_one(alloc, f, g),
        Fml::Or(fs) => beside(alloc, fs.as_slice(), g),
        Fml::All(s, body) => {
            let outer = Boxed::new(alloc, fill(alloc, &Filling::Behind, 0, g)?)?;
            let made = either(alloc, body.get(), outer.get())?;
            Ok(Boxed::new(alloc, Fml::All(*s, made))?)
        },
        Fml::Ex(_, _) => beside_one(alloc, f, g),
        Fml::Lit(_, _) => beside_one(alloc, f, g),
    }
}

/// Any of the parts, the `all`s of each in front.
#[tactic(auto, using(rp_logic::proofs::FormulaViews::formula_views))]
fn clause(alloc: Global, parts: &[Fml]) -> Result<Boxed<Fml>, Memory>
    ensures { IfOk result (λ h. formula_view h ≡ spec.clause (formulas_view parts.now)) }
{
    let [first, rest @ ..] = parts else {
        return Ok(Boxed::new(alloc, Fml::Or(List::new(alloc)))?);
    };
    let others = clause(alloc, rest)?;
    either(alloc, first, others.get())
}

/// Any of the parts in the list.
pub fn clause_of(alloc: Global, parts: &List<Fml>) -> Result<Boxed<Fml>, Memory>
    ensures { IfOk result (λ h. formula_view h ≡ spec.clause (formulas_view parts.now)) }
{
    clause(alloc, parts.as_slice())
}
