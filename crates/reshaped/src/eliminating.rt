//! Parts of a disjunction without a variable that one of them tells.
ghost use Rattle.std.specs.Prelude.{◌≡◌, IfOk, IsErrOf, Some, None, false};
ghost use Rattle.std.specs.Option.{option_or};
ghost use Rattle.rp_logic.specs.Views.{term_view, atom_view, formula_view, formulas_view};
ghost use Rattle.rp_logic.specs.Formulas as fm;
ghost use Rattle.reshape.specs.Eliminating as spec;
ghost use Rattle.reshaped.specs.declared.missing.Missing.TheVariants as missing;

use crate::determining::{found, stands};
use crate::filling::{Filling, fill_all};
use crate::missing::Missing;
use crate::terms::lower;
use rp_logic::{Atom, Fml, Term};
use rp_value::{Boxed, List};
use std::alloc::Global;

/// What the innermost variable is where the two are equal, by the second.
fn told(alloc: Global, t: &Term, b: &Term) -> Result<Boxed<Term>, Missing>
    ensures found { IfOk result (λ w. spec.told (term_view t.now) (term_view b.now) ≡ Some (term_view w)) }
    ensures none { IsErrOf result missing.Untold → spec.told (term_view t.now) (term_view b.now) ≡ None }
{
    if stands(t) {
        return Err(Missing::Untold);
    }
    let whole = lower(alloc, t)?;
    found(alloc, b, whole.get())
}

/// By the second, or else by the first.
fn told_by_either(alloc: Global, a: &Term, b: &Term) -> Result<Boxed<Term>, Missing>
    ensures found { IfOk result (λ w. option_or (spec.told (term_view a.now) (term_view b.now)) (spec.told (term_view b.now) (term_view a.now)) ≡ Some (term_view w)) }
    ensures none { IsErrOf result missing.Untold → option_or (spec.told (term_view a.now) (term_view b.now)) (spec.told (term_view b.now) (term_view a.now)) ≡ None }
{
    match told(alloc, a, b) {
        Ok(w) => Ok(w),
        Err(Missing::Untold) => told(alloc, b, a),
        Err(Missing::Memory) => Err(Missing::Memory),
    }
}

/// By an atom that isn't to hold.
fn told_by_atom(alloc: Global, atom: &Atom) -> Result<Boxed<Term>, Missing>
    ensures found { IfOk result (λ w. spec.told_by (fm.Lit false (atom_view atom.now)) ≡ Some (term_view w)) }
    ensures none { IsErrOf result missing.Untold → spec.told_by (fm.Lit false (atom_view atom.now)) ≡ None }
{
    match atom {
        Atom::Equal(a, b) => told_by_either(alloc, a, b),
        Atom::Le { .. } => Err(Missing::Untold),
        Atom::Rel(_, _) => Err(Missing::Untold),
    }
}

/// By the formula, which is part of a disjunction.
#[tactic(auto, using(rp_logic::proofs::FormulaViews::formula_views))]
fn told_by(alloc: Global, f: &Fml) -> Result<Boxed<Term>, Missing>
    ensures found { IfOk result (λ w. spec.told_by (formula_view f.now) ≡ Some (term_view w)) }
    ensures none { IsErrOf result missing.Untold → spec.told_by (formula_view f.now) ≡ None }
{
    match f {
        Fml::And(_) => Err(Missing::Untold),
        Fml::Or(_) => Err(Missing::Untold),
        Fml::All(_, _) => Err(Missing::Untold),
        Fml::Ex(_, _) => Err(Missing::Untold),
        Fml::Lit(sign, atom) => {
            if *sign {
                Err(Missing::Untold)
            } else {
                told_by_atom(alloc, atom)
            }
        },
    }
}

/// By the first part that tells.
fn told_among(alloc: Global, parts: &[Fml]) -> Result<Boxed<Term>, Missing>
    ensures found { IfOk result (λ w. spec.told_among (formulas_view parts.now) ≡ Some (term_view w)) }
    ensures none { IsErrOf result missing.Untold → spec.told_among (formulas_view parts.now) ≡ None }
{
    for f in parts {
        match told_by(alloc, f) {
            Ok(w) => return Ok(w),
            Err(Missing::Untold) => {},
            Err(Missing::Memory) => return Err(Missing::Memory),
        }
    }
    Err(Missing::Untold)
}

/// The disjunction of the parts without their innermost variable, which an `all` binds, where some part tells it.
#[tactic(auto, using(rp_logic::proofs::FormulaViews::formula_views))]
pub fn eliminate(alloc: Global, parts: &List<Fml>) -> Result<Boxed<Fml>, Missing>
    ensures found { IfOk result (λ g. spec.eliminated (formulas_view parts.now) ≡ Some (formula_view g)) }
    ensures none { IsErrOf result missing.Untold → spec.eliminated (formulas_view parts.now) ≡ None }
{
    let what = Filling::Instead(told_among(alloc, parts.as_slice())?);
    let made = fill_all(alloc, &what, parts.as_slice())?;
    Ok(Boxed::new(alloc, Fml::Or(made))?)
}
