ghost use Rattle.std.specs.Prelude.{◌≡◌, IfOk, map};
ghost use Rattle.rp_logic.specs.Dual.{dual};
ghost use Rattle.rp_logic.specs.Truth.{IsDenial};
ghost use Rattle.rp_logic.specs.Views.{formula_view};

use crate::formula::Fml;
use rp_value::{Boxed, List, Memory};
use std::alloc::Global;

/// The dual formula, with the negation moved to the literals. It is true exactly where f isn't.
pub fn negate(alloc: Global, f: &Fml) -> Result<Fml, Memory>
    ensures dual { IfOk result (λ g. formula_view g ≡ dual (formula_view f.now)) }
    ensures denial { IfOk result (λ g. IsDenial (formula_view g) (formula_view f.now)) }
{
    dual_of(alloc, f)
}

#[cycle(dual)]
#[tactic(auto, using(crate::proofs::FormulaViews::formula_views))]
fn dual_of(alloc: Global, f: &Fml) -> Result<Fml, Memory>
    ensures { IfOk result (λ g. formula_view g ≡ dual (formula_view f.now)) }
{
    match f {
        Fml::And(parts) => Ok(Fml::Or(duals_of(alloc, parts.as_slice())?)),
        Fml::Or(parts) => Ok(Fml::And(duals_of(alloc, parts.as_slice())?)),
        Fml::All(sort, body) => Ok(Fml::Ex(*sort, Boxed::new(alloc, dual_of(alloc, body.get())?)?)),
        Fml::Ex(sort, body) => Ok(Fml::All(*sort, Boxed::new(alloc, dual_of(alloc, body.get())?)?)),
        Fml::Lit(sign, atom) => Ok(Fml::Lit(!*sign, atom.copy(alloc)?)),
    }
}

#[cycle(dual)]
#[tactic(auto, using(crate::proofs::FormulaViews::formula_views))]
fn duals_of(alloc: Global, formulas: &[Fml]) -> Result<List<Fml>, Memory>
    ensures { IfOk result (λ gs. map formula_view gs ≡ map (λ f. dual (formula_view f)) formulas.now) }
{
    let mut made = List::new(alloc);
    for f in formulas {
        made.push(dual_of(alloc, f)?)?;
    }
    Ok(made)
}
