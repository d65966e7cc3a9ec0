//! Formulas or their duals, put together.
ghost use Rattle.std.specs.Prelude.{◌≡◌, IfOk};
ghost use Rattle.rp_logic.specs.Formulas as fm;
ghost use Rattle.rp_logic.specs.Views.{formula_view, formulas_view};
ghost use Rattle.formula_enc.specs.means.Signs as by_sign;

use rp_logic::{Fml, negate};
use rp_value::{Boxed, List, Memory};
use std::alloc::Global;

/// The formula, or its dual.
pub fn signed(alloc: Global, sign: bool, f: Boxed<Fml>) -> Result<Fml, Memory>
    ensures { IfOk result (λ g. formula_view g ≡ by_sign.signed sign (formula_view f)) }
{
    if sign {
        Ok(f.into_inner())
    } else {
        negate(alloc, f.get())
    }
}

/// All of the formulas, or any.
#[tactic(auto, using(rp_logic::proofs::FormulaViews::formula_views))]
pub fn joint(all: bool, parts: List<Fml>) -> Fml
    ensures { formula_view result ≡ by_sign.joint all (formulas_view parts) }
{
    if all { Fml::And(parts) } else { Fml::Or(parts) }
}

/// Both formulas, or one of them.
pub fn two(alloc: Global, all: bool, f: Boxed<Fml>, g: Boxed<Fml>) -> Result<Fml, Memory>
    ensures { IfOk result (λ h. formula_view h ≡ by_sign.joint all (fm.also_fm (formula_view f) (fm.also_fm (formula_view g) fm.no_fm))) }
{
    let mut parts = List::new(alloc);
    parts.push(f.into_inner())?;
    parts.push(g.into_inner())?;
    Ok(joint(all, parts))
}
