//! Lists of formulas.
ghost use Rattle.std.specs.Prelude.{◌≡◌, ◌++◌, IfOk, OnOk, map};
ghost use Rattle.rp_logic.specs.Dual.{dual};
ghost use Rattle.rp_logic.specs.Views.{formula_view, formulas_view};
ghost use Rattle.crdt_enc.specs.Builders as spec;

use rp_logic::{Fml, negate};
use rp_value::{List, Memory};
use std::alloc::Global;

/// Equal formulas.
pub fn push_copies(alloc: Global, out: &mut List<Fml>, fs: &[Fml]) -> Result<(), Memory>
    ensures { OnOk result (out.new ≡ out.old ++ fs.now) }
{
    for f in fs {
        out.push(f.copy(alloc)?)?;
    }
    Ok(())
}

/// The duals of the formulas.
pub fn push_duals(alloc: Global, out: &mut List<Fml>, fs: &[Fml]) -> Result<(), Memory>
    ensures { OnOk result (map formula_view out.new ≡ map formula_view out.old ++ map (λ f. dual (formula_view f)) fs.now) }
{
    for f in fs {
        out.push(negate(alloc, f)?)?;
    }
    Ok(())
}

/// All of the formulas. One formula stands for itself.
#[tactic(auto, using(rp_logic::proofs::FormulaViews::formula_views))]
pub fn all_of(fs: List<Fml>) -> Fml
    ensures { formula_view result ≡ spec.all_of (formulas_view fs) }
{
    let mut parts = fs;
    if parts.len() == 1 {
        match parts.pop() {
            Some(f) => f,
            None => Fml::And(parts),
        }
    } else {
        Fml::And(parts)
    }
}

/// Any of the formulas. One formula stands for itself.
#[tactic(auto, using(rp_logic::proofs::FormulaViews::formula_views))]
pub fn any_of(fs: List<Fml>) -> Fml
    ensures { formula_view result ≡ spec.any_of (formulas_view fs) }
{
    let mut parts = fs;
    if parts.len() == 1 {
        match parts.pop() {
            Some(f) => f,
            None => Fml::Or(parts),
        }
    } else {
        Fml::Or(parts)
    }
}
