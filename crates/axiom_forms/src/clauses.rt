//! Clauses under quantifiers.
ghost use Rattle.std.specs.Prelude.{◌≡◌, ◌≤◌, IfOk, OnOk, [], ◌∷◌, ◌++◌, map, length};
ghost use Rattle.rp_logic.specs.Formulas as fm;
ghost use Rattle.rp_logic.specs.Views.{formula_view, formulas_view, fms_of};
ghost use Rattle.axiom_forms.specs.Literals as spec;

use crate::literal::{Literal, formula};
use rp_logic::Fml;
use rp_value::{Boxed, List, Memory};
use std::alloc::Global;

/// The formulas of the literals.
fn formulas(alloc: Global, literals: &[Literal]) -> Result<List<Fml>, Memory>
    ensures { IfOk result (λ fs. map formula_view fs ≡ map spec.literal_view literals.now) }
{
    let mut fs = List::new(alloc);
    for literal in literals {
        fs.push(formula(alloc, *literal)?)?;
    }
    Ok(fs)
}

/// The clause of the literals. One literal stands for itself.
#[tactic(auto, using(rp_logic::proofs::FormulaViews::formula_views))]
pub fn clause(alloc: Global, literals: &[Literal]) -> Result<Boxed<Fml>, Memory>
    ensures { IfOk result (λ f. formula_view f ≡ spec.clause_of literals.now) }
{
    if literals.len() == 1 {
        Ok(Boxed::new(alloc, formula(alloc, literals[0])?)?)
    } else {
        Ok(Boxed::new(alloc, Fml::Or(formulas(alloc, literals)?))?)
    }
}

/// So many quantifiers of the sort before the formula.
#[tactic(auto, using(rp_logic::proofs::FormulaViews::formula_views))]
pub fn alls(alloc: Global, sort: u32, n: u32, f: Boxed<Fml>) -> Result<Boxed<Fml>, Memory>
    ensures { IfOk result (λ g. formula_view g ≡ spec.alls sort n (formula_view f)) }
{
    let mut made = f;
    for _i in 0..n {
        made = Boxed::new(alloc, Fml::All(sort, made))?;
    }
    Ok(made)
}

/// One formula more.
pub fn push<T: Drop>(items: &mut List<T>, item: Boxed<T>) -> Result<(), Memory>
    ensures { OnOk result (items.new ≡ items.old ++ item ∷ []) }
{
    items.push(item.into_inner())
}

/// One axiom more.
pub fn push_formula(axioms: &mut List<Fml>, f: Boxed<Fml>) -> Result<(), Memory>
    ensures { OnOk result (map formula_view axioms.new ≡ map formula_view axioms.old ++ formula_view f ∷ []) }
{
    push(axioms, f)?;
    Ok(())
}

/// Of each so many elements of the sort the clause of the literals.
pub fn push_each(
    alloc: Global,
    axioms: &mut List<Fml>,
    sort: u32,
    n: u32,
    literals: &[Literal],
) -> Result<(), Memory>
    ensures { OnOk result (map formula_view axioms.new ≡ map formula_view axioms.old ++ spec.alls sort n (spec.clause_of literals.now) ∷ []) }
{
    let f = clause(alloc, literals)?;
    push_formula(axioms, alls(alloc, sort, n, f)?)
}
