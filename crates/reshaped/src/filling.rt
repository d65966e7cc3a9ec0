//! Formulas with other terms in place of variables.
ghost use Rattle.std.specs.Prelude.{◌≡◌, IfOk, map};
ghost use Rattle.rp_logic.specs.Filling.{filled_in, filled_ins};
ghost use Rattle.rp_logic.specs.Views.{formula_view, formulas_view};
ghost use Rattle.reshaped.specs.Fillings.{filling_view, under};

use crate::terms::{fill_atom, one_more};
use rp_logic::{Fml, Term};
use rp_value::{Boxed, List, Memory};
use std::alloc::Global;

/// What stands for variables.
#[derive(Drop)]
pub enum Filling {
    /// The same variables, where one more is nearer.
    Behind,
    /// The variable of this number becomes the innermost.
    Innermost(u32),
    /// The term for the innermost variable, which is gone.
    Instead(Boxed<Term>),
}

/// The formula, under k quantifiers of its own, with these in place of variables.
#[cycle(fill)]
#[tactic(auto, using(rp_logic::proofs::FormulaViews::formula_views))]
pub fn fill(alloc: Global, what: &Filling, k: u32, f: &Fml) -> Result<Fml, Memory>
    ensures { IfOk result (λ g. formula_view g ≡ filled_in (under k (filling_view what.now)) (formula_view f.now)) }
{
    match f {
        Fml::And(parts) => Ok(Fml::And(fill_each(alloc, what, k, parts.as_slice())?)),
        Fml::Or(parts) => Ok(Fml::Or(fill_each(alloc, what, k, parts.as_slice())?)),
        Fml::All(sort, body) => {
            let inner = one_more(k)?;
            let made = Boxed::new(alloc, fill(alloc, what, inner, body.get())?)?;
            Ok(Fml::All(*sort, made))
        },
        Fml::Ex(sort, body) => {
            let inner = one_more(k)?;
            let made = Boxed::new(alloc, fill(alloc, what, inner, body.get())?)?;
            Ok(Fml::Ex(*sort, made))
        },
        Fml::Lit(sign, atom) => Ok(Fml::Lit(*sign, fill_atom(alloc, what, k, atom)?)),
    }
}

/// Each of the formulas so.
#[cycle(fill)]
#[tactic(auto, using(rp_logic::proofs::FormulaViews::formula_views))]
fn fill_each(alloc: Global, what: &Filling, k: u32, formulas: &[Fml]) -> Result<List<Fml>, Memory>
    ensures { IfOk result (λ gs. map formula_view gs ≡ map (λ f. filled_in (under k (filling_view what.now)) (formula_view f)) formulas.now) }
{
    let mut made = List::new(alloc);
    for f in formulas {
        made.push(fill(alloc, what, k, f)?)?;
    }
    Ok(made)
}

/// Each of the formulas with these in place of variables.
pub fn fill_all(alloc: Global, what: &Filling, formulas: &[Fml]) -> Result<List<Fml>, Memory>
    ensures { IfOk result (λ gs. formulas_view gs ≡ filled_ins (filling_view what.now) (formulas_view formulas.now)) }
{
    let made = fill_each(alloc, what, 0, formulas)?;
    Ok(made)
}
