//! Identifiers that were given out.
ghost use Rattle.std.specs.Prelude.{◌≡◌, OnOk, IfOk, ◌++◌, ◌∷◌, [], map};
ghost use Rattle.rp_lang.specs.ProgramView.{program_view};
ghost use Rattle.rp_logic.specs.Views.{formula_view};
ghost use Rattle.hist_struct.specs.Axioms as spec;
ghost use Rattle.axiom_forms.specs.Together as together;

use crate::clauses::{push, push_formula};
use crate::literal::{Literal, formula};
use crate::numbers::id_rel;
use program_sigs::plus;
use rp_lang::Program;
use rp_logic::Fml;
use rp_value::{AtomType, Boxed, List, Memory};
use std::alloc::Global;

/// What stands among arguments of an invocation stands in the result of some.
#[tactic(auto, using(rp_logic::proofs::FormulaViews::formula_views))]
fn was_result(alloc: Global, arguments: u32, results: u32) -> Result<Boxed<Fml>, Memory>
    ensures { IfOk result (λ f. formula_view f ≡ together.was_result arguments results) }
{
    let given = Boxed::new(alloc, formula(alloc, Literal::Rel(results, 0, 1))?)?;
    let some = Boxed::new(alloc, Fml::Ex(1, given))?;
    let mut parts = List::new(alloc);
    parts.push(formula(alloc, Literal::NotRel(arguments, 1, 0))?)?;
    push(&mut parts, some)?;
    Ok(Boxed::new(alloc, Fml::Or(parts))?)
}

/// So for all invocations and identifiers of this type.
#[tactic(auto, using(rp_logic::proofs::FormulaViews::formula_views))]
fn known_type(alloc: Global, p: &Program, ty: u32) -> Result<Boxed<Fml>, Memory>
    ensures { IfOk result (λ f. formula_view f ≡ together.known_type (program_view p.now) ty) }
{
    let body = was_result(alloc, id_rel(p, ty, 1)?, id_rel(p, ty, 2)?)?;
    let each = Boxed::new(alloc, Fml::All(plus(2, ty)?, body))?;
    Ok(Boxed::new(alloc, Fml::All(1, each))?)
}

/// So, if it is a type of identifiers.
fn push_known(
    alloc: Global,
    axioms: &mut List<Fml>,
    p: &Program,
    ty: u32,
    atom: &AtomType,
) -> Result<(), Memory>
    ensures { OnOk result (map formula_view axioms.new ≡ map formula_view axioms.old ++ spec.known (program_view p.now) ty (atom.now ∷ [])) }
{
    if !atom.is_id {
        return Ok(());
    }
    push_formula(axioms, known_type(alloc, p, ty)?)
}

/// So for each of these types.
fn push_known_types(
    alloc: Global,
    axioms: &mut List<Fml>,
    p: &Program,
    atoms: &[AtomType],
) -> Result<(), Memory>
    ensures { OnOk result (map formula_view axioms.new ≡ map formula_view axioms.old ++ spec.known (program_view p.now) 0 atoms.now) }
{
    let mut ty = 0;
    for atom in atoms {
        push_known(alloc, axioms, p, ty, atom)?;
        ty = plus(ty, 1)?;
    }
    Ok(())
}

/// What stands among arguments stands in a result.
pub fn push_arguments_were_results(
    alloc: Global,
    axioms: &mut List<Fml>,
    p: &Program,
) -> Result<(), Memory>
    ensures { OnOk result (map formula_view axioms.new ≡ map formula_view axioms.old ++ spec.arguments_were_results (program_view p.now)) }
{
    push_known_types(alloc, axioms, p, p.types.atoms.as_slice())
}
