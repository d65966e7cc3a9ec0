//! The replicated type at the end of a path.

ghost use Rattle.std.specs.Prelude.{◌≡◌, IfOk, Some};
ghost use Rattle.rp_ast.specs.View.{crdt_view, ident_view, step_view, steps_view};
ghost use Rattle.rp_ast.specs.declared.expr.AccessStep.TheViews.{out-AccessNode};
ghost use Rattle.rp_grammar.specs.Trees.{CrdtTree, StepTrees};
ghost use Rattle.type_rules.specs.ExprSites.{way_from as way_begun};
ghost use Rattle.type_rules.specs.Accesses.{find_var};
ghost use Rattle.type_rules.specs.Names.{Names};
ghost use Rattle.type_rules.specs.Paths.{Way as TheWay};
ghost use Rattle.text_names.specs.Declarations.{names_view};
ghost use Rattle.text_names.specs.Views.{part_view};
ghost use Rattle.desugaring.specs.Objects.{Reached, follow};

use rp_ast::{AccessNode, AccessStep, CrdtNode};
use rp_value::Memory;
use text_names::{Part, TextNames};
use type_tables::Vars;
use type_terms::{Way, stepped, way_from};

/// The type itself. `Err` is that there is none.
fn crdt_of<'a>(part: Part<'a>) -> Result<&'a CrdtNode, Memory>
    ensures { IfOk result (λ crdt. crdt_view crdt.now ≡ part_view part.entry) }
{
    match part.crdt() {
        Some(crdt) => Ok(crdt),
        None => Err(Memory),
    }
}

/// The type on which the last of the steps calls something, where the others lead to it.
fn end_past<'a>(
    part: Part<'a>,
    step: &AccessStep,
    rest: &[AccessStep],
) -> Result<&'a CrdtNode, Memory>
    ensures { (n : Names) (r : Reached) → follow n (StepTrees.more_steps (step_view step.now) (steps_view rest.now))
        (part_view part.entry) ≡ Some r
        → IfOk result (λ crdt. crdt_view crdt.now ≡ r.crdt) }
{
    match rest.split_first() {
        None => crdt_of(part),
        Some((next, more)) => match stepped(Way::Came(part), step)? {
            Way::Came(inner) => end_past(inner, next, more),
            Way::Member(_) => Err(Memory),
            Way::Misfit(_) => Err(Memory),
        },
    }
}

fn end_from<'a>(part: Part<'a>, steps: &[AccessStep]) -> Result<&'a CrdtNode, Memory>
    ensures { (n : Names) (r : Reached) → follow n (steps_view steps.now) (part_view part.entry) ≡ Some r
        → IfOk result (λ crdt. crdt_view crdt.now ≡ r.crdt) }
{
    match steps.split_first() {
        Some((step, rest)) => end_past(part, step, rest),
        None => Err(Memory),
    }
}

/// The type at the end of the path of an access. `Err` is also that it leads to none.
pub(crate) fn end_of<'a>(
    names: &TextNames<'a>,
    vars: &Vars,
    access: &AccessNode,
) -> Result<&'a CrdtNode, Memory>
    ensures { (c : CrdtTree) (r : Reached) → way_begun (names_view names.now) (find_var vars.now
        (out-AccessNode access.now).root.text) (ident_view (out-AccessNode access.now).root) ≡ TheWay.came c
        → follow (names_view names.now) (steps_view (out-AccessNode access.now).steps) c ≡ Some r
        → IfOk result (λ crdt. crdt_view crdt.now ≡ r.crdt) }
{
    match way_from(names, vars, &access.root) {
        Way::Came(part) => end_from(part, access.steps.as_slice()),
        Way::Member(_) => Err(Memory),
        Way::Misfit(_) => Err(Memory),
    }
}
