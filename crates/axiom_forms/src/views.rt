//! What is seen and read, and snapshots.
ghost use Rattle.std.specs.Prelude.{◌≡◌, ◌<◌, OnOk, ◌++◌, ◌∷◌, [], map, suc};
ghost use Rattle.rp_lang.specs.ProgramView.{program_view};
ghost use Rattle.rp_logic.specs.Views.{formula_view};
ghost use Rattle.hist_struct.specs.Axioms as spec;
ghost use Rattle.axiom_forms.specs.Together as together;

use crate::calls::{push_closed, push_part_of};
use crate::clauses::push_each;
use crate::literal::Literal;
use crate::numbers::{read_rel, seen_rel};
use rp_lang::Program;
use rp_logic::Fml;
use rp_value::{List, Memory};
use std::alloc::Global;

/// What is seen from this begin on was committed, is read right after the begin, and is closed.
fn push_of_view(
    alloc: Global,
    axioms: &mut List<Fml>,
    p: &Program,
    begin: u32,
) -> Result<(), Memory>
    ensures { OnOk result (map formula_view axioms.new ≡ map formula_view axioms.old ++ spec.of_view (program_view p.now) begin) }
{
    let seen = seen_rel(p, begin)?;
    push_part_of(alloc, axioms, seen, 0)?;
    push_part_of(alloc, axioms, seen, read_rel(p, begin)?)?;
    push_closed(alloc, axioms, seen)?;
    Ok(())
}

/// Of each begin below n, the last first.
fn push_of_views(alloc: Global, axioms: &mut List<Fml>, p: &Program, n: u32) -> Result<(), Memory>
    ensures { OnOk result (map formula_view axioms.new ≡ map formula_view axioms.old ++ spec.of_views (program_view p.now) n) }
{
    if n == 0 {
        Ok(())
    } else {
        push_of_view(alloc, axioms, p, n - 1)?;
        push_of_views(alloc, axioms, p, n - 1)?;
        Ok(())
    }
}

/// What is seen from the begin before this one on is seen from it on.
fn push_link(alloc: Global, axioms: &mut List<Fml>, p: &Program, begin: u32) -> Result<(), Memory>
    requires { 0 < begin }
    ensures { OnOk result (map formula_view axioms.new ≡ map formula_view axioms.old ++ together.link (program_view p.now) begin) }
{
    let before = seen_rel(p, begin - 1)?;
    push_part_of(alloc, axioms, before, seen_rel(p, begin)?)
}

/// Of each two of n begins that follow one another, the last first.
fn push_of_chain(alloc: Global, axioms: &mut List<Fml>, p: &Program, n: u32) -> Result<(), Memory>
    ensures { OnOk result (map formula_view axioms.new ≡ map formula_view axioms.old ++ spec.of_chain (program_view p.now) n) }
{
    if n < 2 {
        Ok(())
    } else {
        push_link(alloc, axioms, p, n - 1)?;
        push_of_chain(alloc, axioms, p, n - 1)?;
        Ok(())
    }
}

/// The part of the snapshot is what of it was committed.
fn push_part_is_old(alloc: Global, axioms: &mut List<Fml>) -> Result<(), Memory>
    ensures { OnOk result (map formula_view axioms.new ≡ map formula_view axioms.old ++ together.part_is_old) }
{
    push_part_of(alloc, axioms, 8, 0)?;
    push_part_of(alloc, axioms, 7, 1)?;
    push_part_of(alloc, axioms, 8, 7)?;
    push_each(
        alloc,
        axioms,
        0,
        1,
        &[
            Literal::NotIn(7, 0),
            Literal::NotIn(0, 0),
            Literal::In(8, 0),
        ],
    )?;
    Ok(())
}

/// The snapshot, its part and what is seen are committed and closed, and what is seen grows.
pub fn push_views_grow(
    alloc: Global,
    axioms: &mut List<Fml>,
    p: &Program,
    begins: u32,
) -> Result<(), Memory>
    ensures { OnOk result (map formula_view axioms.new ≡ map formula_view axioms.old ++ spec.views_grow (program_view p.now) begins) }
{
    push_part_is_old(alloc, axioms)?;
    push_closed(alloc, axioms, 7)?;
    push_closed(alloc, axioms, 8)?;
    push_of_views(alloc, axioms, p, begins)?;
    push_of_chain(alloc, axioms, p, begins)?;
    Ok(())
}
