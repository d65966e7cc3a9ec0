//! The axioms of calls, which no program changes. Relation 0 is the calls that are committed before the step, 1 those after it,
//! 2 and 3 the invocations before and after it, 4 "before", 5 "has a lesser stamp", 6 "is of one transaction".
ghost use Rattle.std.specs.Prelude.{◌≡◌, OnOk, ◌++◌, ◌∷◌, [], map};
ghost use Rattle.rp_logic.specs.Views.{formula_view};
ghost use Rattle.hist_struct.specs.Axioms as spec;
ghost use Rattle.axiom_forms.specs.Together as together;

use crate::clauses::push_each;
use crate::literal::Literal;
use rp_logic::Fml;
use rp_value::{List, Memory};
use std::alloc::Global;

fn push_before_orders(alloc: Global, axioms: &mut List<Fml>) -> Result<(), Memory>
    ensures { OnOk result (map formula_view axioms.new ≡ map formula_view axioms.old ++ spec.before_orders) }
{
    push_each(alloc, axioms, 0, 1, &[Literal::NotRel(4, 0, 0)])?;
    push_each(
        alloc,
        axioms,
        0,
        3,
        &[
            Literal::NotRel(4, 2, 1),
            Literal::NotRel(4, 1, 0),
            Literal::Rel(4, 2, 0),
        ],
    )?;
    Ok(())
}

fn push_stamps_order(alloc: Global, axioms: &mut List<Fml>) -> Result<(), Memory>
    ensures { OnOk result (map formula_view axioms.new ≡ map formula_view axioms.old ++ spec.stamps_order) }
{
    push_each(alloc, axioms, 0, 1, &[Literal::NotRel(5, 0, 0)])?;
    push_each(
        alloc,
        axioms,
        0,
        3,
        &[
            Literal::NotRel(5, 2, 1),
            Literal::NotRel(5, 1, 0),
            Literal::Rel(5, 2, 0),
        ],
    )?;
    push_each(
        alloc,
        axioms,
        0,
        2,
        &[
            Literal::Same(1, 0),
            Literal::Rel(5, 1, 0),
            Literal::Rel(5, 0, 1),
        ],
    )?;
    push_each(
        alloc,
        axioms,
        0,
        2,
        &[Literal::NotRel(4, 1, 0), Literal::Rel(5, 1, 0)],
    )?;
    Ok(())
}

fn push_transactions_part(alloc: Global, axioms: &mut List<Fml>) -> Result<(), Memory>
    ensures { OnOk result (map formula_view axioms.new ≡ map formula_view axioms.old ++ spec.transactions_part) }
{
    push_each(alloc, axioms, 0, 1, &[Literal::Rel(6, 0, 0)])?;
    push_each(
        alloc,
        axioms,
        0,
        2,
        &[Literal::NotRel(6, 1, 0), Literal::Rel(6, 0, 1)],
    )?;
    push_each(
        alloc,
        axioms,
        0,
        3,
        &[
            Literal::NotRel(6, 2, 1),
            Literal::NotRel(6, 1, 0),
            Literal::Rel(6, 2, 0),
        ],
    )?;
    push_each(
        alloc,
        axioms,
        0,
        2,
        &[Literal::NotRel(6, 1, 0), Literal::Equal(1, 1, 1, 0)],
    )?;
    Ok(())
}

fn push_transactions_are_whole(alloc: Global, axioms: &mut List<Fml>) -> Result<(), Memory>
    ensures { OnOk result (map formula_view axioms.new ≡ map formula_view axioms.old ++ spec.transactions_are_whole) }
{
    push_each(
        alloc,
        axioms,
        0,
        3,
        &[
            Literal::NotRel(6, 2, 0),
            Literal::Rel(6, 2, 1),
            Literal::NotRel(4, 1, 2),
            Literal::Rel(4, 1, 0),
        ],
    )?;
    push_each(
        alloc,
        axioms,
        0,
        3,
        &[
            Literal::NotRel(6, 2, 0),
            Literal::Rel(6, 2, 1),
            Literal::NotRel(4, 2, 1),
            Literal::Rel(4, 0, 1),
        ],
    )?;
    Ok(())
}

/// With a call of the set what is before it, and its transaction.
pub fn push_closed(alloc: Global, axioms: &mut List<Fml>, set: u32) -> Result<(), Memory>
    ensures { OnOk result (map formula_view axioms.new ≡ map formula_view axioms.old ++ spec.closed set) }
{
    push_each(
        alloc,
        axioms,
        0,
        2,
        &[
            Literal::NotIn(set, 0),
            Literal::NotRel(4, 1, 0),
            Literal::In(set, 1),
        ],
    )?;
    push_each(
        alloc,
        axioms,
        0,
        2,
        &[
            Literal::NotIn(set, 1),
            Literal::NotRel(6, 1, 0),
            Literal::In(set, 0),
        ],
    )?;
    Ok(())
}

/// The first set is a part of the second.
pub fn push_part_of(alloc: Global, axioms: &mut List<Fml>, r: u32, s: u32) -> Result<(), Memory>
    ensures { OnOk result (map formula_view axioms.new ≡ map formula_view axioms.old ++ spec.part_of r s ∷ []) }
{
    push_each(
        alloc,
        axioms,
        0,
        1,
        &[Literal::NotIn(r, 0), Literal::In(s, 0)],
    )
}

/// Who made a committed call was there, and each invocation is there after the step.
fn push_origins(alloc: Global, axioms: &mut List<Fml>) -> Result<(), Memory>
    ensures { OnOk result (map formula_view axioms.new ≡ map formula_view axioms.old ++ together.origins_were_there) }
{
    push_each(
        alloc,
        axioms,
        0,
        1,
        &[Literal::NotIn(0, 0), Literal::OriginIn(2, 0)],
    )?;
    push_each(alloc, axioms, 1, 1, &[Literal::In(3, 0)])?;
    Ok(())
}

fn push_commits_grow(alloc: Global, axioms: &mut List<Fml>) -> Result<(), Memory>
    ensures { OnOk result (map formula_view axioms.new ≡ map formula_view axioms.old ++ spec.commits_grow) }
{
    push_part_of(alloc, axioms, 0, 1)?;
    push_origins(alloc, axioms)?;
    push_closed(alloc, axioms, 0)?;
    push_closed(alloc, axioms, 1)?;
    Ok(())
}

pub fn push_own_calls_in_line(alloc: Global, axioms: &mut List<Fml>) -> Result<(), Memory>
    ensures { OnOk result (map formula_view axioms.new ≡ map formula_view axioms.old ++ spec.own_calls_in_line) }
{
    push_each(
        alloc,
        axioms,
        0,
        2,
        &[
            Literal::Differ(1, 1, 1, 0),
            Literal::Same(1, 0),
            Literal::Rel(4, 1, 0),
            Literal::Rel(4, 0, 1),
        ],
    )
}

/// The axioms that say no more than that calls are ordered, in transactions, and committed.
pub fn push_of_calls(alloc: Global, axioms: &mut List<Fml>) -> Result<(), Memory>
    ensures { OnOk result (map formula_view axioms.new ≡ map formula_view axioms.old ++ together.of_calls) }
{
    push_before_orders(alloc, axioms)?;
    push_stamps_order(alloc, axioms)?;
    push_transactions_part(alloc, axioms)?;
    push_transactions_are_whole(alloc, axioms)?;
    push_commits_grow(alloc, axioms)?;
    Ok(())
}
