//! The axiom of places.
ghost use Rattle.std.specs.Prelude.{◌≡◌, ◌++◌, OnOk, map};
ghost use Rattle.rp_lang.specs.ProgramView.{program_view};
ghost use Rattle.rp_lang.specs.Views.{proc_view};
ghost use Rattle.rp_logic.specs.Views.{formula_view};
ghost use Rattle.hist_struct.specs.Axioms as spec;
ghost use Rattle.place_axioms.specs.means.Below as means;

use crate::spots::Spot;
use crate::walk::push_fields;
use program_sigs::{info_con, op_con, outcome_con, plus};
use rp_lang::{OpDecl, ProcDecl, Program};
use rp_logic::Fml;
use rp_value::{List, Memory};
use std::alloc::Global;

/// What a datatype has at most so many parts for: one more, since the fields' own types count.
const FUEL: u32 = 1001;

/// In an operation of this number.
fn push_op(
    alloc: Global,
    axioms: &mut List<Fml>,
    p: &Program,
    n: u32,
    op: &OpDecl,
) -> Result<(), Memory>
    ensures { OnOk result (map formula_view axioms.new ≡ map formula_view axioms.old ++ means.of_op (program_view p.now) n op.now) }
{
    let con = op_con(p, n)?;
    let spot = Spot::Whole(0);
    push_fields(alloc, axioms, p, 0, 0, FUEL, con, op.args.as_slice(), &spot)
}

/// Among the arguments of the procedure of this number.
fn push_info(
    alloc: Global,
    axioms: &mut List<Fml>,
    p: &Program,
    n: u32,
    q: &ProcDecl,
) -> Result<(), Memory>
    ensures { OnOk result (map formula_view axioms.new ≡ map formula_view axioms.old ++ means.of_info (program_view p.now) n (proc_view q.now)) }
{
    let con = info_con(p, n)?;
    let spot = Spot::Whole(2);
    push_fields(
        alloc,
        axioms,
        p,
        1,
        1,
        FUEL,
        con,
        q.params.as_slice(),
        &spot,
    )
}

/// In a result of the procedure of this number, before the step.
fn push_result(
    alloc: Global,
    axioms: &mut List<Fml>,
    p: &Program,
    n: u32,
    q: &ProcDecl,
) -> Result<(), Memory>
    ensures { OnOk result (map formula_view axioms.new ≡ map formula_view axioms.old ++ means.of_result (program_view p.now) n (proc_view q.now)) }
{
    match q.result {
        Some(ty) => {
            let con = outcome_con(p, n)?;
            let spot = Spot::Whole(3);
            push_fields(alloc, axioms, p, 1, 2, FUEL, con, &[ty], &spot)
        }
        None => Ok(()),
    }
}

fn push_ops(
    alloc: Global,
    axioms: &mut List<Fml>,
    p: &Program,
    ops: &[OpDecl],
) -> Result<(), Memory>
    ensures { OnOk result (map formula_view axioms.new ≡ map formula_view axioms.old ++ spec.each_of (means.of_op (program_view p.now)) 0 ops.now) }
{
    let mut n = 0;
    for op in ops {
        push_op(alloc, axioms, p, n, op)?;
        n = plus(n, 1)?;
    }
    Ok(())
}

fn push_infos(
    alloc: Global,
    axioms: &mut List<Fml>,
    p: &Program,
    procs: &[ProcDecl],
) -> Result<(), Memory>
    ensures { OnOk result (map formula_view axioms.new ≡ map formula_view axioms.old ++ spec.each_of (means.of_info (program_view p.now)) 0 (map proc_view procs.now)) }
{
    let mut n = 0;
    for q in procs {
        push_info(alloc, axioms, p, n, q)?;
        n = plus(n, 1)?;
    }
    Ok(())
}

fn push_results(
    alloc: Global,
    axioms: &mut List<Fml>,
    p: &Program,
    procs: &[ProcDecl],
) -> Result<(), Memory>
    ensures { OnOk result (map formula_view axioms.new ≡ map formula_view axioms.old ++ spec.each_of (means.of_result (program_view p.now)) 0 (map proc_view procs.now)) }
{
    let mut n = 0;
    for q in procs {
        push_result(alloc, axioms, p, n, q)?;
        n = plus(n, 1)?;
    }
    Ok(())
}

/// In operations, among arguments, in results before the step: an identifier that stands there is told to.
pub fn push_places_are_told(
    alloc: Global,
    axioms: &mut List<Fml>,
    p: &Program,
) -> Result<(), Memory>
    ensures { OnOk result (map formula_view axioms.new ≡ map formula_view axioms.old ++ spec.places_are_told (program_view p.now)) }
{
    push_ops(alloc, axioms, p, p.ops.as_slice())?;
    push_infos(alloc, axioms, p, p.procs.as_slice())?;
    push_results(alloc, axioms, p, p.procs.as_slice())?;
    Ok(())
}
