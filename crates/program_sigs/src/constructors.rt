//! The constructors of a program's signatures.
ghost use Rattle.std.specs.Prelude.{◌≡◌, ◌++◌, ◌∷◌, List, map, Option, IfOk, OnOk};
ghost use Rattle.rp_value.specs.declared.tables.ConDecl.{ConDecl as Con};
ghost use Rattle.rp_lang.specs.declared.op.OpDecl.{OpDecl as Op};
ghost use Rattle.rp_lang.specs.Programs.{Proc};
ghost use Rattle.rp_lang.specs.ProgramView.{program_view};
ghost use Rattle.rp_lang.specs.Views.{proc_view};
ghost use Rattle.rp_symbols.specs.Numbers as number;
ghost use Rattle.rp_symbols.specs.Signatures as spec;

use crate::numbers::{data_sort, info_sort, op_sort, outcome_sort, sort_of};
use crate::sorts::sorts_of_types;
use rp_lang::{OpDecl, ProcDecl, Program};
use rp_logic::LogicCon;
use rp_value::{ConDecl, List, Memory, Ty};
use std::alloc::Global;

/// The constructor of this sort over arguments of these types.
fn con_of(alloc: Global, p: &Program, sort: u32, types: &[Ty]) -> Result<LogicCon, Memory>
    ensures { IfOk result (λ con. con ≡ spec.con_of sort (map (spec.sort_of (program_view p.now)) types.now)) }
{
    let args = sorts_of_types(alloc, p, types)?;
    Ok(LogicCon { sort, args })
}

/// The constructor of this sort over a result, where there is one.
fn con_over(alloc: Global, p: &Program, sort: u32, given: Option<Ty>) -> Result<LogicCon, Memory>
    ensures { IfOk result (λ con. con ≡ spec.con_of sort (map (spec.sort_of (program_view p.now)) (spec.result_list given))) }
{
    let mut args = List::new(alloc);
    match given {
        Some(ty) => {
            args.push(sort_of(p, ty)?)?;
            Ok(LogicCon { sort, args })
        }
        None => Ok(LogicCon { sort, args }),
    }
}

fn push_own(
    alloc: Global,
    cons: &mut List<LogicCon>,
    p: &Program,
    decls: &[ConDecl],
) -> Result<(), Memory>
    ensures { OnOk result (cons.new ≡ cons.old ++ map (λ (decl : Con). spec.con_of (number.data_sort (program_view p.now) decl.of) (map (spec.sort_of (program_view p.now)) decl.fields)) decls.now) }
{
    for decl in decls {
        let sort = data_sort(p, decl.of)?;
        cons.push(con_of(alloc, p, sort, decl.fields.as_slice())?)?;
    }
    Ok(())
}

fn push_ops(
    alloc: Global,
    cons: &mut List<LogicCon>,
    p: &Program,
    decls: &[OpDecl],
) -> Result<(), Memory>
    ensures { OnOk result (cons.new ≡ cons.old ++ map (λ (decl : Op). spec.con_of (number.op_sort (program_view p.now)) (map (spec.sort_of (program_view p.now)) decl.args)) decls.now) }
{
    for decl in decls {
        let sort = op_sort(p)?;
        cons.push(con_of(alloc, p, sort, decl.args.as_slice())?)?;
    }
    Ok(())
}

fn push_infos(
    alloc: Global,
    cons: &mut List<LogicCon>,
    p: &Program,
    procs: &[ProcDecl],
) -> Result<(), Memory>
    ensures { OnOk result (cons.new ≡ cons.old ++ map (λ (q : Proc). spec.con_of (number.info_sort (program_view p.now)) (map (spec.sort_of (program_view p.now)) q.params)) (map proc_view procs.now)) }
{
    for q in procs {
        let sort = info_sort(p)?;
        cons.push(con_of(alloc, p, sort, q.params.as_slice())?)?;
    }
    Ok(())
}

fn push_outcomes(
    alloc: Global,
    cons: &mut List<LogicCon>,
    p: &Program,
    procs: &[ProcDecl],
) -> Result<(), Memory>
    ensures { OnOk result (cons.new ≡ cons.old ++ map (λ (q : Proc). spec.con_of (number.outcome_sort (program_view p.now)) (map (spec.sort_of (program_view p.now)) (spec.result_list q.result))) (map proc_view procs.now)) }
{
    for q in procs {
        let sort = outcome_sort(p)?;
        cons.push(con_over(alloc, p, sort, q.result)?)?;
    }
    Ok(())
}

/// The constructors of the program's signatures.
pub fn con_decls(alloc: Global, p: &Program) -> Result<List<LogicCon>, Memory>
    ensures { IfOk result (λ cons. cons ≡ spec.con_decls (program_view p.now)) }
{
    let mut cons = List::new(alloc);
    push_own(alloc, &mut cons, p, p.cons.cons.as_slice())?;
    push_ops(alloc, &mut cons, p, p.ops.as_slice())?;
    push_infos(alloc, &mut cons, p, p.procs.as_slice())?;
    cons.push(con_over(alloc, p, outcome_sort(p)?, None)?)?;
    push_outcomes(alloc, &mut cons, p, p.procs.as_slice())?;
    Ok(cons)
}
