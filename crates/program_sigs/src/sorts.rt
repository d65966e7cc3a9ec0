//! The sorts of a program's signatures.
ghost use Rattle.std.specs.Prelude.{◌≡◌, ◌++◌, List, map, IfOk, OnOk};
ghost use Rattle.rp_value.specs.declared.tables.AtomType.{AtomType};
ghost use Rattle.rp_value.specs.declared.tables.Ty.{Ty};
ghost use Rattle.rp_lang.specs.ProgramView.{program_view};
ghost use Rattle.rp_symbols.specs.Signatures as spec;

use crate::numbers::{info_con, op_con, plus, sort_of, unreturned_con};
use rp_lang::Program;
use rp_logic::Sort;
use rp_value::{AtomType, DataDecl, List, Memory, Ty, copy_list};
use std::alloc::Global;

/// So many numbers, from this one on.
pub fn numbers_from(alloc: Global, first: u32, count: u32) -> Result<List<u32>, Memory>
    ensures { IfOk result (λ ns. ns ≡ spec.from first count) }
{
    let mut numbers = List::new(alloc);
    for i in 0..count {
        numbers.push(plus(first, i)?)?;
    }
    Ok(numbers)
}

/// The sorts of types, in order.
pub fn sorts_of_types(alloc: Global, p: &Program, types: &[Ty]) -> Result<List<u32>, Memory>
    ensures { IfOk result (λ sorts. sorts ≡ map (spec.sort_of (program_view p.now)) types.now) }
{
    let mut sorts = List::new(alloc);
    for ty in types {
        sorts.push(sort_of(p, *ty)?)?;
    }
    Ok(sorts)
}

fn push_atoms(sorts: &mut List<Sort>, atoms: &[AtomType]) -> Result<(), Memory>
    ensures { OnOk result (sorts.new ≡ sorts.old ++ spec.atom_sorts atoms.now) }
{
    for _atom in atoms {
        sorts.push(Sort::Plain)?;
    }
    Ok(())
}

fn push_datatypes(
    alloc: Global,
    sorts: &mut List<Sort>,
    datatypes: &[DataDecl],
) -> Result<(), Memory>
    ensures { OnOk result (sorts.new ≡ sorts.old ++ spec.data_sorts datatypes.now) }
{
    for decl in datatypes {
        let cons = copy_list(alloc, decl.cons.as_slice())?;
        sorts.push(Sort::Datatype(cons))?;
    }
    Ok(())
}

/// Operations, records and outcomes.
fn push_records(alloc: Global, sorts: &mut List<Sort>, p: &Program) -> Result<(), Memory>
    ensures { OnOk result (sorts.new ≡ sorts.old ++ spec.record_sorts (program_view p.now)) }
{
    let operations = numbers_from(alloc, op_con(p, 0)?, p.ops.count())?;
    sorts.push(Sort::Datatype(operations))?;
    let records = numbers_from(alloc, info_con(p, 0)?, p.procs.count())?;
    sorts.push(Sort::Datatype(records))?;
    let outcomes = numbers_from(alloc, unreturned_con(p)?, plus(p.procs.count(), 1)?)?;
    sorts.push(Sort::Datatype(outcomes))?;
    Ok(())
}

/// The sorts of the program's signatures.
pub fn sorts_of(alloc: Global, p: &Program) -> Result<List<Sort>, Memory>
    ensures { IfOk result (λ sorts. sorts ≡ spec.sorts_of (program_view p.now)) }
{
    let mut sorts = List::new(alloc);
    sorts.push(Sort::Plain)?;
    sorts.push(Sort::Plain)?;
    push_atoms(&mut sorts, p.types.atoms.as_slice())?;
    sorts.push(Sort::Int)?;
    sorts.push(Sort::Str)?;
    push_datatypes(alloc, &mut sorts, p.types.datatypes.as_slice())?;
    push_records(alloc, &mut sorts, p)?;
    Ok(sorts)
}
