// Atoms inside values.
ghost use Rattle.std.specs.Prelude.{◌≡◌, ◌↔◌, ◌++◌, ℕ, Contains, IfOk, OnOk};
ghost use Rattle.std.specs.List.Sorted.{IsStrictlyIncreasing};
ghost use Rattle.rp_value.specs.ValueView.{value_view, values_view};
ghost use Rattle.crdt_defs.specs.Atoms as spec;

use rp_value::{List, Memory, Value};
use std::alloc::Global;

/// The greatest length of a `List`.
const MOST: usize = 4_294_967_294;

/// Adds the numbers of the atoms of the type that stand in the value.
#[cycle(collect)]
#[tactic(auto, using(rp_value::proofs::ValueViews::value_views))]
fn add_atoms(atoms: &mut Vec<u32>, value: &Value, ty: u32) -> Result<(), Memory>
    ensures { OnOk result (atoms.new.items ≡ atoms.old.items ++ spec.atoms_in ty (value_view value.now)) }
{
    match value {
        Value::Atom { ty: of, num } => {
            if *of == ty {
                atoms.push(*num)?;
            }
            Ok(())
        }
        Value::Con { con: _, args } => add_all_atoms(atoms, args.as_slice(), ty),
        Value::Int(_) => Ok(()),
        Value::Str(_) => Ok(()),
        Value::Call(_) => Ok(()),
        Value::Inv(_) => Ok(()),
    }
}

#[cycle(collect)]
fn add_all_atoms(atoms: &mut Vec<u32>, values: &[Value], ty: u32) -> Result<(), Memory>
    ensures { OnOk result (atoms.new.items ≡ atoms.old.items ++ spec.all_atoms_in ty (values_view values.now)) }
{
    for value in values {
        add_atoms(atoms, value, ty)?;
    }
    Ok(())
}

/// The same numbers, ascending, each once.
fn in_order(mut numbers: Vec<u32>) -> Result<Vec<u32>, Memory>
    ensures ascending { IfOk result (λ ordered. IsStrictlyIncreasing ordered.items) }
    ensures same { IfOk result (λ ordered. (n : ℕ) → Contains ordered.items n ↔ Contains numbers.items n) }
{
    numbers.sort()?;
    numbers.dedup();
    Ok(numbers)
}

/// The numbers of the atoms of a type that stand in a value, ascending, each once.
pub fn atoms_of(alloc: Global, value: &Value, ty: u32) -> Result<List<u32>, Memory>
    ensures ascending { IfOk result (λ atoms. IsStrictlyIncreasing atoms) }
    ensures all { IfOk result (λ atoms. (n : ℕ) → Contains atoms n ↔ Contains (spec.atoms_in ty (value_view value.now)) n) }
{
    let mut found = Vec::new(alloc);
    add_atoms(&mut found, value, ty)?;
    let atoms = in_order(found)?;
    if atoms.len() > MOST {
        return Err(Memory);
    }
    Ok(List::from_vec(atoms))
}
