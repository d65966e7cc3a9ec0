//! The relations of a program's signatures.
ghost use Rattle.std.specs.Prelude.{◌≡◌, ◌++◌, ◌∷◌, [], if◌then◌else◌, IfOk, OnOk};
ghost use Rattle.rp_lang.specs.ProgramView.{program_view};
ghost use Rattle.rp_symbols.specs.Numbers as number;
ghost use Rattle.rp_symbols.specs.Signatures as spec;

use crate::numbers::plus;
use rp_lang::Program;
use rp_value::{AtomType, List, Memory};
use std::alloc::Global;

/// The number alone.
pub fn one(alloc: Global, n: u32) -> Result<List<u32>, Memory>
    ensures { IfOk result (λ ns. ns ≡ n ∷ []) }
{
    let mut numbers = List::new(alloc);
    numbers.push(n)?;
    Ok(numbers)
}

/// The two numbers.
pub fn two(alloc: Global, m: u32, n: u32) -> Result<List<u32>, Memory>
    ensures { IfOk result (λ ns. ns ≡ m ∷ n ∷ []) }
{
    let mut numbers = List::new(alloc);
    numbers.push(m)?;
    numbers.push(n)?;
    Ok(numbers)
}

/// The identifiers of this sort in operations, in arguments and in results.
fn push_places(alloc: Global, rels: &mut List<List<u32>>, sort: u32) -> Result<(), Memory>
    ensures { OnOk result (rels.new ≡ rels.old ++ (number.call_sort ∷ sort ∷ []) ∷ (number.inv_sort ∷ sort ∷ []) ∷ (number.inv_sort ∷ sort ∷ []) ∷ []) }
{
    rels.push(two(alloc, 0, sort)?)?;
    rels.push(two(alloc, 1, sort)?)?;
    rels.push(two(alloc, 1, sort)?)?;
    Ok(())
}

/// Those of one type, if it is a type of identifiers.
fn push_atom(
    alloc: Global,
    rels: &mut List<List<u32>>,
    sort: u32,
    is_id: bool,
) -> Result<(), Memory>
    ensures { OnOk result (rels.new ≡ rels.old ++ (if is_id then (number.call_sort ∷ sort ∷ []) ∷ (number.inv_sort ∷ sort ∷ []) ∷ (number.inv_sort ∷ sort ∷ []) ∷ [] else [])) }
{
    if !is_id {
        return Ok(());
    }
    push_places(alloc, rels, sort)?;
    Ok(())
}

fn push_ids(alloc: Global, rels: &mut List<List<u32>>, atoms: &[AtomType]) -> Result<(), Memory>
    ensures { OnOk result (rels.new ≡ rels.old ++ spec.id_decls 0 atoms.now) }
{
    let mut sort = 2;
    for atom in atoms {
        push_atom(alloc, rels, sort, atom.is_id)?;
        sort = plus(sort, 1)?;
    }
    Ok(())
}

/// So many sets of calls.
fn push_sets(alloc: Global, rels: &mut List<List<u32>>, count: u32) -> Result<(), Memory>
    ensures { OnOk result (rels.new ≡ rels.old ++ spec.set_decls count) }
{
    for _set in 0..count {
        rels.push(one(alloc, 0)?)?;
    }
    Ok(())
}

/// Committed calls before and after, and the invocations that exist before and after.
fn push_states(alloc: Global, rels: &mut List<List<u32>>) -> Result<(), Memory>
    ensures { OnOk result (rels.new ≡ rels.old ++ spec.set_decl ∷ spec.set_decl ∷ (number.inv_sort ∷ []) ∷ (number.inv_sort ∷ []) ∷ []) }
{
    rels.push(one(alloc, 0)?)?;
    rels.push(one(alloc, 0)?)?;
    rels.push(one(alloc, 1)?)?;
    rels.push(one(alloc, 1)?)?;
    Ok(())
}

/// What is before what, stamps, transactions; a snapshot and its part.
fn push_orders(alloc: Global, rels: &mut List<List<u32>>) -> Result<(), Memory>
    ensures { OnOk result (rels.new ≡ rels.old ++ (number.call_sort ∷ number.call_sort ∷ []) ∷ (number.call_sort ∷ number.call_sort ∷ []) ∷ (number.call_sort ∷ number.call_sort ∷ []) ∷ spec.set_decl ∷ spec.set_decl ∷ []) }
{
    rels.push(two(alloc, 0, 0)?)?;
    rels.push(two(alloc, 0, 0)?)?;
    rels.push(two(alloc, 0, 0)?)?;
    rels.push(one(alloc, 0)?)?;
    rels.push(one(alloc, 0)?)?;
    Ok(())
}

/// The relations of the program's signatures with so many begins.
pub fn rel_decls(alloc: Global, p: &Program, begins: u32) -> Result<List<List<u32>>, Memory>
    ensures { IfOk result (λ rels. rels ≡ spec.rel_decls (program_view p.now) begins) }
{
    let mut rels = List::new(alloc);
    push_states(alloc, &mut rels)?;
    push_orders(alloc, &mut rels)?;
    push_ids(alloc, &mut rels, p.types.atoms.as_slice())?;
    push_sets(alloc, &mut rels, plus(begins, begins)?)?;
    Ok(rels)
}
