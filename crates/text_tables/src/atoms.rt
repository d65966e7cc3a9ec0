//! Id types and opaque types by their numbers.

ghost use Rattle.std.specs.Prelude.{◌≡◌, ◌<◌, ◌+◌, ◌++◌, ◌∷◌, [], IfOk, if◌then◌else◌, is_some, option_and_then, slice_get};
ghost use Rattle.text_names.specs.Declarations.{names_view};
ghost use Rattle.text_names.specs.Views.{type_item_view};
ghost use Rattle.desugaring.specs.Tables as spec;
ghost use Rattle.desugaring.specs.Tables.{atom_in};
ghost use Rattle.text_tables.specs.means.Kept.{AreAtoms};

use rp_value::{AtomType, List, Memory, copy_bytes};
use std::alloc::Global;
use text_names::{TextNames, TypeItem, TypeSort};

/// Whether it is an id type or an opaque type.
fn is_atom(names: &TextNames, number: u32) -> bool
    ensures { result ≡ is_some (option_and_then atom_in (slice_get (names_view names.now).types number)) }
{
    match names.type_at(number) {
        Some(item) => match &item.sort {
            TypeSort::Id => true,
            TypeSort::Opaque => true,
            TypeSort::Datatype(_) => false,
        },
        None => false,
    }
}

/// One more, where it is one.
fn with_one(count: u32, is_one: bool) -> u32
    requires { count < 4294967295 }
    ensures { result ≡ count + (if is_one then 1 else 0) }
{
    if is_one { count + 1 } else { count }
}

/// Of each type, and of the end, how many id types and opaque types are declared before it.
pub(crate) fn atoms_before(alloc: Global, names: &TextNames) -> Result<List<u32>, Memory>
    ensures { IfOk result (λ numbers. AreAtoms (names_view names.now) numbers) }
{
    let mut numbers = List::new(alloc);
    let mut count: u32 = 0;
    for number in 0..names.type_count() {
        numbers.push(count)?;
        count = with_one(count, is_atom(names, number));
    }
    numbers.push(count)?;
    Ok(numbers)
}

/// With the entry of a type, where it is an id type or an opaque type.
fn with_atom(
    alloc: Global,
    atoms: List<AtomType>,
    item: &TypeItem,
) -> Result<List<AtomType>, Memory>
    ensures { IfOk result (λ more. more ≡ atoms ++ spec.atoms (type_item_view item.now ∷ [])) }
{
    let is_id = match &item.sort {
        TypeSort::Id => true,
        TypeSort::Opaque => false,
        TypeSort::Datatype(_) => return Ok(atoms),
    };
    let mut atoms = atoms;
    let name = copy_bytes(alloc, item.name)?;
    atoms.push(AtomType { name, is_id })?;
    Ok(atoms)
}

/// The id types and opaque types, in the order of the text.
pub(crate) fn atom_list(alloc: Global, names: &TextNames) -> Result<List<AtomType>, Memory>
    ensures { IfOk result (λ list. list ≡ spec.atoms (names_view names.now).types) }
{
    let mut list = List::new(alloc);
    for number in 0..names.type_count() {
        let Some(item) = names.type_at(number) else {
            return Err(Memory);
        };
        list = with_atom(alloc, list, item)?;
    }
    Ok(list)
}
