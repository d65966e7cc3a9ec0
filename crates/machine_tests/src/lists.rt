// Lists by number.
ghost use Rattle.std.specs.Prelude.{◌≡◌, ◌<◌, ◌++◌, ◌∷◌, [], ℕ, List as Items, length, slice_get, slice_set, Some, OnErr, OnOk};
ghost use Rattle.machine_tests.specs.means.Indexed.{listed_at, with_number};

use rp_value::{List, Memory};
use std::alloc::Global;

/// So many lists are kept at most.
const MOST: u32 = 16_384;

/// Adds empty lists until there is one at the place.
fn grow(alloc: Global, lists: &mut Vec<List<u32>>, place: usize) -> Result<(), Memory>
    requires { place < 16384 }
    ensures there { OnOk result (place < length lists.new.items) }
    ensures same { (n : ℕ) → listed_at lists.new.items n ≡ listed_at lists.old.items n }
{
    for _more in lists.len()..place + 1 {
        lists.push(List::new(alloc))?;
    }
    Ok(())
}

/// Adds x to the list at the place.
fn add(lists: &mut Vec<List<u32>>, place: usize, x: u32) -> Result<(), Memory>
    requires { place < length lists.old.items }
    ensures ok { OnOk result ((list : Items ℕ) → slice_get lists.old.items place ≡ Some list
        → lists.new.items ≡ slice_set lists.old.items place (list ++ x ∷ [])) }
    ensures err { OnErr result (lists.new.items ≡ lists.old.items) }
{
    lists[place].push(x)
}

/// Adds x to the list at the place, which is made where it is wanting.
pub(crate) fn note(
    alloc: Global,
    lists: &mut Vec<List<u32>>,
    place: u32,
    x: u32,
) -> Result<(), Memory>
    ensures ok { OnOk result ((n : ℕ) → listed_at lists.new.items n ≡ with_number (listed_at lists.old.items) place x n) }
    ensures err { OnErr result ((n : ℕ) → listed_at lists.new.items n ≡ listed_at lists.old.items n) }
{
    if place >= MOST {
        return Err(Memory);
    }
    grow(alloc, lists, place as usize)?;
    add(lists, place as usize, x)
}

/// Takes the last number of the list away.
fn drop_last(list: &mut List<u32>)
    ensures { (front : Items ℕ) (x : ℕ) → list.old ≡ front ++ x ∷ [] → list.new ≡ front }
{
    let _last = list.pop();
}

/// Takes the last number of the list at the place away.
fn take_last(lists: &mut Vec<List<u32>>, place: usize)
    requires { place < length lists.old.items }
    ensures { (front : Items ℕ) (x : ℕ) → slice_get lists.old.items place ≡ Some (front ++ x ∷ [])
        → lists.new.items ≡ slice_set lists.old.items place front }
{
    drop_last(&mut lists[place]);
}

/// Takes the last number of the list at the place away, if there is that list.
pub(crate) fn take_back(lists: &mut Vec<List<u32>>, place: u32)
    ensures { (before : ℕ → Items ℕ) (x : ℕ) → ((n : ℕ) → listed_at lists.old.items n ≡ with_number before place x n)
        → (n : ℕ) → listed_at lists.new.items n ≡ before n }
{
    if (place as usize) < lists.len() {
        take_last(lists, place as usize);
    }
}

/// The numbers of the list at the place, if there is one.
pub(crate) fn numbers_at(lists: &[List<u32>], place: u32) -> &[u32]
    ensures { result.now ≡ listed_at lists.now place }
{
    match lists.get(place as usize) {
        Some(list) => list.as_slice(),
        None => &[],
    }
}
