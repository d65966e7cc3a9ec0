// Of each invocation its committed calls, gathered by one walk over the history.
ghost use Rattle.std.specs.Prelude.{◌≡◌, ◌<◌, ◌+◌, ◌&&◌, ◌||◌, not, IfOk, OnOk, ◌++◌, ◌∷◌, [], length, replicate, slice_get, slice_set, Some, ℕ, Bool, List as Items};
ghost use Rattle.std.specs.List.{list_all};
ghost use Rattle.crdt_defs.specs.Calls.{calls_view};
ghost use Rattle.crdt_defs.specs.Counting.{all_below, any_below};
ghost use Rattle.crdt_defs.specs.Histories.{before};
ghost use Rattle.crdt_defs.specs.Parts as parts;
ghost use Rattle.crdt_truth.specs.Readings.{parts_view};
ghost use Rattle.crdt_truth.specs.means.Done.{AreDone, AreThose, is_that};

use crate::ranges::{call_before, is_done};
use crate::reading::Reading;
use rp_value::{List, Memory};
use std::alloc::Global;

/// So many lists without a call.
#[tactic(auto, using(std::proofs::lemmas::List::replicate_more))]
fn empty_lists(alloc: Global, many: usize) -> Result<Vec<List<u32>>, Memory>
    ensures { IfOk result (λ lists. lists.items ≡ replicate many []) }
{
    let mut lists = Vec::new(alloc);
    for _i in 0..many {
        lists.push(List::new(alloc))?;
    }
    Ok(lists)
}

/// The invocation of the call, if the call is committed.
fn done_by(r: &Reading, c: u32) -> Option<u32>
    requires { c < length r.now.history.now }
    ensures { (i : ℕ) → parts.is_done_by (parts_view r.now) i c ≡ is_that result i }
{
    if is_done(r, c) {
        Some(r.history.call(c).inv)
    } else {
        None
    }
}

/// Adds c to the list at the place.
fn put(lists: &mut Vec<List<u32>>, place: usize, c: u32) -> Result<(), Memory>
    requires { place < length lists.old.items }
    ensures { OnOk result ((list : Items ℕ) → slice_get lists.old.items place ≡ Some list
        → lists.new.items ≡ slice_set lists.old.items place (list ++ c ∷ [])) }
{
    lists[place].push(c)
}

/// Adds the call to the list of its invocation, where the call is committed and there is that list.
fn note(r: &Reading, c: u32, lists: &mut Vec<List<u32>>) -> Result<(), Memory>
    requires within { c < length r.now.history.now }
    requires done { AreDone (parts_view r.now) c lists.old.items }
    ensures { OnOk result (AreDone (parts_view r.now) (c + 1) lists.new.items) }
{
    let Some(i) = done_by(r, c) else {
        return Ok(());
    };
    if (i as usize) < lists.len() {
        put(lists, i as usize, c)?;
        Ok(())
    } else {
        Ok(())
    }
}

/// Of each invocation its committed calls.
pub(crate) fn done_by_each(alloc: Global, r: &Reading) -> Result<Vec<List<u32>>, Memory>
    ensures { IfOk result (λ lists. AreDone (parts_view r.now) (length (calls_view r.now.history.now)) lists.items) }
{
    let mut lists = empty_lists(alloc, r.infos.len())?;
    for c in 0..r.history.len() {
        note(r, c, &mut lists)?;
    }
    Ok(lists)
}

/// Whether c is before each of these calls.
fn is_before_each(r: &Reading, c: u32, late: &[u32]) -> bool
    ensures { result ≡ list_all (λ d. before (calls_view r.now.history.now) c d) late.now }
{
    for d in late {
        if !call_before(r, c, *d) {
            return false;
        }
    }
    true
}

/// Whether each of the early calls is before each of the late ones.
fn are_all_before(r: &Reading, early: &[u32], late: &[u32]) -> bool
    ensures { result ≡ list_all (λ c. list_all (λ d. before (calls_view r.now.history.now) c d) late.now) early.now }
{
    for c in early {
        if !is_before_each(r, *c, late) {
            return false;
        }
    }
    true
}

/// Whether there are early calls and late ones, and each of the early is before each of the late.
pub(crate) fn lists_before(r: &Reading, early: &[u32], late: &[u32]) -> bool
    ensures { (p q : ℕ → Bool) (n : ℕ) → AreThose p n early.now → AreThose q n late.now
        → result ≡ (any_below p n && any_below q n
        && all_below (λ c. not (p c) || all_below (λ d. not (q d) || before (calls_view r.now.history.now) c d) n) n) }
{
    if early.is_empty() {
        return false;
    }
    if late.is_empty() {
        return false;
    }
    are_all_before(r, early, late)
}
