// Identifiers and opaque values inside values: which of them are known, and which lie in the universe.
ghost use Rattle.std.specs.Prelude.{◌≡◌, map, find, not, ◌&&◌, option_map, option_copied, slice_get};
ghost use Rattle.std.specs.List.{list_any};
ghost use Rattle.rp_value.specs.Values.{Atom};
ghost use Rattle.rp_value.specs.ValueView.{value_view};
ghost use Rattle.rp_lang.specs.ProgramView.{program_view};
ghost use Rattle.crdt_defs.specs.Fitting as spec;
ghost use Rattle.crdt_defs.specs.SameValues.{same_val};

use crate::fitting::names_ids;
use rp_lang::Program;
use rp_value::Value;

#[tactic(auto, using(rp_value::proofs::ValueViews::value_views))]
fn is_atom(value: &Value, of: u32, number: u32) -> bool
    ensures { result ≡ same_val (Atom of number) (value_view value.now) }
{
    match value {
        Value::Atom { ty, num } => of == *ty && number == *num,
        Value::Int(_) => false,
        Value::Str(_) => false,
        Value::Con { .. } => false,
        Value::Call(_) => false,
        Value::Inv(_) => false,
    }
}

/// Whether the identifier or opaque value is one of these.
pub fn has_atom(values: &[Value], of: u32, number: u32) -> bool
    ensures { result ≡ list_any (same_val (Atom of number)) (map value_view values.now) }
{
    for value in values {
        if is_atom(value, of, number) {
            return true;
        }
    }
    false
}

/// Whether it is an identifier, and none of those that are known.
fn is_unknown(p: &Program, known: &[Value], of: u32, number: u32) -> bool
    ensures { result ≡ (spec.is_id (program_view p.now) (Atom of number)
        && not (list_any (same_val (Atom of number)) (map value_view known.now))) }
{
    names_ids(p, of) && !has_atom(known, of, number)
}

/// The first identifier inside that isn't known.
#[cycle(unknown)]
#[tactic(auto, using(rp_value::proofs::ValueViews::value_views, crate::proofs::AtomLemmas::atoms_listed))]
fn unknown_in<'a>(value: &'a Value, p: &Program, known: &[Value]) -> Option<&'a Value>
    ensures { option_map value_view (option_copied result)
        ≡ find (λ v. spec.is_id (program_view p.now) v && not (list_any (same_val v) (map value_view known.now)))
        (spec.atoms (value_view value.now)) }
{
    match value {
        Value::Atom { ty, num } => if is_unknown(p, known, *ty, *num) {
            Some(value)
        } else {
            None
        },
        Value::Con { con: _, args } => unknown(args.as_slice(), p, known),
        Value::Int(_) => None,
        Value::Str(_) => None,
        Value::Call(_) => None,
        Value::Inv(_) => None,
    }
}

/// The first identifier inside these that isn't one of those that are known.
#[cycle(unknown)]
#[tactic(auto, using(crate::proofs::AtomLemmas::found_more))]
pub fn unknown<'a>(values: &'a [Value], p: &Program, known: &[Value]) -> Option<&'a Value>
    ensures { option_map value_view (option_copied result)
        ≡ find (λ v. spec.is_id (program_view p.now) v && not (list_any (same_val v) (map value_view known.now)))
        (spec.all_atoms (map value_view values.now)) }
{
    for value in values {
        match unknown_in(value, p, known) {
            Some(found) => return Some(found),
            None => (),
        }
    }
    None
}

/// The first identifier or opaque value inside that isn't below the universe.
#[cycle(outside)]
#[tactic(auto, using(rp_value::proofs::ValueViews::value_views, crate::proofs::AtomLemmas::atoms_listed))]
fn outside_in(value: &Value, universe: u32) -> Option<&Value>
    ensures { option_map value_view (option_copied result)
        ≡ find (λ v. not (spec.is_below universe v)) (spec.atoms (value_view value.now)) }
{
    match value {
        Value::Atom { ty: _, num } => if *num < universe { None } else { Some(value) },
        Value::Con { con: _, args } => outside(args.as_slice(), universe),
        Value::Int(_) => None,
        Value::Str(_) => None,
        Value::Call(_) => None,
        Value::Inv(_) => None,
    }
}

/// The first identifier or opaque value inside these that isn't below the universe.
#[cycle(outside)]
#[tactic(auto, using(crate::proofs::AtomLemmas::found_more))]
pub fn outside(values: &[Value], universe: u32) -> Option<&Value>
    ensures { option_map value_view (option_copied result)
        ≡ find (λ v. not (spec.is_below universe v)) (spec.all_atoms (map value_view values.now)) }
{
    for value in values {
        match outside_in(value, universe) {
            Some(found) => return Some(found),
            None => (),
        }
    }
    None
}
