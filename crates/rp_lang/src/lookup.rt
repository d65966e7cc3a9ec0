//! What stands at a root, and at a field of a struct.
ghost use Rattle.std.specs.Prelude.{◌≡◌, map, slice_get, option_map, option_copied};
ghost use Rattle.rp_lang.specs.Paths as spec;
ghost use Rattle.rp_lang.specs.Views.{crdt_view, crdt_fields_view, root_view};

use crate::crdt::{Crdt, Field};
use crate::root::Root;

/// The type at the field n.
#[tactic(auto, using(crate::proofs::PathLemmas::field_seen))]
fn field_at(fields: &[Field], n: u32) -> Option<&Crdt>
    ensures { option_map crdt_view (option_copied result) ≡ spec.field_at (crdt_fields_view fields.now) n }
{
    match fields.get(n as usize) {
        Some(field) => Some(&field.crdt),
        None => None,
    }
}

/// The type at the field n of a struct.
#[tactic(auto, using(crate::proofs::CrdtViews::crdt_views))]
pub fn field_in(crdt: &Crdt, n: u32) -> Option<&Crdt>
    ensures { option_map crdt_view (option_copied result) ≡ spec.field_in (crdt_view crdt.now) n }
{
    match crdt {
        Crdt::Struct(fields) => field_at(fields.as_slice(), n),
        Crdt::SetAw(_) => None,
        Crdt::SetRw(_) => None,
        Crdt::Reg(_) => None,
        Crdt::MvReg(_) => None,
        Crdt::Counter => None,
        Crdt::MapUw(_, _) => None,
        Crdt::MapDw(_, _) => None,
    }
}

/// The type of a root.
#[tactic(auto, using(crate::proofs::PathLemmas::root_seen))]
pub fn root_crdt(roots: &[Root], root: u32) -> Option<&Crdt>
    ensures { option_map crdt_view (option_copied result) ≡ spec.root_crdt (slice_get (map root_view roots.now) root) }
{
    match roots.get(root as usize) {
        Some(root) => Some(&root.crdt),
        None => None,
    }
}
