//! The replicated types of a text's declarations.

ghost use Rattle.std.specs.Prelude.{◌≡◌, IfOk, None, map, slice_get};
ghost use Rattle.std.specs.Option.{option_map, unwrap_or};
ghost use Rattle.rp_ast.specs.View.{decls_view};
ghost use Rattle.text_names.specs.Parts.{AreWithin, crdt_in, roots_seen, trees_of};
ghost use Rattle.text_names.specs.Views.{part_view};

use crate::part::Part;
use crate::parts::Parts;
use rp_ast::Decl;
use rp_value::{List, Memory};
use std::alloc::Global;

/// Of each declaration of a text the replicated type that it declares, if it declares one.
#[derive(Drop)]
pub struct Roots<'a> {
    parts: Parts<'a>,
    places: List<Option<u32>>,
    ghost within: { AreWithin (trees_of parts.items) places },
}

impl<'a> Roots<'a> {
    /// Those of these declarations.
    pub fn of(alloc: Global, decls: &'a [Decl]) -> Result<Roots<'a>, Memory>
        ensures { IfOk result (λ roots. roots_seen (trees_of roots.parts.items) roots.places
            ≡ map crdt_in (decls_view decls.now)) }
    {
        let mut parts = Parts::new(alloc);
        let mut places = List::new(alloc);
        for decl in decls {
            let place = parts.add_root(alloc, decl)?;
            places.push(place)?;
        }
        Ok(Roots { parts, places })
    }

    /// That of the declaration of this number.
    pub fn root(&'a self, decl: u32) -> Option<Part<'a>>
        ensures { option_map part_view result
            ≡ unwrap_or (slice_get (roots_seen (trees_of self.now.parts.items) self.now.places) decl) None }
    {
        match self.places.as_slice().get(decl as usize) {
            Some(Some(place)) => Some(Part {
                parts: &self.parts,
                place: *place,
            }),
            _ => None,
        }
    }
}
