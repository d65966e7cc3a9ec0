ghost use Rattle.std.specs.Prelude.{◌≡◌, IfSome, slice_get};
ghost use Rattle.std.specs.Option.{option_map, option_map_or};
ghost use Rattle.rp_ast.specs.View.{crdt_view, type_view};
ghost use Rattle.type_rules.specs.Names.{Names};
ghost use Rattle.type_rules.specs.Kinds.{kind_of};
ghost use Rattle.type_rules.specs.Paths as spec;
ghost use Rattle.text_names.specs.Parts.{IsPlaced, no_part, trees_of};
ghost use Rattle.text_names.specs.Views.{part_view};

use crate::parts::{Inside, PartItem, Parts};
use rp_ast::{CrdtForm, CrdtNode, TypeNode};

/// A replicated type or a part of one, by its place in a list.
#[derive(Clone, Copy)]
pub struct Part<'a> {
    pub parts: &'a Parts<'a>,
    pub place: u32,
}

impl<'a> Part<'a> {
    fn item(&self) -> Option<&'a PartItem<'a>>
        ensures tree { option_map (λ item. crdt_view item.now.crdt.now) result
            ≡ slice_get (trees_of self.now.parts.now.items) self.now.place }
        ensures placed { IfSome result (λ item. IsPlaced (trees_of self.now.parts.now.items) (crdt_view item.now.crdt.now) item.now.inside) }
    {
        self.parts.items.as_slice().get(self.place as usize)
    }

    /// The replicated type that it is.
    pub fn crdt(&self) -> Option<&'a CrdtNode>
        ensures { option_map_or (λ crdt. crdt_view crdt.now) result no_part ≡ part_view self.now }
    {
        match self.item() {
            Some(item) => Some(item.crdt),
            None => None,
        }
    }

    /// What stands at a field of a struct.
    pub fn field(&self, name: &[u8]) -> Option<Part<'a>>
        ensures { option_map part_view result ≡ spec.at_field (part_view self.now) name.now }
    {
        match self.item() {
            Some(item) => match &item.inside {
                Inside::Fields(places) => match places.number(name) {
                    Some(place) => Some(Part {
                        parts: self.parts,
                        place,
                    }),
                    None => None,
                },
                Inside::Nothing => None,
                Inside::Held(_) => None,
            },
            None => None,
        }
    }

    /// What a map holds at each key.
    pub fn held(&self) -> Option<Part<'a>>
        ensures { (n : Names) → option_map part_view result ≡ option_map (λ parts. parts.held)
            (spec.map_parts n (part_view self.now)) }
    {
        match self.item() {
            Some(
                PartItem {
                    inside: Inside::Held(place),
                    ..
                },
            ) => Some(Part {
                parts: self.parts,
                place: *place,
            }),
            _ => None,
        }
    }

    /// The type of a map's keys.
    pub fn keys(&self) -> Option<&'a TypeNode>
        ensures { (n : Names)
            → option_map (λ ty. kind_of n (type_view ty.now)) result ≡ option_map (λ parts. parts.keys)
            (spec.map_parts n (part_view self.now)) }
    {
        match self.crdt() {
            Some(crdt) => match &crdt.what {
                CrdtForm::MapUw(keys, _) | CrdtForm::MapDw(keys, _) => Some(keys),
                CrdtForm::SetAw(_)
                | CrdtForm::SetRw(_)
                | CrdtForm::Reg(_)
                | CrdtForm::MvReg(_)
                | CrdtForm::Counter
                | CrdtForm::Struct(_) => None,
            },
            None => None,
        }
    }
}
