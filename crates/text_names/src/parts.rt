//! Replicated types with their parts: the fields of structs found by their names, and what maps hold.

ghost use Rattle.std.specs.Prelude.{◌≡◌, ◌<◌, ◌++◌, ◌∷◌, [], ℕ, IfOk, OnOk, Some, length, slice_get};
ghost use Rattle.std.specs.Option.{option_and_then};
ghost use Rattle.rp_ast.specs.View.{crdt_view, decl_view, fields_view};
ghost use Rattle.type_tables.specs.Tables.{number_in};
ghost use Rattle.std.specs.Coded.{codes, le_prop};
ghost use Rattle.text_names.specs.Codes.{crdt_coded};
ghost use Rattle.text_names.specs.Parts.{AreFields, ArePlaced, IsLonger, IsPlaced, crdt_in, trees_of};

use rp_ast::{CrdtForm, CrdtNode, Decl, DeclForm, FieldNode};
use rp_value::{List, Memory};
use std::alloc::Global;
use type_tables::NameTable;

/// Where the parts of a part stand in the list.
#[derive(Drop)]
pub(crate) enum Inside<'a> {
    Nothing,
    /// Of a map: the place of what it holds at each key.
    Held(u32),
    /// Of a struct: the places of its fields, of two of one name the place of the first.
    Fields(NameTable<'a>),
}

#[derive(Drop)]
pub(crate) struct PartItem<'a> {
    pub(crate) crdt: &'a CrdtNode,
    pub(crate) inside: Inside<'a>,
}

/// Replicated types and all their parts, in one list. A part stands before that of which it is one.
#[derive(Drop)]
pub struct Parts<'a> {
    pub(crate) items: List<PartItem<'a>>,
    ghost placed: { ArePlaced items } by { Prim.hlevel (codes, crdt_coded, le_prop) },
}

impl<'a> Parts<'a> {
    /// No parts. It takes no memory.
    pub(crate) fn new(alloc: Global) -> Parts<'a>
        ensures { result.items ≡ [] }
    {
        Parts {
            items: List::new(alloc),
        }
    }

    /// One more, whose own parts stand there, and its place.
    fn put(&mut self, crdt: &'a CrdtNode, inside: Inside<'a>) -> Result<u32, Memory>
        requires { IsPlaced (trees_of self.old.items) (crdt_view crdt.now) inside }
        ensures placed { IfOk result (λ place. slice_get (trees_of self.new.items) place
            ≡ Some (crdt_view crdt.now)) }
        ensures keeps { OnOk result (trees_of self.new.items
            ≡ trees_of self.old.items ++ crdt_view crdt.now ∷ []) }
    {
        let place = self.items.count();
        self.items.push(PartItem { crdt, inside })?;
        Ok(place)
    }

    /// Adds the fields of a struct, and answers where they stand.
    #[cycle(parts)]
    fn add_fields(
        &mut self,
        alloc: Global,
        fields: &'a [FieldNode],
    ) -> Result<NameTable<'a>, Memory>
        ensures found { IfOk result (λ places. AreFields (trees_of self.new.items) (number_in places) (fields_view fields.now)) }
        ensures keeps { OnOk result (IsLonger (trees_of self.old.items) (trees_of self.new.items)) }
    {
        let mut places = NameTable::new(alloc);
        for field in fields {
            let place = self.add(alloc, &field.crdt)?;
            places.add(field.name.text.as_slice(), place)?;
        }
        Ok(places)
    }

    /// Adds the parts of a replicated type, and answers where they stand.
    #[cycle(parts)]
    fn add_inside(&mut self, alloc: Global, crdt: &'a CrdtNode) -> Result<Inside<'a>, Memory>
        ensures placed { IfOk result (λ inside. IsPlaced (trees_of self.new.items) (crdt_view crdt.now) inside) }
        ensures keeps { OnOk result (IsLonger (trees_of self.old.items) (trees_of self.new.items)) }
    {
        match &crdt.what {
            CrdtForm::MapUw(_, held) => Ok(Inside::Held(self.add(alloc, held.get())?)),
            CrdtForm::MapDw(_, held) => Ok(Inside::Held(self.add(alloc, held.get())?)),
            CrdtForm::Struct(fields) => {
                Ok(Inside::Fields(self.add_fields(alloc, fields.as_slice())?))
            }
            CrdtForm::SetAw(_)
            | CrdtForm::SetRw(_)
            | CrdtForm::Reg(_)
            | CrdtForm::MvReg(_)
            | CrdtForm::Counter => Ok(Inside::Nothing),
        }
    }

    /// Adds a replicated type with its parts, and answers where it stands.
    #[cycle(parts)]
    pub(crate) fn add(&mut self, alloc: Global, crdt: &'a CrdtNode) -> Result<u32, Memory>
        ensures placed { IfOk result (λ place. slice_get (trees_of self.new.items) place
            ≡ Some (crdt_view crdt.now)) }
        ensures keeps { OnOk result (IsLonger (trees_of self.old.items) (trees_of self.new.items)) }
    {
        let inside = self.add_inside(alloc, crdt)?;
        self.put(crdt, inside)
    }

    /// Adds the replicated type that a declaration declares, if it declares one, and answers where it
    /// stands.
    pub(crate) fn add_root(&mut self, alloc: Global, decl: &'a Decl) -> Result<Option<u32>, Memory>
        ensures placed { IfOk result (λ place. option_and_then (slice_get (trees_of self.new.items)) place
            ≡ crdt_in (decl_view decl.now)) }
        ensures within { IfOk result (λ place. (k : ℕ) → place ≡ Some k
            → k < length (trees_of self.new.items)) }
        ensures keeps { OnOk result (IsLonger (trees_of self.old.items) (trees_of self.new.items)) }
    {
        match &decl.what {
            DeclForm::Crdt(_, crdt) => Ok(Some(self.add(alloc, crdt)?)),
            DeclForm::IdType(_) => Ok(None),
            DeclForm::Opaque(_) => Ok(None),
            DeclForm::Datatype(_, _) => Ok(None),
            DeclForm::Query(_) => Ok(None),
            DeclForm::Invariant(_, _) => Ok(None),
            DeclForm::Proc(_) => Ok(None),
        }
    }
}
