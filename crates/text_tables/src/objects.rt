//! The replicated types of a text with the numbers of their operations and queries.

ghost use Rattle.std.specs.Prelude.{◌≡◌, ◌+◌, ◌∷◌, [], ℕ, IfOk, List, OnOk, Some, false, length, slice_get, true};
ghost use Rattle.rp_ast.specs.View.{crdt_form_view, crdt_view, decl_view, decls_view, fields_view};
ghost use Rattle.type_rules.specs.Paths.{form_of};
ghost use Rattle.text_tables.specs.declared.object.Object.{Object as TheObject};
ghost use Rattle.text_tables.specs.means.Counted as means;
ghost use Rattle.text_tables.specs.means.Counted.{crdts_in};
ghost use Rattle.text_tables.specs.means.Kept.{AreObjects};
ghost use Rattle.text_tables.specs.means.Walked.{Adds, AddsFields, AddsInside, AddsOn, AddsRoots};

use crate::object::{Object, ObjectTable};
use rp_ast::{CrdtForm, CrdtNode, Decl, DeclForm, FieldNode};
use rp_value::{List, Memory};
use std::alloc::Global;

pub(crate) fn sum(a: u32, b: u32) -> Result<u32, Memory>
    ensures { IfOk result (λ k. k ≡ a + b) }
{
    match a.checked_add(b) {
        Some(k) => Ok(k),
        None => Err(Memory),
    }
}

/// How many operations a type has itself.
fn own_ops(crdt: &CrdtNode) -> u32
    ensures { result ≡ means.own_many true (crdt_form_view crdt.now.what) }
{
    match &crdt.what {
        CrdtForm::SetAw(_) => 2,
        CrdtForm::SetRw(_) => 2,
        CrdtForm::Reg(_) => 1,
        CrdtForm::MvReg(_) => 1,
        CrdtForm::Counter => 1,
        CrdtForm::MapUw(_, _) => 1,
        CrdtForm::MapDw(_, _) => 1,
        CrdtForm::Struct(_) => 0,
    }
}

/// How many queries a type has itself.
fn own_queries(crdt: &CrdtNode) -> u32
    ensures { result ≡ means.own_many false (crdt_form_view crdt.now.what) }
{
    match &crdt.what {
        CrdtForm::SetAw(_) => 1,
        CrdtForm::SetRw(_) => 1,
        CrdtForm::Reg(_) => 1,
        CrdtForm::MvReg(_) => 1,
        CrdtForm::Counter => 1,
        CrdtForm::MapUw(_, _) => 1,
        CrdtForm::MapDw(_, _) => 1,
        CrdtForm::Struct(_) => 0,
    }
}

/// An object that begins there.
fn starting(object: Object, from: u32) -> Result<Object, Memory>
    ensures is { IfOk result (λ found. found ≡ object) }
    ensures starts { IfOk result (λ found. object.from ≡ from) }
{
    if object.from == from {
        Ok(object)
    } else {
        Err(Memory)
    }
}

impl ObjectTable {
    /// No objects. It takes no memory.
    fn new(alloc: Global) -> ObjectTable
        ensures objects { result.objects ≡ [] }
        ensures ops { result.ops ≡ 0 }
        ensures queries { result.queries ≡ 0 }
        ensures roots { result.roots ≡ 0 }
    {
        ObjectTable {
            starts: List::new(alloc),
            end: 0,
            objects: List::new(alloc),
            ops: 0,
            queries: 0,
            roots: 0,
        }
    }

    /// Adds an object that begins there, which has so many operations and queries itself. `Err` is also
    /// that it doesn't begin behind all others, as each of a text does.
    fn add_object(&mut self, from: u32, own_ops: u32, own_queries: u32) -> Result<(), Memory>
        ensures { OnOk result (Adds self.old (means.object from self.old.ops self.old.queries ∷ []) own_ops own_queries self.new) }
    {
        if from < self.end {
            return Err(Memory);
        }
        let end = sum(from, 1)?;
        let ops = sum(self.ops, own_ops)?;
        let queries = sum(self.queries, own_queries)?;
        let object = Object {
            from,
            ops: self.ops,
            queries: self.queries,
        };
        self.starts.push(from)?;
        if self.objects.push(object).is_err() {
            let _gone = self.starts.pop();
            return Err(Memory);
        }
        self.end = end;
        self.ops = ops;
        self.queries = queries;
        Ok(())
    }

    #[cycle(objects)]
    fn add_fields(&mut self, fields: &[FieldNode]) -> Result<(), Memory>
        ensures { OnOk result (AddsFields self.old (fields_view fields.now) self.new) }
    {
        for field in fields {
            self.add_crdt(&field.crdt)?;
        }
        Ok(())
    }

    #[cycle(objects)]
    fn add_inside(&mut self, form: &CrdtForm) -> Result<(), Memory>
        ensures { OnOk result (AddsInside self.old (crdt_form_view form.now) self.new) }
    {
        match form {
            CrdtForm::MapUw(_, held) => self.add_crdt(held.get()),
            CrdtForm::MapDw(_, held) => self.add_crdt(held.get()),
            CrdtForm::Struct(fields) => self.add_fields(fields.as_slice()),
            CrdtForm::SetAw(_) => Ok(()),
            CrdtForm::SetRw(_) => Ok(()),
            CrdtForm::Reg(_) => Ok(()),
            CrdtForm::MvReg(_) => Ok(()),
            CrdtForm::Counter => Ok(()),
        }
    }

    /// Adds a replicated type and its parts.
    #[cycle(objects)]
    fn add_crdt(&mut self, crdt: &CrdtNode) -> Result<(), Memory>
        ensures { OnOk result (AddsOn self.old (crdt_view crdt.now) self.new) }
    {
        self.add_object(crdt.span.from, own_ops(crdt), own_queries(crdt))?;
        self.add_inside(&crdt.what)
    }

    fn add_root(&mut self, crdt: &CrdtNode) -> Result<(), Memory>
        ensures { OnOk result (AddsRoots self.old (crdt_view crdt.now ∷ []) self.new) }
    {
        self.add_crdt(crdt)?;
        let roots = sum(self.roots, 1)?;
        self.roots = roots;
        Ok(())
    }

    /// Adds the root that a declaration declares, if it declares one.
    fn add_decl(&mut self, decl: &Decl) -> Result<(), Memory>
        ensures { OnOk result (AddsRoots self.old (crdts_in (decl_view decl.now ∷ [])) self.new) }
    {
        match &decl.what {
            DeclForm::Crdt(_, crdt) => self.add_root(crdt),
            DeclForm::IdType(_) => Ok(()),
            DeclForm::Opaque(_) => Ok(()),
            DeclForm::Datatype(_, _) => Ok(()),
            DeclForm::Query(_) => Ok(()),
            DeclForm::Invariant(_, _) => Ok(()),
            DeclForm::Proc(_) => Ok(()),
        }
    }

    /// Those of these declarations.
    pub(crate) fn of(alloc: Global, decls: &[Decl]) -> Result<ObjectTable, Memory>
        ensures { IfOk result (λ table. AreObjects (crdts_in (decls_view decls.now)) table.objects table.ops
            table.roots) }
    {
        let mut table = ObjectTable::new(alloc);
        for decl in decls {
            table.add_decl(decl)?;
        }
        Ok(table)
    }

    /// That at this place, where it begins there.
    fn object_at(&self, place: usize, from: u32) -> Result<Object, Memory>
        ensures { (i : ℕ) (object : TheObject) → slice_get self.now.objects i ≡ Some object
            → object.from ≡ from → IfOk result (λ found. found ≡ object) }
    {
        if place < self.objects.len() {
            starting(*self.objects.get(place), from)
        } else {
            Err(Memory)
        }
    }

    /// That which begins there.
    pub(crate) fn object(&self, from: u32) -> Result<Object, Memory>
        ensures { (i : ℕ) (object : TheObject) → slice_get self.now.objects i ≡ Some object
            → object.from ≡ from → IfOk result (λ found. found ≡ object) }
    {
        match self.starts.as_slice().binary_search(&from) {
            Ok(place) => self.object_at(place, from),
            Err(_) => Err(Memory),
        }
    }
}
