//! The variables in sight, with what they stand for.

ghost use Rattle.text_names.specs.Declarations.{names_view};
ghost use Rattle.std.specs.Prelude.{◌≡◌, ◌+◌, ◌-◌, [], IfOk, OnOk, Some, drop, length, map, option_and_then, slice_get, take};
ghost use Rattle.rp_ast.specs.View as tree;
ghost use Rattle.type_rules.specs.Matches.{bound_var, first_kind, pattern_kinds};
ghost use Rattle.type_tables.specs.Tables.{place_from};
ghost use Rattle.text_tables.specs.Seen.{tables_view};
ghost use Rattle.query_laws.specs.Sight.{Sight};
ghost use Rattle.query_bodies.specs.Expanded.{uses_of};
ghost use Rattle.reading.specs.Reads.{IsKept, back_to, sight_of, under_var, with_var};

use query_bodies::Bodies;
use rp_ast::Ident;
use rp_value::{List, Memory};
use std::alloc::Global;
use text_names::TextNames;
use text_tables::Tables;
use type_rules::Kind;
use type_tables::{VarItem, Vars};
use type_terms::{case_field, cases_of, find_case};

/// What a variable stands for.
#[derive(Clone, Copy)]
pub enum Known {
    Slot(u32),
    /// A parameter of a query.
    Param(u32),
    /// A binder, with so many around it.
    Level(u32),
}

/// Reads the expressions of one declaration.
#[derive(Drop)]
pub struct Reader<'t, 'n, 'a> {
    pub alloc: Global,
    pub tables: &'t Tables<'n, 'a>,
    pub bodies: &'t Bodies,
    pub vars: Vars<'a>,
    /// Of each variable in sight.
    pub known: List<Known>,
    /// How many binders stand around.
    pub binders: u32,
}

/// Takes out the last, if there is one.
fn drop_last(known: &mut List<Known>)
    ensures { known.new ≡ take (length known.old - 1) known.old }
{
    match known.pop() {
        Some(_) => {}
        None => {}
    }
}

/// Takes out all but the first `len`.
fn shorten(known: &mut List<Known>, len: usize)
    ensures { known.new ≡ take len known.old }
{
    let over = known.len().saturating_sub(len);
    for _gone in 0..over {
        drop_last(known);
    }
}

impl<'t, 'n, 'a> Reader<'t, 'n, 'a> {
    /// No variables. It takes no memory.
    pub fn new(alloc: Global, tables: &'t Tables<'n, 'a>, bodies: &'t Bodies) -> Reader<'t, 'n, 'a>
        ensures tables { result.tables.now ≡ tables.now }
        ensures bodies { result.bodies.now ≡ bodies.now }
        ensures vars { result.vars ≡ [] }
        ensures known { result.known ≡ [] }
        ensures binders { result.binders ≡ 0 }
    {
        Reader {
            alloc,
            tables,
            bodies,
            vars: Vars::new(alloc),
            known: List::new(alloc),
            binders: 0,
        }
    }

    pub fn names(&self) -> &'n TextNames<'a>
        ensures { names_view result.now ≡ (tables_view self.now.tables.now).names }
    {
        self.tables.names()
    }

    /// A variable comes in sight.
    pub fn bind(&mut self, name: &'a Ident, kind: Kind, known: Known) -> Result<(), Memory>
        ensures { OnOk result (self.new ≡ with_var self.old (bound_var (tree.ident_view name.now) kind) known) }
    {
        self.vars.push(VarItem {
            name: name.text.as_slice(),
            kind,
            set: true,
            fixed: true,
        })?;
        self.known.push(known)?;
        Ok(())
    }

    /// The variable of a binder comes in sight.
    pub(crate) fn bind_level(&mut self, name: &'a Ident, kind: Kind) -> Result<(), Memory>
        ensures { OnOk result (self.new ≡ under_var self.old (bound_var (tree.ident_view name.now) kind)) }
    {
        let level = self.binders;
        self.bind(name, kind, Known::Level(level))?;
        self.binders = level.checked_add(1).ok_or(Memory)?;
        Ok(())
    }

    /// All variables but the first `len` go out of sight, and all binders but so many.
    pub fn unbind(&mut self, len: usize, binders: u32)
        ensures { self.new ≡ back_to len binders self.old }
    {
        self.vars.truncate(len);
        shorten(&mut self.known, len);
        self.binders = binders;
    }

    /// What the variable of this name stands for. `Err` is that there is none.
    pub fn known(&self, name: &[u8]) -> Result<Known, Memory>
        ensures { IfOk result (λ known. option_and_then (λ place. slice_get self.now.known place)
            (place_from 0 (map (λ v. v.name) self.now.vars) name.now) ≡ Some known) }
    {
        match self.vars.place(name) {
            Some(place) => match self.known.as_slice().get(place as usize) {
                Some(known) => Ok(*known),
                None => Err(Memory),
            },
            None => Err(Memory),
        }
    }

    /// The type of the variable of a pattern at this place, for a term of this type.
    pub fn field(&self, kind: Kind, con: &[u8], place: usize) -> Result<Kind, Memory>
        ensures { IfOk result (λ field. field ≡ first_kind (drop place
            (pattern_kinds (tables_view self.now.tables.now).names kind con.now))) }
    {
        match cases_of(self.names(), kind) {
            Some(cases) => case_field(self.names(), find_case(cases, con), place),
            None => case_field(self.names(), None, place),
        }
    }
}
