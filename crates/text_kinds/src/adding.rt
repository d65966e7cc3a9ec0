//! Datatypes that come to a table.

ghost use Rattle.std.specs.Prelude.{◌≡◌, ◌<◌, ◌+◌, ◌++◌, ◌∷◌, [], IfOk, OnErr, OnOk, flat_map, length, map};
ghost use Rattle.rp_ast.specs.View as tree;
ghost use Rattle.type_rules.specs.Kinds.{param_kinds, plain_kind as plain};
ghost use Rattle.desugaring.specs.Appearances.{base_parts, field_kinds, maybes_of, parts};
ghost use Rattle.desugaring.specs.Tables.{cons_of};
ghost use Rattle.text_names.specs.Declarations.{names_view};
ghost use Rattle.text_kinds.specs.Numbered.{with_kinds};
ghost use Rattle.text_kinds.specs.Seen.{kinds_view};
ghost use Rattle.text_kinds.specs.means.Rows as means;
ghost use Rattle.text_kinds.specs.means.Rows.{Adds, IsReady, before, declared_parts, numbers, parts_before};

use crate::kinds::{con_count, place_of};
use crate::numbers::Numbers;
use crate::table::KindTable;
use rp_ast::{ConNode, Param};
use rp_value::{List, Memory};
use text_names::TypeSort;
use type_rules::{Base, Kind};
use type_tables::plain_kind;

fn declared_number(base: Base) -> Option<u32>
    ensures { result ≡ means.declared_number base }
{
    match base {
        Base::Declared(number) => Some(number),
        Base::Bool => None,
        Base::Int => None,
        Base::Text => None,
        Base::Call => None,
        Base::Invocation => None,
        Base::Operation => None,
        Base::Info => None,
        Base::Outcome => None,
        Base::Unknown => None,
        Base::Open => None,
    }
}

/// One more number in the row at a place, which is there.
fn put(rows: &mut Vec<List<Numbers>>, place: usize, numbers: Numbers) -> Result<(), Memory>
    requires { place < length rows.old.items }
    ensures ok { OnOk result (rows.new.items ≡ means.with_row rows.old.items place numbers) }
    ensures err { OnErr result (rows.new.items ≡ rows.old.items) }
{
    rows[place].push(numbers)
}

/// Whether the row at a place has so many numbers.
fn is_next(rows: &[List<Numbers>], place: usize, many: usize) -> bool
    ensures { result ≡ means.is_next rows.now place many }
{
    match rows.get(place) {
        Some(row) => row.len() == many,
        None => false,
    }
}

impl<'n, 'a> KindTable<'n, 'a> {
    /// The numbers of the next datatype.
    fn next(&self) -> Numbers
        ensures { result ≡ numbers (length self.now.kinds)
            (length (flat_map (cons_of (names_view self.now.names.now)) self.now.kinds)) }
    {
        Numbers {
            number: self.kinds.count(),
            first: self.cons,
        }
    }

    /// How many constructors there are with those of one more datatype.
    fn cons_with(&self, kind: Kind) -> Result<u32, Memory>
        ensures { IfOk result (λ cons. cons
            ≡ length (flat_map (cons_of (names_view self.now.names.now)) (self.now.kinds ++ kind ∷ []))) }
    {
        match u32::try_from(con_count(self.names, kind)) {
            Ok(own) => match self.cons.checked_add(own) {
                Some(cons) => Ok(cons),
                None => Err(Memory),
            },
            Err(_) => Err(Memory),
        }
    }

    /// Adds a datatype without a `Maybe`. If it is declared, the datatypes of its fields are there.
    pub(crate) fn add_own(&mut self, base: Base) -> Result<(), Memory>
        requires { IsReady (kinds_view self.old) base }
        ensures { OnOk result (Adds (plain base ∷ []) (kinds_view self.old) (kinds_view self.new)) }
    {
        let kind = plain_kind(base);
        if self.has(kind) {
            return Ok(());
        }
        let Some(place) = place_of(base) else {
            return Err(Memory);
        };
        if place >= self.own.len() {
            return Err(Memory);
        }
        let numbers = self.next();
        let cons = self.cons_with(kind)?;
        self.kinds.push(kind)?;
        self.own[place] = Some(numbers);
        self.cons = cons;
        Ok(())
    }

    /// Adds `Maybe` of a type under so many `Maybe`s, where all these are there.
    fn add_maybe(&mut self, base: Base, held: u32) -> Result<(), Memory>
        ensures { OnOk result (Adds (record { base = base; maybes = held + 1 } ∷ []) (kinds_view self.old)
            (kinds_view self.new)) }
    {
        let Some(maybes) = held.checked_add(1) else {
            return Err(Memory);
        };
        let kind = Kind { base, maybes };
        if self.has(kind) {
            return Ok(());
        }
        let Some(place) = place_of(base) else {
            return Err(Memory);
        };
        if !is_next(self.maybes.as_slice(), place, held as usize) {
            return Err(Memory);
        }
        let numbers = self.next();
        let cons = self.cons_with(kind)?;
        self.kinds.push(kind)?;
        if put(&mut self.maybes, place, numbers).is_err() {
            let _ = self.kinds.pop();
            return Err(Memory);
        }
        self.cons = cons;
        Ok(())
    }

    /// Adds `Maybe` of a type, `Maybe` of that, and so on.
    fn add_maybes(&mut self, base: Base, many: u32) -> Result<(), Memory>
        ensures { OnOk result (Adds (maybes_of base many) (kinds_view self.old) (kinds_view self.new)) }
    {
        for held in 0..many {
            self.add_maybe(base, held)?;
        }
        Ok(())
    }

    /// Adds the datatypes of these fields, where only the first types, so many, are declared.
    #[cycle(inner)]
    fn add_fields(&mut self, types: u32, fields: &[Param]) -> Result<(), Memory>
        ensures { OnOk result (Adds (flat_map (parts_before (names_view self.old.names.now) types)
            (param_kinds (names_view self.old.names.now) (tree.params_view fields.now))) (kinds_view self.old)
            (kinds_view self.new)) }
    {
        for field in fields {
            let kind = self.names.kind_of(&field.ty)?;
            self.add_before(types, kind)?;
        }
        Ok(())
    }

    /// Adds the datatypes of the fields of these constructors.
    #[cycle(inner)]
    fn add_cons(&mut self, types: u32, cons: &[ConNode]) -> Result<(), Memory>
        ensures { OnOk result (Adds (flat_map (parts_before (names_view self.old.names.now) types)
            (field_kinds (names_view self.old.names.now) (map tree.con_view cons.now))) (kinds_view self.old)
            (kinds_view self.new)) }
    {
        for con in cons {
            self.add_fields(types, con.fields.as_slice())?;
        }
        Ok(())
    }

    /// Adds a declared datatype behind the datatypes of its fields.
    #[cycle(inner)]
    fn add_declared(&mut self, number: u32) -> Result<(), Memory>
        ensures { OnOk result (Adds (declared_parts (names_view self.old.names.now) number) (kinds_view self.old)
            (kinds_view self.new)) }
    {
        if self.has(plain_kind(Base::Declared(number))) {
            return Ok(());
        }
        let names = self.names;
        match names.type_at(number) {
            Some(item) => match &item.sort {
                TypeSort::Datatype(cons) => {
                    self.add_cons(number, cons.as_slice())?;
                    self.add_own(Base::Declared(number))
                }
                TypeSort::Id => Ok(()),
                TypeSort::Opaque => Ok(()),
            },
            None => Ok(()),
        }
    }

    /// Adds the datatypes of what stands under `Maybe`s, where only the first types, so many, are declared.
    #[cycle(inner)]
    fn add_base(&mut self, types: u32, base: Base) -> Result<(), Memory>
        ensures { OnOk result (Adds (base_parts (names_view self.old.names.now) (before (names_view self.old.names.now) types)
            base) (kinds_view self.old) (kinds_view self.new)) }
    {
        match declared_number(base) {
            Some(number) => if number < types {
                self.add_declared(number)
            } else {
                Ok(())
            },
            None => Ok(()),
        }
    }

    /// Adds the datatypes inside a type, and then itself.
    #[cycle(inner)]
    fn add_before(&mut self, types: u32, kind: Kind) -> Result<(), Memory>
        ensures { OnOk result (Adds (parts_before (names_view self.old.names.now) types kind) (kinds_view self.old)
            (kinds_view self.new)) }
    {
        self.add_base(types, kind.base)?;
        self.add_maybes(kind.base, kind.maybes)
    }

    /// Adds the datatypes inside a type, and then itself. `Err` is also a `Maybe` of a type that isn't known.
    pub fn add(&mut self, kind: Kind) -> Result<(), Memory>
        ensures { OnOk result (kinds_view self.new ≡ with_kinds (parts (names_view self.old.names.now) kind)
            (kinds_view self.old)) }
    {
        self.add_before(self.names.type_count(), kind)
    }
}
