//! What the declarations of a text declare.

ghost use Rattle.std.specs.Prelude.{◌≡◌, ◌++◌, ◌∷◌, [], if◌then◌else◌, IfOk, None, OnErr, OnOk, Some, length, map, slice_get};
ghost use Rattle.std.specs.Option.{option_map, unwrap_or};
ghost use Rattle.rp_grammar.specs.Trees.{CrdtTree};
ghost use Rattle.rp_ast.specs.View.{con_view, decl_view, decls_view, ident_view};
ghost use Rattle.type_rules.specs.Names as rules;
ghost use Rattle.type_rules.specs.Queries.{declared_names};
ghost use Rattle.type_rules.specs.Rules.{is_no_con as is_no_con_entry};
ghost use Rattle.type_tables.specs.Tables.{number_in, with_first};
ghost use Rattle.text_names.specs.Declarations.{names_view};
ghost use Rattle.text_names.specs.Parts.{crdt_in, roots_seen, trees_of};
ghost use Rattle.text_names.specs.Views.{declared_view, part_view, sort_view};

use crate::cons::ConList;
use crate::declared::{Declared, Item, TypeItem, TypeSort};
use crate::names::TextNames;
use crate::part::Part;
use crate::roots::Roots;
use rp_ast::{ConNode, Decl, DeclForm, Ident};
use rp_value::{List, Memory};
use std::alloc::Global;
use type_tables::NameTable;

impl<'a> TextNames<'a> {
    /// Nothing is declared. It takes no memory.
    fn new(alloc: Global) -> TextNames<'a>
        ensures { names_view result ≡ declared_names [] }
    {
        TextNames {
            types: List::new(alloc),
            type_numbers: NameTable::new(alloc),
            items: List::new(alloc),
            item_numbers: NameTable::new(alloc),
            taken: NameTable::new(alloc),
            formulas: List::new(alloc),
        }
    }

    /// Adds a type.
    fn add_type(&mut self, name: &'a Ident, decl: u32, sort: TypeSort<'a>) -> Result<(), Memory>
        ensures { OnOk result (names_view self.new ≡ record (names_view self.old) {
          types = (names_view self.old).types
              ++ rules.type_entry (ident_view name.now) decl (sort_view sort.entry);
        }) }
    {
        let name = name.text.as_slice();
        push_named(
            &mut self.types,
            &mut self.type_numbers,
            name,
            TypeItem { name, decl, sort },
        )
    }

    /// Adds a root, a query, a procedure or a constructor.
    fn add_item(&mut self, name: &'a Ident, decl: u32, what: Declared<'a>) -> Result<(), Memory>
        ensures { OnOk result (names_view self.new ≡ record (names_view self.old) {
          entries = (names_view self.old).entries
              ++ rules.entry decl (declared_view what.entry) (ident_view name.now) ∷ [];
        }) }
    {
        let name = name.text.as_slice();
        let place = self.items.count();
        push_named(
            &mut self.items,
            &mut self.item_numbers,
            name,
            Item { name, decl, what },
        )?;
        if take(&mut self.taken, name, decl, what).is_err() {
            self.item_numbers.remove(name, place);
            let _gone = self.items.pop();
            return Err(Memory);
        }
        Ok(())
    }

    /// Adds a root, where it is one.
    fn add_root(&mut self, name: &'a Ident, decl: u32, root: Option<Part<'a>>) -> Result<(), Memory>
        ensures { (c : CrdtTree) → option_map part_view root.entry ≡ Some c
            → OnOk result (names_view self.new ≡ record (names_view self.old) {
              entries = (names_view self.old).entries
                  ++ rules.entry decl (rules.Declared.root c) (ident_view name.now) ∷ [];
            }) }
    {
        match root {
            Some(part) => self.add_item(name, decl, Declared::Root(part)),
            None => Ok(()),
        }
    }

    /// Adds the constructors of the type of this number.
    fn add_cons(&mut self, number: u32, decl: u32, cons: &'a [ConNode]) -> Result<(), Memory>
        ensures { OnOk result (names_view self.new ≡ record (names_view self.old) {
          entries = (names_view self.old).entries ++ map
              (rules.con_entry decl number) (map con_view cons.now);
        }) }
    {
        for con in cons {
            self.add_item(&con.name, decl, Declared::Con(number, con))?;
        }
        Ok(())
    }

    /// Adds a datatype, behind its constructors.
    fn add_datatype(
        &mut self,
        alloc: Global,
        name: &'a Ident,
        decl: u32,
        cons: &'a List<ConNode>,
    ) -> Result<(), Memory>
        ensures { OnOk result (names_view self.new ≡ record (names_view self.old) {
          types = (names_view self.old).types
              ++ rules.type_entry (ident_view name.now) decl (rules.TypeSort.datatype (map con_view cons.now));
          entries = (names_view self.old).entries ++ map
              (rules.con_entry decl (length (names_view self.old).types)) (map con_view cons.now);
        }) }
    {
        let types = self.types.count();
        self.add_cons(types, decl, cons.as_slice())?;
        let cons = ConList::new(alloc, cons)?;
        self.add_type(name, decl, TypeSort::Datatype(cons))
    }

    /// Adds what the declaration of this number declares.
    fn add_decl(
        &mut self,
        alloc: Global,
        roots: &'a Roots<'a>,
        number: u32,
        decl: &'a Decl,
    ) -> Result<(), Memory>
        ensures { unwrap_or (slice_get (roots_seen (trees_of roots.now.parts.items) roots.now.places) number) None ≡ crdt_in (decl_view decl.now)
            → OnOk result (names_view self.new ≡ record (names_view self.old) {
              types = (names_view self.old).types
                  ++ rules.types_in number (decl_view decl.now);
              entries = (names_view self.old).entries
                  ++ rules.entries_in number (length (names_view self.old).types) (decl_view decl.now);
            }) }
    {
        match &decl.what {
            DeclForm::IdType(name) => self.add_type(name, number, TypeSort::Id),
            DeclForm::Opaque(name) => self.add_type(name, number, TypeSort::Opaque),
            DeclForm::Datatype(name, cons) => self.add_datatype(alloc, name, number, cons),
            DeclForm::Crdt(name, _) => self.add_root(name, number, roots.root(number)),
            DeclForm::Query(query) => self.add_item(&query.name, number, Declared::Query(query)),
            DeclForm::Invariant(_, _) => Ok(()),
            DeclForm::Proc(proc) => self.add_item(&proc.name, number, Declared::Proc(proc)),
        }
    }

    /// What the declarations declare. Of no query it is said yet that its body isn't a plain term.
    pub fn declared_in(
        alloc: Global,
        roots: &'a Roots<'a>,
        decls: &'a List<Decl>,
    ) -> Result<TextNames<'a>, Memory>
        ensures { roots_seen (trees_of roots.now.parts.items) roots.now.places
            ≡ map crdt_in (decls_view decls.now)
            → IfOk result (λ names. names_view names ≡ declared_names (decls_view decls.now)) }
    {
        let mut names = TextNames::new(alloc);
        for number in 0..decls.count() {
            names.add_decl(alloc, roots, number, decls.get(number as usize))?;
        }
        Ok(names)
    }
}

/// One more at the end. Its place is the number of its name, where the name has none yet.
fn push_named<'a, T: Drop>(
    items: &mut List<T>,
    numbers: &mut NameTable<'a>,
    name: &'a [u8],
    item: T,
) -> Result<(), Memory>
    ensures ok { OnOk result (items.new ≡ items.old ++ item ∷ []) }
    ensures numbered { OnOk result (number_in numbers.new ≡ with_first (number_in numbers.old) name.now (length items.old)) }
    ensures err { OnErr result (items.new ≡ items.old) }
    ensures as_before { OnErr result (numbers.new ≡ numbers.old) }
{
    let place = items.count();
    items.push(item)?;
    if numbers.add(name, place).is_err() {
        let _gone = items.pop();
        return Err(Memory);
    }
    Ok(())
}

/// Takes the name, unless it is a constructor's.
fn take<'a>(
    taken: &mut NameTable<'a>,
    name: &'a [u8],
    decl: u32,
    what: Declared,
) -> Result<(), Memory>
    ensures ok { OnOk result (number_in taken.new ≡ (if is_no_con_entry (declared_view what.entry) then with_first (number_in taken.old) name.now decl else number_in taken.old)) }
    ensures err { OnErr result (taken.new ≡ taken.old) }
{
    if is_no_con(what) {
        taken.add(name, decl)
    } else {
        Ok(())
    }
}

/// Whether it is a root, a query or a procedure.
fn is_no_con(what: Declared) -> bool
    ensures { result ≡ is_no_con_entry (declared_view what.entry) }
{
    match what {
        Declared::Root(_) | Declared::Query(_) | Declared::Proc(_) => true,
        Declared::Con(_, _) => false,
    }
}
