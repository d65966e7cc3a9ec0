//! What a name stands for, and which type a text writes.

ghost use Rattle.std.specs.Prelude.{◌≡◌, IfOk, OnOk, OnErr, length, slice_get};
ghost use Rattle.std.specs.Option.{option_map};
ghost use Rattle.rp_ast.specs.View.{type_view};
ghost use Rattle.type_rules.specs.Names as rules;
ghost use Rattle.type_rules.specs.Kinds as kinds;
ghost use Rattle.type_rules.specs.Queries.{with_flag};
ghost use Rattle.type_rules.specs.Typing.{is_formula};
ghost use Rattle.text_names.specs.Declarations.{names_view};
ghost use Rattle.text_names.specs.Views.{item_view, type_item_view};
ghost use Rattle.text_names.specs.Indexed.{entry_number, is_taken_name};

use crate::declared::{Item, TypeItem};
use crate::names::TextNames;
use rp_ast::{TypeForm, TypeNode};
use rp_value::Memory;
use type_rules::{Base, Kind};

impl<'a> TextNames<'a> {
    /// How many types are declared.
    pub fn type_count(&self) -> u32
        ensures { result ≡ length (names_view self.now).types }
    {
        self.types.count()
    }

    /// How many roots, queries, procedures and constructors are declared.
    pub fn item_count(&self) -> u32
        ensures { result ≡ length (names_view self.now).entries }
    {
        self.items.count()
    }

    /// The number of the type that the name stands for.
    pub fn type_number(&self, name: &[u8]) -> Option<u32>
        ensures { result ≡ rules.type_number (names_view self.now) name.now }
    {
        self.type_numbers.number(name)
    }

    /// The type of this number.
    pub fn type_at(&self, number: u32) -> Option<&TypeItem<'a>>
        ensures { option_map (λ item. type_item_view item.now) result
            ≡ slice_get (names_view self.now).types number }
    {
        self.types.as_slice().get(number as usize)
    }

    /// The type that the name stands for.
    pub fn type_named(&self, name: &[u8]) -> Option<&TypeItem<'a>>
        ensures { option_map (λ item. type_item_view item.now) result
            ≡ rules.type_named (names_view self.now) name.now }
    {
        match self.type_number(name) {
            Some(number) => self.type_at(number),
            None => None,
        }
    }

    /// The number, among roots, queries, procedures and constructors, of the first of this name.
    pub fn item_number(&self, name: &[u8]) -> Option<u32>
        ensures { result ≡ entry_number (names_view self.now) name.now }
    {
        self.item_numbers.number(name)
    }

    /// The root, query, procedure or constructor that the name stands for.
    pub fn item_named(&self, name: &[u8]) -> Option<Item<'a>>
        ensures { option_map item_view result ≡ rules.entry_named (names_view self.now) name.now }
    {
        let number = self.item_numbers.number(name)? as usize;
        let item = self.items.as_slice().get(number)?;
        Some(*item)
    }

    /// Whether a root, a query or a procedure has the name.
    pub fn is_taken(&self, name: &[u8]) -> bool
        ensures { result ≡ is_taken_name (names_view self.now) name.now }
    {
        self.taken.number(name).is_some()
    }

    /// Whether the declaration of this number is a query whose body isn't a plain term.
    pub fn is_formula(&self, decl: u32) -> bool
        ensures { result ≡ is_formula (names_view self.now) decl }
    {
        match self.formulas.as_slice().get(decl as usize) {
            Some(flag) => *flag,
            None => false,
        }
    }

    /// Says of the next declaration whether it is a query whose body isn't a plain term.
    pub fn push_formula(&mut self, flag: bool) -> Result<(), Memory>
        ensures ok { OnOk result (names_view self.new ≡ with_flag (names_view self.old) flag) }
        ensures err { OnErr result (names_view self.new ≡ names_view self.old) }
    {
        self.formulas.push(flag)
    }

    /// What a name is as a type.
    fn named_base(&self, name: &[u8]) -> Base
        ensures { result ≡ (kinds.named_kind (rules.type_number (names_view self.now) name.now)).base }
    {
        match self.type_number(name) {
            Some(number) => Base::Declared(number),
            None => Base::Unknown,
        }
    }

    /// What a type is under its `Maybe`s.
    pub fn base_of(&self, ty: &TypeNode) -> Base
        ensures { result ≡ (kinds.kind_of (names_view self.now) (type_view ty.now)).base }
    {
        match &ty.what {
            TypeForm::Named(name) => self.named_base(name.as_slice()),
            TypeForm::Bool => Base::Bool,
            TypeForm::Int => Base::Int,
            TypeForm::Text => Base::Text,
            TypeForm::Maybe(inside) => self.base_of(inside.get()),
            TypeForm::Call => Base::Call,
            TypeForm::Invocation => Base::Invocation,
        }
    }

    /// The type that a text writes.
    pub fn kind_of(&self, ty: &TypeNode) -> Result<Kind, Memory>
        ensures { IfOk result (λ kind. kind ≡ kinds.kind_of (names_view self.now) (type_view ty.now)) }
    {
        Ok(Kind {
            base: self.base_of(ty),
            maybes: maybes_of(ty)?,
        })
    }
}

/// How many `Maybe`s stand around a type.
fn maybes_of(ty: &TypeNode) -> Result<u32, Memory>
    ensures { (n : rules.Names)
        → IfOk result (λ maybes. maybes ≡ (kinds.kind_of n (type_view ty.now)).maybes) }
{
    match &ty.what {
        TypeForm::Maybe(inside) => match maybes_of(inside.get())?.checked_add(1) {
            Some(maybes) => Ok(maybes),
            None => Err(Memory),
        },
        TypeForm::Named(_)
        | TypeForm::Bool
        | TypeForm::Int
        | TypeForm::Text
        | TypeForm::Call
        | TypeForm::Invocation => Ok(0),
    }
}
