//! The table of types of a text's program.

ghost use Rattle.std.specs.Prelude.{◌≡◌, ◌+◌, ◌-◌, ◌++◌, ◌≤◌, IfOk, OnOk, length};
ghost use Rattle.text_names.specs.Declarations.{names_view};
ghost use Rattle.desugaring.specs.Tables as spec;
ghost use Rattle.text_tables.specs.Seen.{tables_view};
ghost use Rattle.text_tables.specs.means.Texts.{decl_of};

use crate::atoms::atom_list;
use crate::objects::sum;
use crate::tables::Tables;
use rp_value::{Bytes, DataDecl, List, Memory, TypeTable};
use std::alloc::Global;
use text_kinds::con_count;
use text_names::TextNames;
use type_rules::{Base, Kind};

/// The number behind so many from one on.
fn behind(next: u32, many: usize) -> Result<u32, Memory>
    ensures { IfOk result (λ end. end ≡ next + many) }
{
    match u32::try_from(many) {
        Ok(many) => sum(next, many),
        Err(_) => Err(Memory),
    }
}

/// The numbers from one on, up to another, which isn't among them.
fn numbers_from(alloc: Global, next: u32, end: u32) -> Result<List<u32>, Memory>
    requires { next ≤ end }
    ensures { IfOk result (λ numbers. numbers ≡ spec.up_from next (end - next)) }
{
    let mut numbers = List::new(alloc);
    for number in next..end {
        numbers.push(number)?;
    }
    Ok(numbers)
}

fn with_text(text: Bytes, more: &[u8]) -> Result<Bytes, Memory>
    ensures { IfOk result (λ whole. whole ≡ text ++ more.now) }
{
    let mut text = text;
    for byte in more {
        text.push(*byte)?;
    }
    Ok(text)
}

fn base_text<'s>(names: &'s TextNames, base: Base) -> &'s [u8]
    ensures { result.now ≡ spec.base_text (names_view names.now) base }
{
    match base {
        Base::Bool => b"Bool",
        Base::Int => b"Int",
        Base::Text => b"String",
        Base::Declared(number) => match names.type_at(number) {
            Some(item) => item.name,
            None => b"",
        },
        Base::Call => b"",
        Base::Invocation => b"",
        Base::Operation => b"",
        Base::Info => b"",
        Base::Outcome => b"",
        Base::Unknown => b"",
        Base::Open => b"",
    }
}

/// A type as a text writes it.
fn kind_text(alloc: Global, names: &TextNames, kind: Kind) -> Result<Bytes, Memory>
    ensures { IfOk result (λ text. text ≡ spec.kind_text (names_view names.now) kind) }
{
    let mut text = List::new(alloc);
    for _opened in 0..kind.maybes {
        text = with_text(text, b"Maybe[")?;
    }
    text = with_text(text, base_text(names, kind.base))?;
    for _closed in 0..kind.maybes {
        text.push(b']')?;
    }
    Ok(text)
}

/// A datatype whose constructors have these numbers.
fn data_decl(
    alloc: Global,
    names: &TextNames,
    kind: &Kind,
    next: u32,
    end: u32,
) -> Result<DataDecl, Memory>
    requires { next ≤ end }
    ensures { IfOk result (λ decl. decl ≡ decl_of (names_view names.now) kind.now next (end - next)) }
{
    let name = kind_text(alloc, names, *kind)?;
    let cons = numbers_from(alloc, next, end)?;
    Ok(DataDecl { name, cons })
}

/// The datatypes, where each one's constructors are the next ones.
fn datatypes(alloc: Global, names: &TextNames, kinds: &[Kind]) -> Result<List<DataDecl>, Memory>
    ensures { IfOk result (λ decls. decls ≡ spec.data_decls (names_view names.now) 0 kinds.now) }
{
    let mut decls = List::new(alloc);
    let mut next: u32 = 0;
    for kind in kinds {
        let end = behind(next, con_count(names, *kind))?;
        let decl = data_decl(alloc, names, kind, next, end)?;
        decls.push(decl)?;
        next = end;
    }
    Ok(decls)
}

impl<'n, 'a> Tables<'n, 'a> {
    /// The table of types.
    pub fn type_table(&self, alloc: Global) -> Result<TypeTable, Memory>
        ensures { IfOk result (λ table. table ≡ spec.type_table (tables_view self.now)) }
    {
        let atoms = atom_list(alloc, self.names())?;
        let datatypes = datatypes(alloc, self.names(), self.kinds.as_slice())?;
        Ok(TypeTable { atoms, datatypes })
    }
}
