//! The datatypes of a whole text.

ghost use Rattle.std.specs.Prelude.{◌≡◌, ◌+◌, ◌++◌, [], IfOk, OnOk, length};
ghost use Rattle.rp_ast.specs.View as tree;
ghost use Rattle.text_names.specs.Declarations.{names_view};
ghost use Rattle.type_rules.specs.Names.{types_in};
ghost use Rattle.desugaring.specs.Appearances.{datatypes_of};
ghost use Rattle.text_kinds.specs.Numbered.{numbered, with_kinds};
ghost use Rattle.text_kinds.specs.Seen.{kinds_view};
ghost use Rattle.text_kinds.specs.means.Brought as means;

use crate::appearances::Seeker;
use crate::table::KindTable;
use rp_ast::{Decl, DeclForm};
use rp_value::Memory;
use std::alloc::Global;
use text_names::TextNames;

/// How many types a declaration declares.
fn type_count(decl: &DeclForm) -> u32
    ensures { result ≡ means.type_count (tree.decl_form_view decl.now) }
{
    match decl {
        DeclForm::IdType(_) => 1,
        DeclForm::Opaque(_) => 1,
        DeclForm::Datatype(_, _) => 1,
        DeclForm::Crdt(_, _) => 0,
        DeclForm::Query(_) => 0,
        DeclForm::Invariant(_, _) => 0,
        DeclForm::Proc(_) => 0,
    }
}

impl<'n, 'a> Seeker<'n, 'a> {
    /// Adds what the declarations of a text bring. Each begins with no variable in sight.
    fn decls(&mut self, decls: &'a [Decl]) -> Result<(), Memory>
        ensures { OnOk result (kinds_view self.new.kinds
            ≡ with_kinds (means.decls_bring (names_view self.old.kinds.names.now) 0 (tree.decls_view decls.now))
            (kinds_view self.old.kinds)) }
    {
        let mut types: u32 = 0;
        for decl in decls {
            self.leave(0);
            self.decl(types, &decl.what)?;
            let Some(more) = types.checked_add(type_count(&decl.what)) else {
                return Err(Memory);
            };
            types = more;
        }
        Ok(())
    }
}

/// The datatypes of a text with these names. `Err` is also a `Maybe` of a type that isn't known.
pub fn datatypes_in<'n, 'a>(
    alloc: Global,
    names: &'n TextNames<'a>,
    decls: &'a [Decl],
) -> Result<KindTable<'n, 'a>, Memory>
    ensures { IfOk result (λ kinds. kinds_view kinds ≡ numbered (names_view names.now)
        (datatypes_of (names_view names.now) (tree.decls_view decls.now))) }
{
    let mut seeker = Seeker::new(alloc, names)?;
    seeker.decls(decls)?;
    Ok(seeker.kinds)
}
