//! The table of roots of a text's program.

ghost use Rattle.std.specs.Prelude.{◌≡◌, ◌∷◌, [], IfOk, OnOk, Some, map};
ghost use Rattle.rp_ast.specs.View.{crdt_form_view, crdt_view, decl_view, decls_view, fields_view};
ghost use Rattle.rp_lang.specs.Views.{crdt_fields_view as made_fields, crdt_view as made_crdt, root_view};
ghost use Rattle.type_rules.specs.Queries.{names_of};
ghost use Rattle.desugaring.specs.Tables as spec;
ghost use Rattle.text_tables.specs.Seen.{tables_view};
ghost use Rattle.text_tables.specs.means.Grown.{grown};
ghost use Rattle.text_tables.specs.means.Rooted.{roots_in};

use crate::tables::Tables;
use rp_ast::{CrdtForm, CrdtNode, Decl, DeclForm, FieldNode};
use rp_lang::{Crdt, Field, Root};
use rp_value::{Boxed, List, Memory, copy_bytes};
use std::alloc::Global;

impl<'n, 'a> Tables<'n, 'a> {
    /// What a map holds.
    #[cycle(crdts)]
    fn held(&self, alloc: Global, crdt: &CrdtNode) -> Result<Boxed<Crdt>, Memory>
        ensures { IfOk result (λ held. spec.cr_of (tables_view self.now) (crdt_view crdt.now) ≡ Some (made_crdt held)) }
    {
        let held = self.crdt(alloc, crdt)?;
        Ok(Boxed::new(alloc, held)?)
    }

    #[cycle(crdts)]
    fn fields(&self, alloc: Global, fields: &[FieldNode]) -> Result<List<Field>, Memory>
        ensures { IfOk result (λ made. spec.fields_cr (tables_view self.now) (fields_view fields.now)
            ≡ Some (made_fields made)) }
    {
        let mut made = List::new(alloc);
        for field in fields {
            let name = copy_bytes(alloc, field.name.text.as_slice())?;
            let crdt = self.crdt(alloc, &field.crdt)?;
            made.push(Field { name, crdt })?;
        }
        Ok(made)
    }

    /// A replicated type with its parts. `Err` is also that a type in it has no number.
    #[cycle(crdts)]
    #[tactic(auto, using(rp_ast::proofs::TypeViews::crdt_views, rp_lang::proofs::CrdtViews::crdt_views))]
    fn crdt(&self, alloc: Global, crdt: &CrdtNode) -> Result<Crdt, Memory>
        ensures { IfOk result (λ made. spec.cr_of (tables_view self.now) (crdt_view crdt.now) ≡ Some (made_crdt made)) }
    {
        match &crdt.what {
            CrdtForm::SetAw(ty) => Ok(Crdt::SetAw(self.written(ty)?)),
            CrdtForm::SetRw(ty) => Ok(Crdt::SetRw(self.written(ty)?)),
            CrdtForm::Reg(ty) => Ok(Crdt::Reg(self.written(ty)?)),
            CrdtForm::MvReg(ty) => Ok(Crdt::MvReg(self.written(ty)?)),
            CrdtForm::Counter => Ok(Crdt::Counter),
            CrdtForm::MapUw(keys, held) => {
                let keys = self.written(keys)?;
                let held = self.held(alloc, held.get())?;
                Ok(Crdt::MapUw(keys, held))
            }
            CrdtForm::MapDw(keys, held) => {
                let keys = self.written(keys)?;
                let held = self.held(alloc, held.get())?;
                Ok(Crdt::MapDw(keys, held))
            }
            CrdtForm::Struct(fields) => Ok(Crdt::Struct(self.fields(alloc, fields.as_slice())?)),
        }
    }

    /// Adds the root that a declaration declares, if it declares one.
    fn add_root(&self, alloc: Global, roots: &mut List<Root>, decl: &Decl) -> Result<(), Memory>
        ensures { OnOk result (grown (spec.root_of (tables_view self.now)) (map root_view roots.old)
            (roots_in (decl_view decl.now ∷ [])) ≡ Some (map root_view roots.new)) }
    {
        match &decl.what {
            DeclForm::Crdt(name, crdt) => {
                let name = copy_bytes(alloc, name.text.as_slice())?;
                let crdt = self.crdt(alloc, crdt)?;
                roots.push(Root { name, crdt })
            }
            DeclForm::IdType(_) => Ok(()),
            DeclForm::Opaque(_) => Ok(()),
            DeclForm::Datatype(_, _) => Ok(()),
            DeclForm::Query(_) => Ok(()),
            DeclForm::Invariant(_, _) => Ok(()),
            DeclForm::Proc(_) => Ok(()),
        }
    }
}

/// The table of roots. `Err` is also that a type in one has no number.
pub fn roots_of(alloc: Global, tables: &Tables, decls: &[Decl]) -> Result<List<Root>, Memory>
    requires { (tables_view tables.now).names ≡ names_of (decls_view decls.now) }
    ensures { IfOk result (λ roots. spec.root_table (tables_view tables.now) ≡ Some (map root_view roots)) }
{
    let mut roots = List::new(alloc);
    for decl in decls {
        tables.add_root(alloc, &mut roots, decl)?;
    }
    Ok(roots)
}
