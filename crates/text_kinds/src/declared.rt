//! The datatypes that declarations of types and replicated objects bring.

ghost use Rattle.std.specs.Prelude.{◌≡◌, OnOk, flat_map};
ghost use Rattle.rp_ast.specs.View as tree;
ghost use Rattle.type_rules.specs.Kinds as spec;
ghost use Rattle.type_rules.specs.Kinds.{kind_of};
ghost use Rattle.desugaring.specs.Appearances.{crdt_kinds, fields_kinds, parts};
ghost use Rattle.text_names.specs.Declarations.{names_view};
ghost use Rattle.text_kinds.specs.Numbered.{with_kinds};
ghost use Rattle.text_kinds.specs.Seen.{kinds_view};
ghost use Rattle.text_kinds.specs.means.Brought.{params_bring};

use crate::table::KindTable;
use rp_ast::{CrdtForm, CrdtNode, FieldNode, Param, TypeNode};
use rp_value::Memory;
use type_tables::maybe_of;

impl<'n, 'a> KindTable<'n, 'a> {
    /// Adds what stands in a type that the text writes.
    pub(crate) fn add_written(&mut self, ty: &TypeNode) -> Result<(), Memory>
        ensures { OnOk result (kinds_view self.new ≡ with_kinds (parts (names_view self.old.names.now)
            (kind_of (names_view self.old.names.now) (tree.type_view ty.now))) (kinds_view self.old)) }
    {
        let kind = self.names.kind_of(ty)?;
        self.add(kind)
    }

    pub(crate) fn add_params(&mut self, params: &[Param]) -> Result<(), Memory>
        ensures { OnOk result (kinds_view self.new ≡ with_kinds (params_bring (names_view self.old.names.now)
            (tree.params_view params.now)) (kinds_view self.old)) }
    {
        for param in params {
            self.add_written(&param.ty)?;
        }
        Ok(())
    }

    /// A register answers `Maybe` of its type.
    fn add_register(&mut self, ty: &TypeNode) -> Result<(), Memory>
        ensures { OnOk result (kinds_view self.new ≡ with_kinds (parts (names_view self.old.names.now)
            (spec.maybe_of (kind_of (names_view self.old.names.now) (tree.type_view ty.now)))) (kinds_view self.old)) }
    {
        let kind = maybe_of(self.names.kind_of(ty)?)?;
        self.add(kind)
    }

    /// Adds what a replicated type is over.
    #[cycle(crdts)]
    pub(crate) fn add_crdt(&mut self, crdt: &CrdtNode) -> Result<(), Memory>
        ensures { OnOk result (kinds_view self.new ≡ with_kinds
            (crdt_kinds (names_view self.old.names.now) (tree.crdt_view crdt.now)) (kinds_view self.old)) }
    {
        match &crdt.what {
            CrdtForm::SetAw(ty) => self.add_written(ty),
            CrdtForm::SetRw(ty) => self.add_written(ty),
            CrdtForm::MvReg(ty) => self.add_written(ty),
            CrdtForm::Reg(ty) => self.add_register(ty),
            CrdtForm::Counter => Ok(()),
            CrdtForm::MapUw(keys, held) => {
                self.add_written(keys)?;
                self.add_crdt(held.get())
            }
            CrdtForm::MapDw(keys, held) => {
                self.add_written(keys)?;
                self.add_crdt(held.get())
            }
            CrdtForm::Struct(fields) => self.add_in_fields(fields.as_slice()),
        }
    }

    #[cycle(crdts)]
    fn add_in_fields(&mut self, fields: &[FieldNode]) -> Result<(), Memory>
        ensures { OnOk result (kinds_view self.new ≡ with_kinds
            (fields_kinds (names_view self.old.names.now) (tree.fields_view fields.now)) (kinds_view self.old)) }
    {
        for field in fields {
            self.add_crdt(&field.crdt)?;
        }
        Ok(())
    }
}
