//! The procedures of a text by their numbers.

ghost use Rattle.std.specs.Prelude.{◌≡◌, ◌++◌, ◌∷◌, [], IfOk, List, OnOk};
ghost use Rattle.rp_grammar.specs.Trees.{ProcTree as SpecProc};
ghost use Rattle.rp_ast.specs.View.{decl_view, decls_view};
ghost use Rattle.text_tables.specs.means.Kept.{AreProcs, procs_in};

use crate::objects::sum;
use rp_ast::{Decl, DeclForm};
use rp_value::Memory;
use std::alloc::Global;
use type_tables::NameTable;

/// The procedures of a text by their names.
#[derive(Drop)]
pub(crate) struct ProcTable<'a> {
    pub(crate) numbers: NameTable<'a>,
    pub(crate) count: u32,
}

impl<'a> ProcTable<'a> {
    /// Adds what a declaration declares, where these are declared before.
    fn add_decl(&mut self, decl: &'a Decl) -> Result<(), Memory>
        ensures { (before : List SpecProc) → AreProcs before self.old.numbers self.old.count
            → OnOk result (AreProcs (before ++ procs_in (decl_view decl.now ∷ [])) self.new.numbers
            self.new.count) }
    {
        match &decl.what {
            DeclForm::Proc(proc) => {
                let count = self.count;
                let end = sum(count, 1)?;
                self.numbers.add(proc.name.text.as_slice(), count)?;
                self.count = end;
                Ok(())
            }
            DeclForm::IdType(_) => Ok(()),
            DeclForm::Opaque(_) => Ok(()),
            DeclForm::Datatype(_, _) => Ok(()),
            DeclForm::Crdt(_, _) => Ok(()),
            DeclForm::Query(_) => Ok(()),
            DeclForm::Invariant(_, _) => Ok(()),
        }
    }

    /// Those of these declarations.
    pub(crate) fn of(alloc: Global, decls: &'a [Decl]) -> Result<ProcTable<'a>, Memory>
        ensures { IfOk result (λ table. AreProcs (procs_in (decls_view decls.now)) table.numbers table.count) }
    {
        let mut table = ProcTable {
            numbers: NameTable::new(alloc),
            count: 0,
        };
        for decl in decls {
            table.add_decl(decl)?;
        }
        Ok(table)
    }
}
