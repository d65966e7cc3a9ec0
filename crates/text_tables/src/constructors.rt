//! The table of constructors of a text's program.

ghost use Rattle.std.specs.Prelude.{◌≡◌, ◌++◌, ◌∷◌, [], IfOk, OnOk, Some, map};
ghost use Rattle.rp_ast.specs.View.{con_view};
ghost use Rattle.type_rules.specs.Matches.{bool_cases, con_case, maybe_cases};
ghost use Rattle.type_terms.specs.Views.{cases_view};
ghost use Rattle.desugaring.specs.Tables as spec;
ghost use Rattle.text_tables.specs.Seen.{tables_view};
ghost use Rattle.text_tables.specs.means.Grown.{Grows};
ghost use Rattle.text_tables.specs.means.Cases.{cons_with};

use crate::tables::Tables;
use rp_ast::ConNode;
use rp_value::{ConDecl, ConTable, List, Memory, Ty, copy_bytes};
use std::alloc::Global;
use type_rules::Kind;
use type_terms::{Cases, cases_of};

/// Adds a constructor of this name.
fn push_con(
    alloc: Global,
    cons: &mut List<ConDecl>,
    name: &[u8],
    of: u32,
    fields: List<Ty>,
) -> Result<(), Memory>
    ensures { OnOk result (cons.new ≡ cons.old ++ spec.con_of name.now of fields ∷ []) }
{
    let name = copy_bytes(alloc, name)?;
    cons.push(ConDecl { name, of, fields })
}

impl<'n, 'a> Tables<'n, 'a> {
    /// The number of a datatype. `Err` is that it is none.
    fn number_of(&self, kind: Kind) -> Result<u32, Memory>
        ensures { IfOk result (λ number. spec.datatype_number (tables_view self.now) kind ≡ Some number) }
    {
        match self.kinds.number(kind) {
            Some(number) => Ok(number),
            None => Err(Memory),
        }
    }

    fn bool_cons(&self, alloc: Global, kind: Kind, cons: &mut List<ConDecl>) -> Result<(), Memory>
        ensures { OnOk result (Grows (spec.con_decl (tables_view self.now)) cons.old (cons_with kind bool_cases) cons.new) }
    {
        let of = self.number_of(kind)?;
        push_con(alloc, cons, b"false", of, List::new(alloc))?;
        push_con(alloc, cons, b"true", of, List::new(alloc))
    }

    /// Adds those of `Maybe` of this type.
    fn maybe_cons(
        &self,
        alloc: Global,
        kind: Kind,
        held: Kind,
        cons: &mut List<ConDecl>,
    ) -> Result<(), Memory>
        ensures { OnOk result (Grows (spec.con_decl (tables_view self.now)) cons.old (cons_with kind (maybe_cases held)) cons.new) }
    {
        let of = self.number_of(kind)?;
        let held = self.ty_of(held)?;
        push_con(alloc, cons, b"none", of, List::new(alloc))?;
        let mut fields = List::new(alloc);
        fields.push(held)?;
        push_con(alloc, cons, b"some", of, fields)
    }

    fn declared_con(
        &self,
        alloc: Global,
        kind: Kind,
        con: &ConNode,
        cons: &mut List<ConDecl>,
    ) -> Result<(), Memory>
        ensures { OnOk result (Grows (spec.con_decl (tables_view self.now)) cons.old
            (cons_with kind (con_case (tables_view self.now).names (con_view con.now) ∷ [])) cons.new) }
    {
        let of = self.number_of(kind)?;
        let fields = self.params(alloc, con.fields.as_slice())?;
        push_con(alloc, cons, con.name.text.as_slice(), of, fields)
    }

    fn declared_cons(
        &self,
        alloc: Global,
        kind: Kind,
        declared: &[ConNode],
        cons: &mut List<ConDecl>,
    ) -> Result<(), Memory>
        ensures { OnOk result (Grows (spec.con_decl (tables_view self.now)) cons.old
            (cons_with kind (map (con_case (tables_view self.now).names) (map con_view declared.now))) cons.new) }
    {
        for con in declared {
            self.declared_con(alloc, kind, con, cons)?;
        }
        Ok(())
    }

    fn cases_cons(
        &self,
        alloc: Global,
        kind: Kind,
        cases: Cases,
        cons: &mut List<ConDecl>,
    ) -> Result<(), Memory>
        ensures { OnOk result (Grows (spec.con_decl (tables_view self.now)) cons.old
            (cons_with kind (cases_view (tables_view self.now).names cases.entry)) cons.new) }
    {
        match cases {
            Cases::Bool => self.bool_cons(alloc, kind, cons),
            Cases::Maybe(held) => self.maybe_cons(alloc, kind, held, cons),
            Cases::Declared(declared) => {
                self.declared_cons(alloc, kind, declared.as_slice(), cons)
            }
        }
    }

    /// Adds the constructors of a datatype.
    fn add_cons(&self, alloc: Global, kind: &Kind, cons: &mut List<ConDecl>) -> Result<(), Memory>
        ensures { OnOk result (Grows (spec.con_decl (tables_view self.now)) cons.old
            (spec.cons_of (tables_view self.now).names kind.now) cons.new) }
    {
        match cases_of(self.names(), *kind) {
            Some(cases) => self.cases_cons(alloc, *kind, cases, cons),
            None => Ok(()),
        }
    }

    /// The table of constructors. `Err` is also that the type of a field has no number.
    pub fn con_table(&self, alloc: Global) -> Result<ConTable, Memory>
        ensures { IfOk result (λ table. spec.con_table (tables_view self.now) ≡ Some table) }
    {
        let mut cons = List::new(alloc);
        for kind in self.kinds.as_slice() {
            self.add_cons(alloc, kind, &mut cons)?;
        }
        Ok(ConTable { cons })
    }
}
