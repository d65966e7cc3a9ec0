//! The numbers of a text's roots, operations, queries, procedures and constructors.

ghost use Rattle.std.specs.Prelude.{◌≡◌, ◌+◌, ℕ, IfOk, OnErr, None, Some, if◌then◌else◌, length};
ghost use Rattle.rp_grammar.specs.Trees.{StepTrees};
ghost use Rattle.rp_ast.specs.View.{crdt_view, decls_view};
ghost use Rattle.rp_lang.specs.Exprs.{Ex};
ghost use Rattle.type_rules.specs.Names.{Name};
ghost use Rattle.type_rules.specs.Paths.{Member as SpecMember};
ghost use Rattle.type_rules.specs.Queries.{names_of};
ghost use Rattle.type_terms.specs.Members.{does_view};
ghost use Rattle.text_names.specs.Declarations.{names_view};
ghost use Rattle.desugaring.specs.Callees.{Called, on_root, taking};
ghost use Rattle.desugaring.specs.Objects.{keys_on};
ghost use Rattle.desugaring.specs.Tables as spec;
ghost use Rattle.text_tables.specs.Called.{LeadsTo, callee_of};
ghost use Rattle.text_tables.specs.Seen.{tables_view};
ghost use Rattle.text_tables.specs.means.Placed.{number_at};

use crate::atoms::atoms_before;
use crate::object::{Object, ObjectTable};
use crate::objects::sum;
use crate::procs::ProcTable;
use crate::tables::Tables;
use rp_ast::{CrdtNode, Decl};
use rp_value::Memory;
use std::alloc::Global;
use text_kinds::datatypes_in;
use text_names::TextNames;
use type_rules::Kind;
use type_terms::Does;

/// The number of what does this and stands on the object, among the operations or among the queries.
fn number_on(object: Object, does: Does) -> Result<u32, Memory>
    ensures { IfOk result (λ number. number ≡ number_at object (does_view does)) }
{
    match does {
        Does::Adds => sum(object.ops, 1),
        Does::Removes => sum(object.ops, 2),
        Does::Assigns => sum(object.ops, 1),
        Does::Increments => sum(object.ops, 1),
        Does::Deletes => sum(object.ops, 1),
        Does::Contains => Ok(object.queries),
        Does::HasKey => Ok(object.queries),
        Does::GetsValue => Ok(object.queries),
        Does::GetsSum => Ok(object.queries),
    }
}

impl<'n, 'a> Tables<'n, 'a> {
    /// Those of a text with these names. `Err` is also a `Maybe` of a type that isn't known, and a
    /// replicated type that doesn't begin behind those before it.
    pub fn of(
        alloc: Global,
        names: &'n TextNames<'a>,
        decls: &'a [Decl],
    ) -> Result<Tables<'n, 'a>, Memory>
        requires { names_view names.now ≡ names_of (decls_view decls.now) }
        ensures { IfOk result (λ tables. tables_view tables ≡ spec.tables_of (decls_view decls.now)) }
    {
        let atoms = atoms_before(alloc, names)?;
        let objects = ObjectTable::of(alloc, decls)?;
        let kinds = datatypes_in(alloc, names, decls)?;
        let procs = ProcTable::of(alloc, decls)?;
        Ok(Tables {
            kinds,
            atoms,
            procs,
            objects,
        })
    }

    /// The names of the text.
    pub fn names(&self) -> &'n TextNames<'a>
        ensures { names_view result.now ≡ (tables_view self.now).names }
    {
        self.kinds.names()
    }

    pub fn root_count(&self) -> u32
        ensures { result ≡ length (tables_view self.now).roots }
    {
        self.objects.roots
    }

    /// How many operations there are behind `tx`.
    pub fn op_count(&self) -> u32
        ensures { result ≡ length (tables_view self.now).ops }
    {
        self.objects.ops
    }

    pub fn proc_count(&self) -> u32
        ensures { result ≡ length (tables_view self.now).procs }
    {
        self.procs.count
    }

    /// The number of the procedure of this name.
    pub fn proc_number(&self, name: &[u8]) -> Option<u32>
        ensures { result ≡ spec.proc_number (tables_view self.now) name.now }
    {
        self.procs.numbers.number(name)
    }

    /// The number of the datatype's constructor of this name.
    pub fn find_con(&self, kind: Kind, name: &[u8]) -> Option<u32>
        ensures { result ≡ spec.con_number (tables_view self.now) kind name.now }
    {
        self.kinds.con_number(kind, name)
    }

    /// The number of the datatype's constructor of this name. `Err` is that there is none.
    pub fn con_number(&self, kind: Kind, name: &[u8]) -> Result<u32, Memory>
        ensures found { IfOk result (λ con. spec.con_number (tables_view self.now) kind name.now ≡ Some con) }
        ensures none { OnErr result (spec.con_number (tables_view self.now) kind name.now ≡ None) }
    {
        match self.find_con(kind, name) {
            Some(con) => Ok(con),
            None => Err(Memory),
        }
    }

    /// The number of what does this and stands on the replicated type, which a path leads to. `Err` is
    /// also that the type is none of the text.
    pub fn member_number(&self, crdt: &CrdtNode, does: Does) -> Result<u32, Memory>
        ensures { (x : Name) (steps : StepTrees) (m : SpecMember) (c : Called Ex)
            (leads : LeadsTo (tables_view self.now) x steps (crdt_view crdt.now) m)
            → m.does ≡ does_view does → on_root (tables_view self.now) m steps leads.root ≡ Some c
            → IfOk result (λ number. c ≡ taking (keys_on leads.reached.path) m.args (callee_of m.does number)) }
    {
        let object = self.objects.object(crdt.span.from)?;
        number_on(object, does)
    }
}
