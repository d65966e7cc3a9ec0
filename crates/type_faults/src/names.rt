//! T01: names that differ.

ghost use Rattle.std.specs.Prelude.{◌≡◌, [], ◌∷◌, IfOk, List, map};
ghost use Rattle.rp_ast.specs.View as tree;
ghost use Rattle.rp_grammar.specs.Trees.{DeclForm as DeclTree, ExprTree};
ghost use Rattle.type_rules.specs.Names.{Name, Names, con_name, param_name};
ghost use Rattle.type_rules.specs.DeclSites.{field_names, named_all};
ghost use Rattle.type_rules.specs.TextSites.{Seen as AllSeen, nothing_seen};
ghost use Rattle.type_rules.specs.Faults.{first};
ghost use Rattle.type_terms.specs.Views.{IsTableOf};
ghost use Rattle.type_faults.specs.Texts.{AreNamed, AreSeen, Differ, named_from};

use crate::walk::Found;
use rp_ast::{ConNode, Decl, DeclForm, FieldNode, Ident, Param};
use std::alloc::Global;
use type_judges::judge_named;
use type_tables::{NameTable, sooner};

/// The names that the declarations before have.
#[derive(Drop)]
struct Seen<'a> {
    types: NameTable<'a>,
    /// Of roots, queries, procedures and constructors.
    others: NameTable<'a>,
    invariants: NameTable<'a>,
}

impl<'a> Seen<'a> {
    fn new(alloc: Global) -> Seen<'a>
        ensures { AreSeen result nothing_seen }
    {
        Seen {
            types: NameTable::new(alloc),
            others: NameTable::new(alloc),
            invariants: NameTable::new(alloc),
        }
    }

    /// That of an invariant, if it has a name.
    fn invariant(&mut self, name: &'a Option<Ident>) -> Found
        ensures { (n : Names) (seen : AllSeen) (e : ExprTree) → AreSeen self.old seen
            → IfOk result (λ fault. AreNamed n self.new seen fault (DeclTree.invariant (tree.optional tree.ident_view name.now) e)) }
    {
        match name {
            Some(name) => name_fault(&mut self.invariants, name),
            None => Ok(None),
        }
    }

    /// The first fault of the names that a declaration declares, which are then seen too.
    fn declared(&mut self, form: &'a DeclForm) -> Found
        ensures { (n : Names) (seen : AllSeen) → AreSeen self.old seen
            → IfOk result (λ fault. AreNamed n self.new seen fault (tree.decl_form_view form.now)) }
    {
        match form {
            DeclForm::IdType(name) => name_fault(&mut self.types, name),
            DeclForm::Opaque(name) => name_fault(&mut self.types, name),
            DeclForm::Datatype(name, cons) => {
                let own = name_fault(&mut self.types, name)?;
                let others = con_faults(&mut self.others, cons.as_slice())?;
                Ok(sooner(own, others))
            }
            DeclForm::Crdt(name, _) => name_fault(&mut self.others, name),
            DeclForm::Query(query) => name_fault(&mut self.others, &query.name),
            DeclForm::Invariant(name, _) => self.invariant(name),
            DeclForm::Proc(proc) => name_fault(&mut self.others, &proc.name),
        }
    }

    /// That of the names of declarations.
    fn all(&mut self, decls: &'a [Decl]) -> Found
        ensures { (n : Names) (seen : AllSeen) → AreSeen self.old seen
            → IfOk result (λ fault. fault ≡ first n (named_from seen (tree.decls_view decls.now))) }
    {
        let mut best = None;
        for decl in decls {
            best = sooner(best, self.declared(&decl.what)?);
        }
        Ok(best)
    }
}

/// The first fault of a name behind those of the table, to which it is put.
fn name_fault<'a>(before: &mut NameTable<'a>, name: &'a Ident) -> Found
    ensures { (n : Names) (names : List Name) → IsTableOf before.old names
        → IfOk result (λ fault. Differ n before.new names fault (tree.ident_view name.now ∷ [])) }
{
    let text = name.text.as_slice();
    let fault = judge_named(before.number(text).is_some(), name);
    before.add(text, 0)?;
    Ok(fault)
}

/// That of the names of constructors.
fn con_faults<'a>(before: &mut NameTable<'a>, cons: &'a [ConNode]) -> Found
    ensures { (n : Names) (names : List Name) → IsTableOf before.old names
        → IfOk result (λ fault. Differ n before.new names fault (map con_name (map tree.con_view cons.now))) }
{
    let mut best = None;
    for con in cons {
        best = sooner(best, name_fault(before, &con.name)?);
    }
    Ok(best)
}

/// The first fault of the names of parameters or fields, which differ.
pub(crate) fn params_differ<'a>(alloc: Global, params: &'a [Param]) -> Found
    ensures { (n : Names) → IfOk result (λ fault. fault
        ≡ first n (named_all [] (map param_name (tree.params_view params.now)))) }
{
    let mut best = None;
    let mut before = NameTable::new(alloc);
    for param in params {
        best = sooner(best, name_fault(&mut before, &param.name)?);
    }
    Ok(best)
}

/// That of the fields of a replicated type.
pub(crate) fn fields_differ<'a>(alloc: Global, fields: &'a [FieldNode]) -> Found
    ensures { (n : Names) → IfOk result (λ fault. fault
        ≡ first n (named_all [] (field_names (tree.fields_view fields.now)))) }
{
    let mut best = None;
    let mut before = NameTable::new(alloc);
    for field in fields {
        best = sooner(best, name_fault(&mut before, &field.name)?);
    }
    Ok(best)
}

/// The first fault of the names that declarations declare.
pub(crate) fn decls_differ<'a>(alloc: Global, decls: &'a [Decl]) -> Found
    ensures { (n : Names) → IfOk result (λ fault. fault ≡ first n (named_from nothing_seen (tree.decls_view decls.now))) }
{
    let mut seen = Seen::new(alloc);
    seen.all(decls)
}
