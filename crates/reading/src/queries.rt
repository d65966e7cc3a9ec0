//! What the bodies of queries say.

ghost use Rattle.std.specs.Prelude.{◌≡◌, IfOk, OnOk, length};
ghost use Rattle.rp_ast.specs.View as tree;
ghost use Rattle.text_tables.specs.Seen.{tables_view};
ghost use Rattle.type_rules.specs.Queries.{names_of};
ghost use Rattle.query_bodies.specs.Expanded.{uses_of};
ghost use Rattle.query_bodies.specs.Seen.{known_in, saids_in};
ghost use Rattle.query_bodies.specs.Views.{body_view};
ghost use Rattle.query_laws.specs.Told.{AreAdded};
ghost use Rattle.query_laws.specs.Whole.{AreBodiesOf, IsSaidBody};
ghost use Rattle.reading.specs.Bodies.{AddsDecl};
ghost use Rattle.reading.specs.Reads.{with_params};

use crate::reader::{Known, Reader};
use query_bodies::{Bodies, Body};
use rp_ast::{Decl, DeclForm, Param, QueryNode};
use rp_value::Memory;
use std::alloc::Global;
use text_tables::Tables;

impl<'t, 'n, 'a> Reader<'t, 'n, 'a> {
    /// The parameters of a query come in sight.
    fn bind_params(&mut self, params: &'a [Param]) -> Result<(), Memory>
        ensures { OnOk result (self.new ≡ with_params (tables_view self.old.tables.now).names self.old
            (tree.params_view params.now)) }
    {
        for param in params {
            let kind = self.names().kind_of(&param.ty)?;
            let number = self.known.count();
            self.bind(&param.name, kind, Known::Param(number))?;
        }
        Ok(())
    }
}

/// What the body of a query says, over its parameters.
fn query_body<'a>(
    alloc: Global,
    tables: &Tables<'_, 'a>,
    bodies: &Bodies,
    query: &'a QueryNode,
) -> Result<Body, Memory>
    ensures { IfOk result (λ body. IsSaidBody (tables_view tables.now) (uses_of bodies.now)
        (tree.query_view query.now) (body_view body)) }
{
    let mut reader = Reader::new(alloc, tables, bodies);
    reader.bind_params(query.params.as_slice())?;
    let kind = tables.names().kind_of(&query.result)?;
    reader.body(Some(kind), &query.body)
}

/// With what the next declaration says, if it is a query.
fn lower_decl<'a>(
    alloc: Global,
    tables: &Tables<'_, 'a>,
    bodies: &mut Bodies,
    decl: &'a Decl,
) -> Result<(), Memory>
    ensures { OnOk result (AddsDecl (tables_view tables.now) (tree.decl_view decl.now) bodies.old bodies.new) }
{
    match &decl.what {
        DeclForm::Query(query) => {
            let body = query_body(alloc, tables, bodies, query)?;
            bodies.add(alloc, query.params.len(), body)
        }
        DeclForm::IdType(_) => bodies.push_none(),
        DeclForm::Opaque(_) => bodies.push_none(),
        DeclForm::Datatype(_, _) => bodies.push_none(),
        DeclForm::Crdt(_, _) => bodies.push_none(),
        DeclForm::Invariant(_, _) => bodies.push_none(),
        DeclForm::Proc(_) => bodies.push_none(),
    }
}

/// The bodies of a text's queries, each measured over its parameters.
pub fn lower_queries<'a>(
    alloc: Global,
    tables: &Tables<'_, 'a>,
    decls: &'a [Decl],
) -> Result<Bodies, Memory>
    requires named { (tables_view tables.now).names ≡ names_of (tree.decls_view decls.now) }
    ensures uses { IfOk result (λ bodies. AreBodiesOf (tables_view tables.now) (tree.decls_view decls.now)
        (saids_in bodies)) }
    ensures measured { IfOk result (λ bodies. AreAdded (tree.decls_view decls.now) (saids_in bodies)
        (known_in bodies)) }
    ensures count { IfOk result (λ bodies. length (saids_in bodies) ≡ length decls.now) }
{
    let mut bodies = Bodies::new(alloc);
    for decl in decls {
        lower_decl(alloc, tables, &mut bodies, decl)?;
    }
    Ok(bodies)
}
