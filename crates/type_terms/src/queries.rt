//! Parameters as variables, and the queries of a text whose bodies aren't plain terms.

ghost use Rattle.std.specs.Prelude.{◌≡◌, IfOk, map};
ghost use Rattle.rp_ast.specs.View as tree;
ghost use Rattle.type_rules.specs.Queries as spec;
ghost use Rattle.text_names.specs.Parts.{crdt_in, roots_seen, trees_of};
ghost use Rattle.type_tables.specs.Variables.{var_view};
ghost use Rattle.text_names.specs.Declarations.{names_view};

use crate::plain::is_plain;
use rp_ast::{Ast, Decl, DeclForm, Param, QueryNode};
use rp_value::Memory;
use std::alloc::Global;
use text_names::{Roots, TextNames};
use type_tables::{VarItem, Vars};

/// A parameter as a variable. It has a value, and isn't assigned.
pub fn param_var<'a>(names: &TextNames, param: &'a Param) -> Result<VarItem<'a>, Memory>
    ensures { IfOk result (λ var. var_view var
        ≡ spec.param_var (names_view names.now) (tree.param_view param.now)) }
{
    Ok(VarItem {
        name: param.name.text.as_slice(),
        kind: names.kind_of(&param.ty)?,
        set: true,
        fixed: true,
    })
}

fn param_vars<'a>(alloc: Global, names: &TextNames, params: &'a [Param]) -> Result<Vars<'a>, Memory>
    ensures { IfOk result (λ vars. vars
        ≡ spec.param_vars (names_view names.now) (tree.params_view params.now)) }
{
    let mut vars = Vars::new(alloc);
    for param in params {
        let var = param_var(names, param)?;
        vars.push(var)?;
    }
    Ok(vars)
}

fn has_plain_body<'a>(
    alloc: Global,
    names: &TextNames<'a>,
    query: &'a QueryNode,
) -> Result<bool, Memory>
    ensures { IfOk result (λ plain. plain
        ≡ spec.has_plain_body (names_view names.now) (tree.query_view query.now)) }
{
    let vars = param_vars(alloc, names, query.params.as_slice())?;
    is_plain(names, &vars, &query.body)
}

fn is_formula_decl<'a>(alloc: Global, names: &TextNames<'a>, decl: &'a Decl) -> Result<bool, Memory>
    ensures { IfOk result (λ flag. flag
        ≡ spec.is_formula_decl (names_view names.now) (tree.decl_view decl.now)) }
{
    match &decl.what {
        DeclForm::Query(query) => {
            let plain = has_plain_body(alloc, names, query)?;
            Ok(!plain)
        }
        DeclForm::IdType(_)
        | DeclForm::Opaque(_)
        | DeclForm::Datatype(_, _)
        | DeclForm::Crdt(_, _)
        | DeclForm::Invariant(_, _)
        | DeclForm::Proc(_) => Ok(false),
    }
}

/// With what is said of these declarations, which come next.
fn with_formulas<'a>(
    alloc: Global,
    names: TextNames<'a>,
    decls: &'a [Decl],
) -> Result<TextNames<'a>, Memory>
    ensures { IfOk result (λ more. names_view more
        ≡ spec.with_formulas (names_view names.entry) (tree.decls_view decls.now)) }
{
    let mut names = names;
    for decl in decls {
        let flag = is_formula_decl(alloc, &names, decl)?;
        names.push_formula(flag)?;
    }
    Ok(names)
}

/// The names of a text with these roots.
pub fn names_of<'a>(
    alloc: Global,
    roots: &'a Roots<'a>,
    ast: &'a Ast,
) -> Result<TextNames<'a>, Memory>
    ensures { roots_seen (trees_of roots.now.parts.items) roots.now.places
        ≡ map crdt_in (tree.ast_view ast.now)
        → IfOk result (λ names. names_view names ≡ spec.names_of (tree.ast_view ast.now)) }
{
    let names = TextNames::declared_in(alloc, roots, &ast.decls)?;
    with_formulas(alloc, names, ast.decls.as_slice())
}
