//! The rules on the names that expressions and statements use.

ghost use Rattle.std.specs.Prelude.{◌≡◌, List};
ghost use Rattle.std.specs.Option.{option_map};
ghost use Rattle.rp_ast.specs.View as tree;
ghost use Rattle.type_rules.specs.Names.{Name};
ghost use Rattle.type_rules.specs.Rules as spec;
ghost use Rattle.text_names.specs.Views.{item_view};
ghost use Rattle.type_judges.specs.Places.{scope_view};
ghost use Rattle.type_tables.specs.Counts.{IsCounted};
ghost use Rattle.text_names.specs.Declarations.{names_view};

use crate::scope::Scope;
use rp_ast::{AccessNode, AccessStep, Ident};
use rp_span::Span;
use text_names::{Declared, Item, TextNames};
use type_tables::when;

/// Whether a root, a query, a procedure or a constructor has the name.
pub(crate) fn is_declared(names: &TextNames, name: &Ident) -> bool
    ensures { result ≡ spec.is_declared (names_view names.now) (tree.ident_view name.now) }
{
    names.item_named(name.text.as_slice()).is_some()
}

/// Whether a `var` declares the name later.
pub(crate) fn is_later(scope: &Scope, name: &Ident) -> bool
    ensures { (later : List Name) → IsCounted scope.now.later.now later
        → result ≡ spec.is_later (scope_view scope.now later) (tree.ident_view name.now) }
{
    scope.later.has(name.text.as_slice())
}

/// Whether nothing in sight has the name.
pub(crate) fn is_out_of_sight(scope: &Scope, name: &Ident) -> bool
    ensures { (later : List Name) → result
        ≡ spec.is_out_of_sight (names_view scope.now.names.now) (scope_view scope.now later)
        (tree.ident_view name.now) }
{
    !scope.vars.is_var(name.text.as_slice()) && !is_declared(scope.names, name)
}

pub(crate) fn is_late_query(decl: u32, item: Option<Item>) -> bool
    ensures { result ≡ spec.is_late_query decl (option_map item_view item.entry) }
{
    match item {
        Some(item) => matches!(item.what, Declared::Query(_)) && decl <= item.decl,
        None => false,
    }
}

/// T04: every other name is declared. One that a `var` declares later is for T15.
pub(crate) fn nowhere(scope: &Scope, name: &Ident) -> Option<Span>
    ensures { (later : List Name) → IsCounted scope.now.later.now later
        → result
        ≡ spec.nowhere (names_view scope.now.names.now) (scope_view scope.now later)
        (tree.ident_view name.now) }
{
    let missing = is_out_of_sight(scope, name) && !is_later(scope, name);
    when(missing, name.span)
}

/// The first word `returned` of these steps.
#[tactic(auto, using(rp_ast::proofs::ExprViews::expr_views))]
fn returned_in(steps: &[AccessStep]) -> Option<Span>
    ensures { result ≡ spec.returned_in (tree.steps_view steps.now) }
{
    for step in steps {
        match step {
            AccessStep::Returned(at) => return Some(*at),
            AccessStep::Dot(_) => {}
            AccessStep::Key(_) => {}
        }
    }
    None
}

/// The word `returned` of a path.
#[tactic(auto, using(rp_ast::proofs::ExprViews::expr_views))]
pub(crate) fn returned_word(access: &AccessNode) -> Option<Span>
    ensures { result ≡ spec.returned_word (tree.access_view access.now) }
{
    returned_in(access.steps.as_slice())
}
