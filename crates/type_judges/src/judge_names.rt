//! The first faults of declared, assigned and new names.

ghost use Rattle.std.specs.Prelude.{◌≡◌, List};
ghost use Rattle.std.specs.Option.{option_map};
ghost use Rattle.rp_ast.specs.View as tree;
ghost use Rattle.type_rules.specs.Names.{Name, Names, is_among, type_number};
ghost use Rattle.type_rules.specs.Kinds as kinds;
ghost use Rattle.type_rules.specs.Rules as spec;
ghost use Rattle.type_rules.specs.Sites.{Site};
ghost use Rattle.type_rules.specs.Faults.{judged};
ghost use Rattle.text_names.specs.Views.{type_item_view};
ghost use Rattle.type_tables.specs.Variables.{var_view};
ghost use Rattle.type_judges.specs.Places.{scope_view};
ghost use Rattle.type_tables.specs.Counts.{IsCounted};
ghost use Rattle.text_names.specs.Declarations.{names_view};

use crate::rule_uses::{is_declared, is_later, nowhere};
use crate::scope::Scope;
use rp_ast::Ident;
use text_names::{TextNames, TypeItem, TypeSort};
use type_rules::{Base, Fault, Kind};
use type_tables::{VarItem, Vars, fits, note, plain_kind, when};

/// The first fault of a declared name, which one of those before it has, or none.
pub fn judge_named(is_taken: bool, name: &Ident) -> Option<Fault>
    ensures { (n : Names) (before : List Name) → is_taken ≡ is_among name.now.text before
        → result ≡ judged n (Site.named before (tree.ident_view name.now)) }
{
    note(1, when(is_taken, name.span), None)
}

/// The first fault of a variable's declaration.
pub fn judge_declares(names: &TextNames, vars: &Vars, name: &Ident) -> Option<Fault>
    ensures { result ≡ judged (names_view names.now) (Site.declares vars.now (tree.ident_view name.now)) }
{
    let text = name.text.as_slice();
    note(
        15,
        when(vars.is_var(text) || names.is_taken(text), name.span),
        None,
    )
}

/// The first fault of an assigned name.
pub fn judge_assigns(scope: &Scope, name: &Ident) -> Option<Fault>
    ensures { (later : List Name) → IsCounted scope.now.later.now later
        → result
        ≡ judged (names_view scope.now.names.now)
        (Site.assigns (scope_view scope.now later) (tree.ident_view name.now)) }
{
    let text = name.text.as_slice();
    let is_fixed = match scope.vars.find(text) {
        Some(var) => var.fixed,
        None => false,
    };
    let is_known = is_declared(scope.names, name) || is_later(scope, name);
    let best = note(17, when(is_fixed, name.span), None);
    let best = note(
        15,
        when(!scope.vars.is_var(text) && is_known, name.span),
        best,
    );
    note(4, nowhere(scope, name), best)
}

/// Whether a type is declared before the declaration of this number.
pub(crate) fn is_before(decl: u32, item: Option<&TypeItem>) -> bool
    ensures { result ≡ spec.is_before decl (option_map (λ it. type_item_view it.now) item.entry) }
{
    match item {
        Some(item) => item.decl < decl,
        None => false,
    }
}

fn is_id_type(item: Option<&TypeItem>) -> bool
    ensures { result ≡ spec.is_id_type (option_map (λ it. type_item_view it.now) item.entry) }
{
    match item {
        Some(item) => matches!(&item.sort, TypeSort::Id),
        None => false,
    }
}

fn is_other_type(kind: Kind, var: Option<VarItem>) -> bool
    ensures { result ≡ spec.is_other_type kind (option_map var_view var.entry) }
{
    match var {
        Some(var) => !fits(var.kind, kind),
        None => false,
    }
}

/// The type that a name stands for.
fn named_kind(names: &TextNames, name: &[u8]) -> Kind
    ensures { result ≡ kinds.named_kind (type_number (names_view names.now) name.now) }
{
    match names.type_number(name) {
        Some(number) => plain_kind(Base::Declared(number)),
        None => plain_kind(Base::Unknown),
    }
}

/// The first fault of the type after `new`, for this variable.
pub fn judge_made(names: &TextNames, decl: u32, var: Option<VarItem>, ty: &Ident) -> Option<Fault>
    ensures { result
        ≡ judged (names_view names.now)
        (Site.made decl (option_map var_view var.entry) (tree.ident_view ty.now)) }
{
    let text = ty.text.as_slice();
    let item = names.type_named(text);
    let is_id = is_id_type(item);
    let wrong = is_id && is_other_type(named_kind(names, text), var);
    let best = note(23, when(wrong, ty.span), None);
    let best = note(5, when(!is_id, ty.span), best);
    note(2, when(!is_before(decl, item), ty.span), best)
}
