//! The first fault of a type that a text writes.

ghost use Rattle.std.specs.Prelude.{◌≡◌, ◌&&◌, ℕ, IfOk, not};
ghost use Rattle.rp_ast.specs.View as tree;
ghost use Rattle.type_rules.specs.Sites.{Site};
ghost use Rattle.type_rules.specs.Kinds as kinds;
ghost use Rattle.type_rules.specs.Starts as starts;
ghost use Rattle.type_rules.specs.Rules as spec;
ghost use Rattle.type_rules.specs.Faults.{judged};
ghost use Rattle.text_names.specs.Declarations.{names_view};

use crate::judge_names::is_before;
use rp_ast::{TypeForm, TypeNode};
use rp_span::Span;
use rp_value::Memory;
use text_names::{TextNames, TypeSort};
use type_rules::{Fault, Role};
use type_tables::{is_ordinary_base, note, when};
use type_terms::type_start;

/// What stands inside all `Maybe`s.
#[tactic(auto, using(rp_ast::proofs::TypeViews::type_views))]
fn innermost(ty: &TypeNode) -> &TypeNode
    ensures { tree.type_view result.now ≡ kinds.innermost (tree.type_view ty.now) }
{
    match &ty.what {
        TypeForm::Maybe(inside) => innermost(inside.get()),
        TypeForm::Named(_)
        | TypeForm::Bool
        | TypeForm::Int
        | TypeForm::Text
        | TypeForm::Call
        | TypeForm::Invocation => ty,
    }
}

/// T02: a type is declared before its use.
#[tactic(auto, using(rp_ast::proofs::TypeViews::type_views))]
fn late_type(names: &TextNames, decl: u32, inside: &TypeNode) -> Option<Span>
    ensures { result ≡ spec.late_type (names_view names.now) decl (tree.type_view inside.now) }
{
    match &inside.what {
        TypeForm::Named(name) => {
            when(
                !is_before(decl, names.type_named(name.as_slice())),
                inside.span,
            )
        }
        TypeForm::Maybe(_)
        | TypeForm::Bool
        | TypeForm::Int
        | TypeForm::Text
        | TypeForm::Call
        | TypeForm::Invocation => None,
    }
}

#[tactic(auto, using(rp_ast::proofs::TypeViews::type_views))]
fn is_call_form(form: &TypeForm) -> bool
    ensures { result ≡ spec.is_call_form (tree.type_form_view form.now) }
{
    matches!(form, TypeForm::Call | TypeForm::Invocation)
}

#[tactic(auto, using(rp_ast::proofs::TypeViews::type_views))]
fn is_maybe_form(form: &TypeForm) -> bool
    ensures { result ≡ spec.is_maybe_form (tree.type_form_view form.now) }
{
    matches!(form, TypeForm::Maybe(_))
}

fn takes_calls(role: Role) -> bool
    ensures { result ≡ spec.takes_calls role }
{
    match role {
        Role::Quantified | Role::QueryParam => true,
        Role::Field | Role::QueryResult | Role::Variable => false,
    }
}

/// T06: `call` and `invocation` stand alone, in quantifiers and in parameters of queries.
fn stray_word(role: Role, ty: &TypeNode, inside: &TypeNode) -> Option<Span>
    ensures { result ≡ spec.stray_word (spec.takes_calls role && not (spec.is_maybe_form (spec.form_of
        (tree.type_view ty.now)))) (tree.type_view inside.now) }
{
    let may = takes_calls(role) && !is_maybe_form(&ty.what);
    when(is_call_form(&inside.what) && !may, inside.span)
}

/// Whether a quantifier may go over it.
#[tactic(auto, using(rp_ast::proofs::TypeViews::type_views))]
fn is_range(names: &TextNames, ty: &TypeNode) -> bool
    ensures { result ≡ spec.is_range (names_view names.now) (spec.form_of (tree.type_view ty.now)) }
{
    match &ty.what {
        TypeForm::Named(name) => match names.type_named(name.as_slice()) {
            Some(item) => !matches!(&item.sort, TypeSort::Datatype(_)),
            None => true,
        },
        TypeForm::Call | TypeForm::Invocation => true,
        TypeForm::Bool | TypeForm::Int | TypeForm::Text | TypeForm::Maybe(_) => false,
    }
}

/// The start of a type, where a rule is broken at it.
fn when_at(broken: bool, ty: &TypeNode) -> Result<Option<Span>, Memory>
    ensures { IfOk result (λ at. at ≡ spec.when broken (starts.type_start (tree.type_view ty.now))) }
{
    if broken {
        Ok(Some(type_start(ty)?))
    } else {
        Ok(None)
    }
}

/// T07: types of data.
fn rule_7(names: &TextNames, role: Role, ty: &TypeNode) -> Result<Option<Span>, Memory>
    ensures { (k : ℕ) → IfOk result (λ at. at
        ≡ spec.rule07 (names_view names.now) (Site.written k role (tree.type_view ty.now))) }
{
    let is_field = matches!(role, Role::Field);
    when_at(is_field && !is_ordinary_base(names.base_of(ty)), ty)
}

/// T08: types of quantified variables.
fn rule_8(names: &TextNames, role: Role, ty: &TypeNode) -> Result<Option<Span>, Memory>
    ensures { (k : ℕ) → IfOk result (λ at. at
        ≡ spec.rule08 (names_view names.now) (Site.written k role (tree.type_view ty.now))) }
{
    let is_quantified = matches!(role, Role::Quantified);
    when_at(is_quantified && !is_range(names, ty), ty)
}

/// T24: types of procedures and variables.
fn rule_24(names: &TextNames, role: Role, ty: &TypeNode) -> Result<Option<Span>, Memory>
    ensures { (k : ℕ) → IfOk result (λ at. at
        ≡ spec.rule24 (names_view names.now) (Site.written k role (tree.type_view ty.now))) }
{
    let is_variable = matches!(role, Role::Variable);
    when_at(is_variable && !is_ordinary_base(names.base_of(ty)), ty)
}

/// The first fault of a type, in the declaration of this number.
pub fn judge_written(
    names: &TextNames,
    decl: u32,
    role: Role,
    ty: &TypeNode,
) -> Result<Option<Fault>, Memory>
    ensures { IfOk result (λ fault. fault
        ≡ judged (names_view names.now) (Site.written decl role (tree.type_view ty.now))) }
{
    let inside = innermost(ty);
    let best = note(24, rule_24(names, role, ty)?, None);
    let best = note(8, rule_8(names, role, ty)?, best);
    let best = note(7, rule_7(names, role, ty)?, best);
    let best = note(6, stray_word(role, ty, inside), best);
    Ok(note(2, late_type(names, decl, inside), best))
}
