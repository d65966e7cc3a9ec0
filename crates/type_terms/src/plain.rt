//! Plain terms.

ghost use Rattle.std.specs.Prelude.{◌≡◌, ◌&&◌, IfOk};
ghost use Rattle.rp_ast.specs.View as tree;
ghost use Rattle.rp_ast.specs.declared.expr.AccessStep.TheViews.{out-AccessNode};
ghost use Rattle.type_rules.specs.Typing as spec;
ghost use Rattle.type_terms.specs.Views.{access_view};
ghost use Rattle.text_names.specs.Declarations.{names_view};

use crate::access::{Access, access_of};
use crate::members::is_question;
use rp_ast::{AccessNode, AccessStep, ExprForm, ExprNode};
use rp_value::Memory;
use text_names::TextNames;
use type_tables::{Vars, is_plain_word};

/// Whether what is accessed is plain, whatever its keys and arguments are.
pub fn is_plain_access(names: &TextNames, what: Access) -> bool
    ensures { result
        ≡ spec.is_plain_access (names_view names.now) (access_view (names_view names.now) what.entry) }
{
    match what {
        Access::UseOf(decl, _) => !names.is_formula(decl),
        Access::Member(member) => !is_question(member.does),
        Access::Unknown
        | Access::Misfit(_)
        | Access::Variable(_)
        | Access::Constructor(_, _)
        | Access::Procedure(_)
        | Access::Returned(_) => true,
    }
}

/// Whether an expression is a plain term.
#[cycle(plain)]
#[tactic(auto, using(rp_ast::proofs::ExprViews::expr_views))]
pub(crate) fn is_plain<'a>(
    names: &TextNames<'a>,
    vars: &Vars<'a>,
    e: &ExprNode,
) -> Result<bool, Memory>
    ensures { IfOk result (λ plain. plain
        ≡ spec.is_plain (names_view names.now) vars.now (tree.expr_view e.now)) }
{
    match &e.what {
        ExprForm::Plus(left, right) => {
            let first = is_plain(names, vars, left.get())?;
            let second = is_plain(names, vars, right.get())?;
            Ok(first && second)
        }
        ExprForm::Minus(left, right) => {
            let first = is_plain(names, vars, left.get())?;
            let second = is_plain(names, vars, right.get())?;
            Ok(first && second)
        }
        ExprForm::Int(_)
        | ExprForm::Str(_)
        | ExprForm::Truth(_)
        | ExprForm::NoneWord
        | ExprForm::Unreturned
        | ExprForm::Tx => Ok(true),
        ExprForm::SomeOf(held) => is_plain(names, vars, held.get()),
        ExprForm::Call(word, args) => {
            let plain = are_plain(names, vars, args.as_slice())?;
            Ok(is_plain_word(*word) && plain)
        }
        ExprForm::Access(access) => {
            let what = access_of(names, vars, access.get())?;
            is_plain_path(names, vars, what, access.get())
        }
        ExprForm::Implies(_, _)
        | ExprForm::Or(_)
        | ExprForm::And(_)
        | ExprForm::Not(_)
        | ExprForm::Forall(_, _)
        | ExprForm::Exists(_, _)
        | ExprForm::Compare(_, _, _)
        | ExprForm::Match(_, _) => Ok(false),
    }
}

#[cycle(plain)]
fn are_plain<'a>(names: &TextNames<'a>, vars: &Vars<'a>, es: &[ExprNode]) -> Result<bool, Memory>
    ensures { IfOk result (λ plain. plain
        ≡ spec.are_plain (names_view names.now) vars.now (tree.exprs_view es.now)) }
{
    for e in es {
        let plain = is_plain(names, vars, e)?;
        if !plain {
            return Ok(false);
        }
    }
    Ok(true)
}

#[cycle(plain)]
#[tactic(auto, using(rp_ast::proofs::ExprViews::expr_views))]
fn is_plain_step<'a>(
    names: &TextNames<'a>,
    vars: &Vars<'a>,
    step: &AccessStep,
) -> Result<bool, Memory>
    ensures { IfOk result (λ plain. plain
        ≡ spec.is_plain_step (names_view names.now) vars.now (tree.step_view step.now)) }
{
    match step {
        AccessStep::Dot(_) => Ok(true),
        AccessStep::Returned(_) => Ok(true),
        AccessStep::Key(key) => is_plain(names, vars, key),
    }
}

#[cycle(plain)]
fn are_plain_steps<'a>(
    names: &TextNames<'a>,
    vars: &Vars<'a>,
    steps: &[AccessStep],
) -> Result<bool, Memory>
    ensures { IfOk result (λ plain. plain
        ≡ spec.are_plain_steps (names_view names.now) vars.now (tree.steps_view steps.now)) }
{
    for step in steps {
        let plain = is_plain_step(names, vars, step)?;
        if !plain {
            return Ok(false);
        }
    }
    Ok(true)
}

/// Whether the arguments of an access are plain terms.
#[cycle(plain)]
fn are_plain_args<'a>(
    names: &TextNames<'a>,
    vars: &Vars<'a>,
    access: &AccessNode,
) -> Result<bool, Memory>
    ensures { IfOk result (λ plain. plain ≡ spec.are_plain_args (names_view names.now) vars.now
        (tree.args_view (out-AccessNode access.now).args)) }
{
    match &access.args {
        Some(args) => are_plain(names, vars, args.as_slice()),
        None => Ok(true),
    }
}

/// Whether an access that is this is a plain term with its keys and arguments.
#[cycle(plain)]
#[tactic(auto, using(rp_ast::proofs::ExprViews::expr_views))]
fn is_plain_path<'a>(
    names: &TextNames<'a>,
    vars: &Vars<'a>,
    what: Access,
    access: &AccessNode,
) -> Result<bool, Memory>
    ensures { IfOk result (λ plain. plain
        ≡ (spec.is_plain_access (names_view names.now) (access_view (names_view names.now) what.entry)
        && spec.are_plain_steps (names_view names.now) vars.now
        (tree.steps_view (out-AccessNode access.now).steps)
        && spec.are_plain_args (names_view names.now) vars.now (tree.args_view (out-AccessNode access.now).args))) }
{
    let steps = are_plain_steps(names, vars, access.steps.as_slice())?;
    let args = are_plain_args(names, vars, access)?;
    Ok(is_plain_access(names, what) && steps && args)
}
