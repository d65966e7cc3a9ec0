//! The rules on what expressions are: words, types, plain terms, operations and arguments.

ghost use Rattle.std.specs.Prelude.{◌≡◌, false, IfOk, List};
ghost use Rattle.rp_ast.specs.View as tree;
ghost use Rattle.type_rules.specs.Names.{Name, Names};
ghost use Rattle.type_rules.specs.Starts as starts;
ghost use Rattle.type_rules.specs.Sites.{Site, Scope as AnyScope, Want as AnyWant};
ghost use Rattle.type_rules.specs.Rules as spec;
ghost use Rattle.type_rules.specs.Typing.{is_plain};
ghost use Rattle.type_terms.specs.Views.{access_view};
ghost use Rattle.type_judges.specs.Meant.{is_access};
ghost use Rattle.type_judges.specs.Places.{scope_view, want_view};
ghost use Rattle.text_names.specs.Declarations.{names_view};

use crate::rule_uses::returned_word;
use crate::scope::Scope;
use crate::want::Want;
use rp_ast::{AccessNode, CallWord, ExprForm, ExprNode, Param, TypeForm};
use rp_span::Span;
use rp_value::Memory;
use type_rules::Kind;
use type_tables::{fits, is_any, is_open, is_ordinary_base, is_unknown, word_takes};
use type_terms::{Access, cases_of, is_operation, start, type_of};

/// The start of an expression, where a rule is broken at it.
fn when_at(broken: bool, e: &ExprNode) -> Result<Option<Span>, Memory>
    ensures { IfOk result (λ at. at ≡ spec.when broken (starts.start (tree.expr_view e.now))) }
{
    if broken {
        Ok(Some(start(e)?))
    } else {
        Ok(None)
    }
}

#[tactic(auto, using(rp_ast::proofs::TypeViews::type_views))]
fn is_over_calls(param: &Param) -> bool
    ensures { result ≡ spec.is_over_calls (tree.param_view param.now) }
{
    matches!(&param.ty.what, TypeForm::Call | TypeForm::Invocation)
}

/// The word on calls and invocations that an expression itself has.
#[tactic(auto, using(rp_ast::proofs::ExprViews::expr_views))]
fn word_in(e: &ExprNode) -> Result<Option<Span>, Memory>
    ensures { IfOk result (λ at. at ≡ spec.word_in (tree.expr_view e.now)) }
{
    match &e.what {
        ExprForm::Call(_, _) => when_at(true, e),
        ExprForm::Unreturned => Ok(Some(e.span)),
        ExprForm::Tx => Ok(Some(e.span)),
        ExprForm::Forall(param, _) => when_at(is_over_calls(param.get()), e),
        ExprForm::Exists(param, _) => when_at(is_over_calls(param.get()), e),
        ExprForm::Access(access) => Ok(returned_word(access.get())),
        _ => Ok(None),
    }
}

/// T09: words on calls and invocations.
pub(crate) fn rule_9(scope: &Scope, e: &ExprNode) -> Result<Option<Span>, Memory>
    ensures { (w : AnyWant) (later : List Name) → IfOk result (λ at. at
        ≡ spec.rule09 (names_view scope.now.names.now)
        (Site.place (scope_view scope.now later) w (tree.expr_view e.now))) }
{
    if scope.words { Ok(None) } else { word_in(e) }
}

/// Whether the place asks a type, and the expression has another.
fn misfits(scope: &Scope, want: Want, e: &ExprNode) -> Result<bool, Memory>
    ensures { (later : List Name) → IfOk result (λ wrong. wrong
        ≡ spec.misfits (names_view scope.now.names.now) (scope_view scope.now later) (want_view want)
        (tree.expr_view e.now) want.asked) }
{
    match want.asked {
        Some(kind) => {
            let own = type_of(scope.names, scope.vars, want.asked, e)?;
            Ok(!fits(kind, own))
        }
        None => Ok(false),
    }
}

/// Whether it has another type, by this rule.
fn is_wrong(rule: u8, scope: &Scope, want: Want, e: &ExprNode) -> Result<bool, Memory>
    ensures { (later : List Name) → IfOk result (λ wrong. wrong
        ≡ spec.is_wrong rule (names_view scope.now.names.now) (scope_view scope.now later) (want_view want)
        (tree.expr_view e.now)) }
{
    if want.rule == rule {
        misfits(scope, want, e)
    } else {
        Ok(false)
    }
}

/// T21, T22 and T23: the type that a place asks.
pub(crate) fn rule_typed(
    rule: u8,
    scope: &Scope,
    want: Want,
    e: &ExprNode,
) -> Result<Option<Span>, Memory>
    ensures { (later : List Name) → IfOk result (λ at. at
        ≡ spec.when
        (spec.is_wrong rule (names_view scope.now.names.now) (scope_view scope.now later) (want_view want)
        (tree.expr_view e.now)) (starts.start (tree.expr_view e.now))) }
{
    let broken = is_wrong(rule, scope, want, e)?;
    when_at(broken, e)
}

/// Whether it is a `Maybe` type, or an unknown one.
fn is_maybe_asked(asked: Option<Kind>) -> bool
    ensures { result ≡ spec.is_maybe_asked asked }
{
    match asked {
        Some(kind) => !is_open(kind.base) && (kind.maybes != 0 || is_unknown(kind.base)),
        None => false,
    }
}

/// Whether it is a `none` whose place doesn't ask a `Maybe` type.
#[tactic(auto, using(rp_ast::proofs::ExprViews::expr_views))]
fn is_lone_none(want: Want, e: &ExprNode) -> bool
    ensures { result ≡ spec.is_lone_none (want_view want) (tree.expr_view e.now) }
{
    match &e.what {
        ExprForm::NoneWord => !is_maybe_asked(want.asked),
        _ => false,
    }
}

/// Whether it is a `some` of a term that isn't of a type of data.
#[tactic(auto, using(rp_ast::proofs::ExprViews::expr_views))]
fn is_some_of_no_data(scope: &Scope, want: Want, e: &ExprNode) -> Result<bool, Memory>
    ensures { (later : List Name) → IfOk result (λ wrong. wrong
        ≡ spec.is_some_of_no_data (names_view scope.now.names.now) (scope_view scope.now later)
        (want_view want) (tree.expr_view e.now)) }
{
    match &e.what {
        ExprForm::SomeOf(_) => {
            let own = type_of(scope.names, scope.vars, want.asked, e)?;
            Ok(!is_ordinary_base(own.base))
        }
        _ => Ok(false),
    }
}

/// T10: operands, `none` and `some`.
pub(crate) fn rule_10(scope: &Scope, want: Want, e: &ExprNode) -> Result<Option<Span>, Memory>
    ensures { (later : List Name) → IfOk result (λ at. at
        ≡ spec.rule10 (names_view scope.now.names.now)
        (Site.place (scope_view scope.now later) (want_view want) (tree.expr_view e.now))) }
{
    let wrong = is_wrong(10, scope, want, e)?;
    let no_data = is_some_of_no_data(scope, want, e)?;
    when_at(wrong || is_lone_none(want, e) || no_data, e)
}

/// T11: plain terms. Whether it is one is told by what stands in it.
pub(crate) fn rule_11(
    scope: &Scope,
    want: Want,
    e: &ExprNode,
    plain: bool,
) -> Result<Option<Span>, Memory>
    ensures { (later : List Name)
        → plain ≡ is_plain (names_view scope.now.names.now) scope.now.vars.now (tree.expr_view e.now)
        → IfOk result (λ at. at
        ≡ spec.rule11 (names_view scope.now.names.now)
        (Site.place (scope_view scope.now later) (want_view want) (tree.expr_view e.now))) }
{
    when_at(want.plain && !plain, e)
}

fn is_op_word(word: Option<CallWord>) -> bool
    ensures { result ≡ spec.is_word spec.is_op_word word }
{
    matches!(word, Some(CallWord::Op))
}

fn is_info_word(word: Option<CallWord>) -> bool
    ensures { result ≡ spec.is_word spec.is_info_word word }
{
    matches!(word, Some(CallWord::Info))
}

fn is_result_word(word: Option<CallWord>) -> bool
    ensures { result ≡ spec.is_word spec.is_result_word word }
{
    matches!(word, Some(CallWord::Result))
}

/// An operation stands beside `op(c)`, a procedure beside `info(i)`, its outcome beside `result(i)`.
pub(crate) fn access_stands(want: Want, what: Access) -> bool
    ensures { (n : Names) → result ≡ spec.access_stands (want_view want) (access_view n what.entry) }
{
    match what {
        Access::Member(member) => !is_operation(member.does) || is_op_word(want.across),
        Access::Procedure(_) => is_info_word(want.across),
        Access::Returned(_) => is_result_word(want.across),
        _ => true,
    }
}

/// Whether an expression that isn't an access may stand there.
#[tactic(auto, using(rp_ast::proofs::ExprViews::expr_views))]
fn expr_stands(want: Want, e: &ExprNode) -> bool
    requires { is_access (tree.expr_view e.now) ≡ false }
    ensures { (n : Names) (sc : AnyScope) → result ≡ spec.expr_stands n sc (want_view want) (tree.expr_view e.now) }
{
    match &e.what {
        ExprForm::Access(_) => unreachable!(),
        ExprForm::Unreturned => is_result_word(want.across),
        ExprForm::Tx => is_op_word(want.across),
        _ => true,
    }
}

/// T13: where operations and procedures stand.
pub(crate) fn rule_13(scope: &Scope, want: Want, e: &ExprNode) -> Result<Option<Span>, Memory>
    requires { is_access (tree.expr_view e.now) ≡ false }
    ensures { (later : List Name) → IfOk result (λ at. at
        ≡ spec.rule13 (names_view scope.now.names.now)
        (Site.place (scope_view scope.now later) (want_view want) (tree.expr_view e.now))) }
{
    let stands = expr_stands(want, e);
    when_at(!stands, e)
}

/// Whether an expression that isn't an access has as many arguments as its word takes.
#[tactic(auto, using(rp_ast::proofs::ExprViews::expr_views, type_terms::proofs::Found::count_is))]
fn has_its_arguments(e: &ExprNode) -> bool
    requires { is_access (tree.expr_view e.now) ≡ false }
    ensures { (n : Names) (sc : AnyScope) → result ≡ spec.has_its_arguments n sc (tree.expr_view e.now) }
{
    match &e.what {
        ExprForm::Call(word, args) => args.len() == word_takes(*word),
        ExprForm::Access(_) => unreachable!(),
        _ => true,
    }
}

/// T14: arguments.
pub(crate) fn rule_14(scope: &Scope, want: Want, e: &ExprNode) -> Result<Option<Span>, Memory>
    requires { is_access (tree.expr_view e.now) ≡ false }
    ensures { (later : List Name) → IfOk result (λ at. at
        ≡ spec.rule14 (names_view scope.now.names.now)
        (Site.place (scope_view scope.now later) (want_view want) (tree.expr_view e.now))) }
{
    let wrong = is_wrong(14, scope, want, e)?;
    let fit = has_its_arguments(e);
    when_at(wrong || !fit, e)
}

/// T18: what is matched is of a datatype.
pub(crate) fn rule_18(scope: &Scope, want: Want, e: &ExprNode) -> Result<Option<Span>, Memory>
    ensures { (later : List Name) → IfOk result (λ at. at
        ≡ spec.rule18 (names_view scope.now.names.now)
        (Site.place (scope_view scope.now later) (want_view want) (tree.expr_view e.now))) }
{
    if want.rule != 18 {
        return Ok(None);
    }
    let own = type_of(scope.names, scope.vars, want.asked, e)?;
    let fit = is_any(own.base) || cases_of(scope.names, own).is_some();
    when_at(!fit, e)
}

/// Whether it may stand as a statement. What an unknown name or a wrong path means isn't known.
pub(crate) fn is_statement(what: Access) -> bool
    ensures { (n : Names) → result ≡ spec.is_statement (access_view n what.entry) }
{
    match what {
        Access::Member(member) => is_operation(member.does),
        Access::Unknown | Access::Misfit(_) => true,
        Access::Variable(_)
        | Access::Constructor(_, _)
        | Access::UseOf(_, _)
        | Access::Procedure(_)
        | Access::Returned(_) => false,
    }
}
