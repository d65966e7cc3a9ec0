//! What places ask.

ghost use Rattle.std.specs.Prelude.{◌≡◌, IfOk, drop};
ghost use Rattle.rp_ast.specs.View as tree;
ghost use Rattle.type_rules.specs.ExprSites as spec;
ghost use Rattle.type_rules.specs.Matches.{first_kind};
ghost use Rattle.type_judges.specs.Places.{want_view};
ghost use Rattle.text_names.specs.Declarations.{names_view};

use crate::want::Want;
use rp_ast::{CallWord, CompareOp, ExprForm, ExprNode};
use rp_value::Memory;
use text_names::TextNames;
use type_rules::{Base, Kind};
use type_tables::{BOOL_KIND, INT_KIND, UNKNOWN_KIND, Vars, is_open, plain_kind, word_takes};
use type_terms::{asked_inside, type_of};

/// A type, which another type breaks by this rule.
pub fn asks(rule: u8, kind: Kind) -> Want
    ensures { want_view result ≡ spec.asks rule kind }
{
    Want {
        asked: Some(kind),
        rule,
        plain: false,
        across: None,
    }
}

/// An operand of `!`, `&&`, `||` or `==>`, or the body of a quantifier.
pub fn bool_operand() -> Want
    ensures { want_view result ≡ spec.bool_operand }
{
    asks(10, BOOL_KIND)
}

pub fn int_operand() -> Want
    ensures { want_view result ≡ spec.int_operand }
{
    asks(10, INT_KIND)
}

/// A side of `<`, `<=`, `>` or `>=`.
fn ordered_side() -> Want
    ensures { want_view result ≡ spec.ordered_side }
{
    Want {
        asked: Some(INT_KIND),
        rule: 10,
        plain: true,
        across: None,
    }
}

/// An arm of a `match` expression, an invariant, a condition or an assertion.
pub fn bool_whole() -> Want
    ensures { want_view result ≡ spec.bool_whole }
{
    asks(22, BOOL_KIND)
}

/// An argument or a key. One of a word needn't be a plain term.
pub fn argument(plain: bool, kind: Kind) -> Want
    ensures { want_view result ≡ spec.argument plain kind }
{
    Want {
        asked: Some(kind),
        rule: 14,
        plain,
        across: None,
    }
}

/// The term in parentheses after `match`.
pub fn matched() -> Want
    ensures { want_view result ≡ spec.matched }
{
    Want {
        asked: None,
        rule: 18,
        plain: true,
        across: None,
    }
}

/// What stands in the parentheses of `some`, whose place asks this.
pub fn held(asked: Option<Kind>) -> Want
    ensures { want_view result ≡ spec.held asked }
{
    Want {
        asked: asked_inside(asked),
        rule: 0,
        plain: true,
        across: None,
    }
}

/// The word that an expression is.
#[tactic(auto, using(rp_ast::proofs::ExprViews::expr_views))]
fn word_of(e: &ExprNode) -> Option<CallWord>
    ensures { result ≡ spec.word_of (tree.expr_view e.now) }
{
    match &e.what {
        ExprForm::Call(word, _) => Some(*word),
        _ => None,
    }
}

/// The left side is asked the type of the right one where it has none of its own.
fn left_asked<'a>(
    names: &TextNames<'a>,
    vars: &Vars<'a>,
    left: &ExprNode,
    right: &ExprNode,
) -> Result<Option<Kind>, Memory>
    ensures { IfOk result (λ asked. asked
        ≡ spec.left_asked (names_view names.now) vars.now (tree.expr_view left.now)
        (tree.expr_view right.now)) }
{
    let own = type_of(names, vars, None, left)?;
    if is_open(own.base) {
        Ok(Some(type_of(names, vars, None, right)?))
    } else {
        Ok(None)
    }
}

fn is_equality(op: CompareOp) -> bool
    ensures { result ≡ spec.is_equality op }
{
    match op {
        CompareOp::Equal | CompareOp::NotEqual => true,
        CompareOp::Less | CompareOp::AtMost | CompareOp::Greater | CompareOp::AtLeast => false,
    }
}

/// What the left side of a comparison is asked.
pub fn left_want<'a>(
    names: &TextNames<'a>,
    vars: &Vars<'a>,
    op: CompareOp,
    left: &ExprNode,
    right: &ExprNode,
) -> Result<Want, Memory>
    ensures { IfOk result (λ want. want_view want
        ≡ spec.left_want (names_view names.now) vars.now op (tree.expr_view left.now)
        (tree.expr_view right.now)) }
{
    if !is_equality(op) {
        return Ok(ordered_side());
    }
    Ok(Want {
        asked: left_asked(names, vars, left, right)?,
        rule: 0,
        plain: true,
        across: word_of(right),
    })
}

/// What the right side of a comparison is asked. Where two types differ it is the offending side.
pub fn right_want<'a>(
    names: &TextNames<'a>,
    vars: &Vars<'a>,
    op: CompareOp,
    left: &ExprNode,
    right: &ExprNode,
) -> Result<Want, Memory>
    ensures { IfOk result (λ want. want_view want
        ≡ spec.right_want (names_view names.now) vars.now op (tree.expr_view left.now)
        (tree.expr_view right.now)) }
{
    if !is_equality(op) {
        return Ok(ordered_side());
    }
    let asked = left_asked(names, vars, left, right)?;
    Ok(Want {
        asked: Some(type_of(names, vars, asked, left)?),
        rule: 10,
        plain: true,
        across: word_of(left),
    })
}

fn first_type<'a>(names: &TextNames<'a>, vars: &Vars<'a>, args: &[ExprNode]) -> Result<Kind, Memory>
    ensures { IfOk result (λ kind. kind
        ≡ spec.first_type (names_view names.now) vars.now (tree.exprs_view args.now)) }
{
    match args.first() {
        Some(first) => type_of(names, vars, None, first),
        None => Ok(UNKNOWN_KIND),
    }
}

fn before_kind(first: Kind) -> Kind
    ensures { result ≡ spec.before_kind first }
{
    match first.base {
        Base::Invocation => plain_kind(Base::Invocation),
        _ => plain_kind(Base::Call),
    }
}

/// The type of each argument that a word takes; all of them have one.
fn taken_by<'a>(
    names: &TextNames<'a>,
    vars: &Vars<'a>,
    word: CallWord,
    args: &[ExprNode],
) -> Result<Kind, Memory>
    ensures { IfOk result (λ kind. kind
        ≡ first_kind (spec.word_args (names_view names.now) vars.now word (tree.exprs_view args.now))) }
{
    match word {
        CallWord::Before => Ok(before_kind(first_type(names, vars, args)?)),
        CallWord::Visible | CallWord::Same | CallWord::Op | CallWord::Origin => {
            Ok(plain_kind(Base::Call))
        }
        CallWord::Info | CallWord::Result => Ok(plain_kind(Base::Invocation)),
    }
}

/// The type of an argument of a word, by its place. One too many has no known type.
pub fn word_arg<'a>(
    names: &TextNames<'a>,
    vars: &Vars<'a>,
    word: CallWord,
    args: &[ExprNode],
    place: usize,
) -> Result<Kind, Memory>
    ensures { IfOk result (λ kind. kind
        ≡ first_kind
        (drop place (spec.word_args (names_view names.now) vars.now word (tree.exprs_view args.now)))) }
{
    if place < word_takes(word) {
        taken_by(names, vars, word, args)
    } else {
        Ok(UNKNOWN_KIND)
    }
}
