//! Expressions from their parts.
#![tactic(auto, using(crate::proofs::ExprViews::expr_views))]

ghost use Rattle.std.specs.Prelude.{◌≡◌, IfOk};
ghost use Rattle.rp_grammar.specs.Trees.{ExprTree, ExprForm as ExprShape, AccessTree, ExprArmTree, StepTree};
ghost use Rattle.rp_ast.specs.View.{ident_view, pattern_view, param_view, expr_view, exprs_view, access_view, steps_view, step_view, args_view, expr_arm_view, expr_arms_view};

use super::both;
use crate::expr::{AccessNode, AccessStep, ExprArm, ExprForm, ExprNode, PatternNode};
use crate::ident::Ident;
use crate::ty::Param;
use rp_grammar::{CallWord, CompareOp};
use rp_span::Span;
use rp_value::{Boxed, Bytes, List, Memory};
use std::alloc::Global;

pub fn implies(
    alloc: Global,
    span: Span,
    left: ExprNode,
    right: ExprNode,
) -> Result<ExprNode, Memory>
    ensures { IfOk result (λ x. expr_view x
        ≡ ExprTree.node span (ExprShape.implies (expr_view left) (expr_view right))) }
{
    let (left, right) = both(alloc, left, right)?;
    Ok(ExprNode {
        span,
        what: ExprForm::Implies(left, right),
    })
}

pub fn or(span: Span, members: List<ExprNode>) -> ExprNode
    ensures { expr_view result ≡ ExprTree.node span (ExprShape.or (exprs_view members)) }
{
    ExprNode {
        span,
        what: ExprForm::Or(members),
    }
}

pub fn and(span: Span, members: List<ExprNode>) -> ExprNode
    ensures { expr_view result ≡ ExprTree.node span (ExprShape.and (exprs_view members)) }
{
    ExprNode {
        span,
        what: ExprForm::And(members),
    }
}

pub fn not(alloc: Global, span: Span, operand: ExprNode) -> Result<ExprNode, Memory>
    ensures { IfOk result (λ x. expr_view x
        ≡ ExprTree.node span (ExprShape.not (expr_view operand))) }
{
    let what = ExprForm::Not(Boxed::new(alloc, operand)?);
    Ok(ExprNode { span, what })
}

pub fn forall(
    alloc: Global,
    span: Span,
    variable: Param,
    body: ExprNode,
) -> Result<ExprNode, Memory>
    ensures { IfOk result (λ x. expr_view x
        ≡ ExprTree.node span (ExprShape.forall (param_view variable) (expr_view body))) }
{
    let (variable, body) = both(alloc, variable, body)?;
    Ok(ExprNode {
        span,
        what: ExprForm::Forall(variable, body),
    })
}

pub fn exists(
    alloc: Global,
    span: Span,
    variable: Param,
    body: ExprNode,
) -> Result<ExprNode, Memory>
    ensures { IfOk result (λ x. expr_view x
        ≡ ExprTree.node span (ExprShape.exists (param_view variable) (expr_view body))) }
{
    let (variable, body) = both(alloc, variable, body)?;
    Ok(ExprNode {
        span,
        what: ExprForm::Exists(variable, body),
    })
}

pub fn compare(
    alloc: Global,
    span: Span,
    op: CompareOp,
    left: ExprNode,
    right: ExprNode,
) -> Result<ExprNode, Memory>
    ensures { IfOk result (λ x. expr_view x
        ≡ ExprTree.node span (ExprShape.compare op (expr_view left) (expr_view right))) }
{
    let (left, right) = both(alloc, left, right)?;
    Ok(ExprNode {
        span,
        what: ExprForm::Compare(op, left, right),
    })
}

pub fn plus(alloc: Global, span: Span, left: ExprNode, right: ExprNode) -> Result<ExprNode, Memory>
    ensures { IfOk result (λ x. expr_view x
        ≡ ExprTree.node span (ExprShape.plus (expr_view left) (expr_view right))) }
{
    let (left, right) = both(alloc, left, right)?;
    Ok(ExprNode {
        span,
        what: ExprForm::Plus(left, right),
    })
}

pub fn minus(alloc: Global, span: Span, left: ExprNode, right: ExprNode) -> Result<ExprNode, Memory>
    ensures { IfOk result (λ x. expr_view x
        ≡ ExprTree.node span (ExprShape.minus (expr_view left) (expr_view right))) }
{
    let (left, right) = both(alloc, left, right)?;
    Ok(ExprNode {
        span,
        what: ExprForm::Minus(left, right),
    })
}

pub fn int(alloc: Global, span: Span, value: i128) -> Result<ExprNode, Memory>
    ensures { IfOk result (λ x. expr_view x ≡ ExprTree.node span (ExprShape.int value)) }
{
    let what = ExprForm::Int(Boxed::new(alloc, value)?);
    Ok(ExprNode { span, what })
}

pub fn str(span: Span, meant: Bytes) -> ExprNode
    ensures { expr_view result ≡ ExprTree.node span (ExprShape.str meant) }
{
    ExprNode {
        span,
        what: ExprForm::Str(meant),
    }
}

pub fn truth(span: Span, value: bool) -> ExprNode
    ensures { expr_view result ≡ ExprTree.node span (ExprShape.truth value) }
{
    ExprNode {
        span,
        what: ExprForm::Truth(value),
    }
}

pub fn none_word(span: Span) -> ExprNode
    ensures { expr_view result ≡ ExprTree.node span ExprShape.none_word }
{
    ExprNode {
        span,
        what: ExprForm::NoneWord,
    }
}

pub fn some_of(alloc: Global, span: Span, value: ExprNode) -> Result<ExprNode, Memory>
    ensures { IfOk result (λ x. expr_view x
        ≡ ExprTree.node span (ExprShape.some_of (expr_view value))) }
{
    let what = ExprForm::SomeOf(Boxed::new(alloc, value)?);
    Ok(ExprNode { span, what })
}

pub fn unreturned(span: Span) -> ExprNode
    ensures { expr_view result ≡ ExprTree.node span ExprShape.unreturned }
{
    ExprNode {
        span,
        what: ExprForm::Unreturned,
    }
}

pub fn tx(span: Span) -> ExprNode
    ensures { expr_view result ≡ ExprTree.node span ExprShape.tx }
{
    ExprNode {
        span,
        what: ExprForm::Tx,
    }
}

pub fn call(span: Span, word: CallWord, args: List<ExprNode>) -> ExprNode
    ensures { expr_view result ≡ ExprTree.node span (ExprShape.call word (exprs_view args)) }
{
    ExprNode {
        span,
        what: ExprForm::Call(word, args),
    }
}

pub fn match_(
    alloc: Global,
    span: Span,
    value: ExprNode,
    arms: List<ExprArm>,
) -> Result<ExprNode, Memory>
    ensures { IfOk result (λ x. expr_view x
        ≡ ExprTree.node span (ExprShape.match (expr_view value) (expr_arms_view arms))) }
{
    let what = ExprForm::Match(Boxed::new(alloc, value)?, arms);
    Ok(ExprNode { span, what })
}

pub fn access(alloc: Global, span: Span, access: AccessNode) -> Result<ExprNode, Memory>
    ensures { IfOk result (λ x. expr_view x
        ≡ ExprTree.node span (ExprShape.access (access_view access))) }
{
    let what = ExprForm::Access(Boxed::new(alloc, access)?);
    Ok(ExprNode { span, what })
}

pub fn arm(pattern: PatternNode, body: ExprNode) -> ExprArm
    ensures { expr_arm_view result ≡ ExprArmTree.arm (pattern_view pattern) (expr_view body) }
{
    ExprArm { pattern, body }
}

pub fn path(root: Ident, steps: List<AccessStep>, args: Option<List<ExprNode>>) -> AccessNode
    ensures { access_view result
        ≡ AccessTree.path (ident_view root) (steps_view steps) (args_view args) }
{
    AccessNode { root, steps, args }
}

pub fn dot(name: Ident) -> AccessStep
    ensures { step_view result ≡ StepTree.dot (ident_view name) }
{
    AccessStep::Dot(name)
}

pub fn returned(span: Span) -> AccessStep
    ensures { step_view result ≡ StepTree.returned span }
{
    AccessStep::Returned(span)
}

pub fn key(key: ExprNode) -> AccessStep
    ensures { step_view result ≡ StepTree.key (expr_view key) }
{
    AccessStep::Key(key)
}
