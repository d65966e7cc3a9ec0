use crate::ident::Ident;
use crate::ty::Param;
use rp_grammar::{CallWord, CompareOp};
use rp_span::Span;
use rp_value::{Boxed, Bytes, List};

/// An expression. Parentheses around it are no part of its span.
#[cycle(expr)]
#[derive(Drop)]
pub struct ExprNode {
    pub span: Span,
    pub what: ExprForm,
}

/// What an expression is. Parts that are large or rare stand in boxes, so that a node is cheap to
/// hand on.
#[cycle(expr)]
#[derive(Drop)]
pub enum ExprForm {
    Implies(Boxed<ExprNode>, Boxed<ExprNode>),
    /// A chain of two or more.
    Or(List<ExprNode>),
    /// A chain of two or more.
    And(List<ExprNode>),
    Not(Boxed<ExprNode>),
    Forall(Boxed<Param>, Boxed<ExprNode>),
    Exists(Boxed<Param>, Boxed<ExprNode>),
    Compare(CompareOp, Boxed<ExprNode>, Boxed<ExprNode>),
    Plus(Boxed<ExprNode>, Boxed<ExprNode>),
    Minus(Boxed<ExprNode>, Boxed<ExprNode>),
    /// A number with its sign.
    Int(Boxed<i128>),
    /// The bytes that a string means.
    Str(Bytes),
    Truth(bool),
    NoneWord,
    SomeOf(Boxed<ExprNode>),
    Unreturned,
    Tx,
    Call(CallWord, List<ExprNode>),
    Match(Boxed<ExprNode>, List<ExprArm>),
    Access(Boxed<AccessNode>),
}

/// An arm of an `ExprForm::Match`.
#[cycle(expr)]
#[derive(Drop)]
pub struct ExprArm {
    pub pattern: PatternNode,
    pub body: ExprNode,
}

/// A root, the steps from it, and the arguments, where it has parentheses of its own.
#[cycle(expr)]
#[derive(Drop)]
pub struct AccessNode {
    pub root: Ident,
    pub steps: List<AccessStep>,
    pub args: Option<List<ExprNode>>,
}

#[cycle(expr)]
#[derive(Drop)]
pub enum AccessStep {
    Dot(Ident),
    Returned(Span),
    Key(ExprNode),
}

/// A constructor, which may be one of the words `none`, `some`, `true` and `false`,
/// and its variables.
#[derive(Drop)]
pub struct PatternNode {
    pub con: Ident,
    pub vars: List<Ident>,
}
