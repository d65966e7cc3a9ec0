use crate::expr::{AccessNode, ExprNode, PatternNode};
use crate::ident::Ident;
use crate::ty::TypeNode;
use rp_span::Span;
use rp_value::{Boxed, List};

/// Statements in braces.
#[cycle(stmt)]
#[derive(Drop)]
pub struct Block {
    pub span: Span,
    pub stmts: List<StmtNode>,
}

#[cycle(stmt)]
#[derive(Drop)]
pub struct StmtNode {
    pub span: Span,
    pub what: StmtForm,
}

#[cycle(stmt)]
#[derive(Drop)]
pub enum StmtForm {
    Var(Ident, TypeNode, Option<ExprNode>),
    /// A variable, and the type of its new id.
    New(Ident, Ident),
    Assign(Ident, ExprNode),
    Access(AccessNode),
    If(ExprNode, Block, Option<ElseNode>),
    Match(ExprNode, List<BlockArm>),
    Atomic(Block),
    Assert(ExprNode),
    Return(Option<ExprNode>),
}

/// What stands behind an `else`.
#[cycle(stmt)]
#[derive(Drop)]
pub enum ElseNode {
    Block(Block),
    /// A further `if`.
    If(Boxed<StmtNode>),
}

/// An arm of a `StmtForm::Match`.
#[cycle(stmt)]
#[derive(Drop)]
pub struct BlockArm {
    pub pattern: PatternNode,
    pub body: Block,
}
