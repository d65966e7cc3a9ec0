//! Statements from their parts.
#![tactic(auto, using(crate::proofs::StmtViews::stmt_views))]

ghost use Rattle.std.specs.Prelude.{◌≡◌, IfOk};
ghost use Rattle.rp_grammar.specs.Trees.{StmtTree, StmtForm as StmtShape, ElseTree, BlockTree, BlockArmTree};
ghost use Rattle.rp_ast.specs.View.{optional, ident_view, type_view, pattern_view, expr_view, access_view, stmt_view, stmts_view, else_view, maybe_else_view, block_view, block_arm_view, block_arms_view};

use crate::expr::{AccessNode, ExprNode, PatternNode};
use crate::ident::Ident;
use crate::stmt::{Block, BlockArm, ElseNode, StmtForm, StmtNode};
use crate::ty::TypeNode;
use rp_span::Span;
use rp_value::{Boxed, List, Memory};
use std::alloc::Global;

pub fn var(span: Span, name: Ident, ty: TypeNode, value: Option<ExprNode>) -> StmtNode
    ensures { stmt_view result
        ≡ StmtTree.node span (StmtShape.var (ident_view name) (type_view ty)
        (optional expr_view value)) }
{
    StmtNode {
        span,
        what: StmtForm::Var(name, ty, value),
    }
}

pub fn new(span: Span, name: Ident, ty: Ident) -> StmtNode
    ensures { stmt_view result
        ≡ StmtTree.node span (StmtShape.new (ident_view name) (ident_view ty)) }
{
    StmtNode {
        span,
        what: StmtForm::New(name, ty),
    }
}

pub fn assign(span: Span, name: Ident, value: ExprNode) -> StmtNode
    ensures { stmt_view result
        ≡ StmtTree.node span (StmtShape.assign (ident_view name) (expr_view value)) }
{
    StmtNode {
        span,
        what: StmtForm::Assign(name, value),
    }
}

pub fn access(span: Span, access: AccessNode) -> StmtNode
    ensures { stmt_view result ≡ StmtTree.node span (StmtShape.access (access_view access)) }
{
    StmtNode {
        span,
        what: StmtForm::Access(access),
    }
}

pub fn if_(span: Span, condition: ExprNode, then: Block, otherwise: Option<ElseNode>) -> StmtNode
    ensures { stmt_view result
        ≡ StmtTree.node span (StmtShape.if_ (expr_view condition) (block_view then)
        (maybe_else_view otherwise)) }
{
    StmtNode {
        span,
        what: StmtForm::If(condition, then, otherwise),
    }
}

pub fn match_(span: Span, value: ExprNode, arms: List<BlockArm>) -> StmtNode
    ensures { stmt_view result
        ≡ StmtTree.node span (StmtShape.match (expr_view value) (block_arms_view arms)) }
{
    StmtNode {
        span,
        what: StmtForm::Match(value, arms),
    }
}

pub fn atomic(span: Span, body: Block) -> StmtNode
    ensures { stmt_view result ≡ StmtTree.node span (StmtShape.atomic (block_view body)) }
{
    StmtNode {
        span,
        what: StmtForm::Atomic(body),
    }
}

pub fn assert_(span: Span, condition: ExprNode) -> StmtNode
    ensures { stmt_view result ≡ StmtTree.node span (StmtShape.assert (expr_view condition)) }
{
    StmtNode {
        span,
        what: StmtForm::Assert(condition),
    }
}

pub fn return_(span: Span, value: Option<ExprNode>) -> StmtNode
    ensures { stmt_view result ≡ StmtTree.node span (StmtShape.return (optional expr_view value)) }
{
    StmtNode {
        span,
        what: StmtForm::Return(value),
    }
}

pub fn else_block(body: Block) -> ElseNode
    ensures { else_view result ≡ ElseTree.else_block (block_view body) }
{
    ElseNode::Block(body)
}

pub fn else_if(alloc: Global, branch: StmtNode) -> Result<ElseNode, Memory>
    ensures { IfOk result (λ x. else_view x ≡ ElseTree.else_if (stmt_view branch)) }
{
    Ok(ElseNode::If(Boxed::new(alloc, branch)?))
}

pub fn block(span: Span, stmts: List<StmtNode>) -> Block
    ensures { block_view result ≡ BlockTree.block span (stmts_view stmts) }
{
    Block { span, stmts }
}

pub fn arm(pattern: PatternNode, body: Block) -> BlockArm
    ensures { block_arm_view result ≡ BlockArmTree.arm (pattern_view pattern) (block_view body) }
{
    BlockArm { pattern, body }
}
