//! Statements.

ghost use Rattle.std.specs.Prelude.{◌≡◌, ◌∷◌, [], ◌++◌, OnOk};
ghost use Rattle.rp_grammar.specs.Terminals as terminal;
ghost use Rattle.rp_grammar.specs.declared.terminal.Word.TheVariants as word;
ghost use Rattle.rp_grammar.specs.declared.terminal.Symbol.TheVariants as symbol;
ghost use Rattle.rp_grammar.specs.Trees.{StmtForm as StmtShape};
ghost use Rattle.rp_print.specs.declared.Place.TheVariants as place;
ghost use Rattle.rp_print.specs.Printed.{followed, in_parens, expr_terminals, value_terminals, result_terminals, block_terminals, stmts_terminals, stmt_terminals, stmt_form_terminals, else_terminals, block_arm_terminals, block_arms_terminals};
ghost use Rattle.rp_ast.specs.View.{optional, ident_view, type_view, expr_view, block_view, stmts_view, stmt_view, maybe_else_view, else_view, block_arm_view, block_arms_view};

use crate::Place;
use crate::expr::{put_access, put_expr, put_on, put_pattern};
use crate::token::{put_symbol, put_word};
use crate::ty::{put_ident, put_type};
use rp_ast::{Block, BlockArm, ElseNode, ExprNode, Ident, StmtForm, StmtNode, TypeNode};
use rp_grammar::{Symbol, Word};
use rp_value::Memory;

/// A variable's first value.
#[tactic(auto, using(crate::proofs::Appends::appends))]
fn put_value(out: &mut Vec<u8>, value: &Option<ExprNode>) -> Result<(), Memory>
    ensures { OnOk result (out.new.items ≡ out.old.items
        ++ followed (value_terminals (optional expr_view value.now))) }
{
    match value {
        None => Ok(()),
        Some(e) => {
            put_symbol(out, Symbol::Assign)?;
            put_expr(out, e, Place::Whole)
        }
    }
}

#[tactic(auto, using(crate::proofs::Appends::appends))]
fn put_result(out: &mut Vec<u8>, value: &Option<ExprNode>) -> Result<(), Memory>
    ensures { OnOk result (out.new.items ≡ out.old.items
        ++ followed (result_terminals (optional expr_view value.now))) }
{
    match value {
        None => Ok(()),
        Some(e) => put_expr(out, e, Place::Whole),
    }
}

/// A variable's declaration.
#[tactic(auto, using(crate::proofs::Appends::appends))]
fn put_var(
    out: &mut Vec<u8>,
    n: &Ident,
    t: &TypeNode,
    value: &Option<ExprNode>,
) -> Result<(), Memory>
    ensures { OnOk result (out.new.items ≡ out.old.items
        ++ followed (stmt_form_terminals (StmtShape.var
        (ident_view n.now) (type_view t.now) (optional expr_view value.now)))) }
{
    put_word(out, Word::Var)?;
    put_ident(out, n)?;
    put_symbol(out, Symbol::Colon)?;
    put_type(out, t)?;
    put_value(out, value)?;
    put_symbol(out, Symbol::Semicolon)
}

/// A new id of a type, and the variable that it is put into.
#[tactic(auto, using(crate::proofs::Appends::appends))]
fn put_new(out: &mut Vec<u8>, n: &Ident, t: &Ident) -> Result<(), Memory>
    ensures { OnOk result (out.new.items ≡ out.old.items
        ++ followed (stmt_form_terminals (StmtShape.new (ident_view n.now) (ident_view t.now)))) }
{
    put_ident(out, n)?;
    put_symbol(out, Symbol::Assign)?;
    put_word(out, Word::New)?;
    put_ident(out, t)?;
    put_symbol(out, Symbol::Semicolon)
}

#[tactic(auto, using(crate::proofs::Appends::appends))]
fn put_assign(out: &mut Vec<u8>, n: &Ident, e: &ExprNode) -> Result<(), Memory>
    ensures { OnOk result (out.new.items ≡ out.old.items
        ++ followed (stmt_form_terminals (StmtShape.assign (ident_view n.now) (expr_view e.now)))) }
{
    put_ident(out, n)?;
    put_symbol(out, Symbol::Assign)?;
    put_expr(out, e, Place::Whole)?;
    put_symbol(out, Symbol::Semicolon)
}

#[cycle(put_stmts)]
#[tactic(auto, using(rp_ast::proofs::StmtViews::stmt_views, crate::proofs::Appends::appends))]
pub fn put_block(out: &mut Vec<u8>, b: &Block) -> Result<(), Memory>
    ensures { OnOk result (out.new.items ≡ out.old.items
        ++ followed (block_terminals (block_view b.now))) }
{
    put_symbol(out, Symbol::OpenBrace)?;
    put_stmts(out, b.stmts.as_slice())?;
    put_symbol(out, Symbol::CloseBrace)
}

#[cycle(put_stmts)]
fn put_stmts(out: &mut Vec<u8>, stmts: &[StmtNode]) -> Result<(), Memory>
    ensures { OnOk result (out.new.items ≡ out.old.items
        ++ followed (stmts_terminals (stmts_view stmts.now))) }
{
    for s in stmts {
        put_stmt(out, s)?;
    }
    Ok(())
}

#[cycle(put_stmts)]
#[tactic(auto, using(rp_ast::proofs::StmtViews::stmt_views, crate::proofs::Appends::appends))]
fn put_stmt(out: &mut Vec<u8>, s: &StmtNode) -> Result<(), Memory>
    ensures { OnOk result (out.new.items ≡ out.old.items
        ++ followed (stmt_terminals (stmt_view s.now))) }
{
    match &s.what {
        StmtForm::Var(n, t, value) => put_var(out, n, t, value),
        StmtForm::New(n, t) => put_new(out, n, t),
        StmtForm::Assign(n, e) => put_assign(out, n, e),
        StmtForm::Access(a) => {
            put_access(out, a)?;
            put_symbol(out, Symbol::Semicolon)
        }
        StmtForm::If(e, b, otherwise) => {
            put_on(out, Word::If, e, Place::Whole)?;
            put_block(out, b)?;
            put_maybe_else(out, otherwise)
        }
        StmtForm::Match(e, arms) => {
            put_on(out, Word::Match, e, Place::Whole)?;
            put_symbol(out, Symbol::OpenBrace)?;
            put_block_arms(out, arms.as_slice())?;
            put_symbol(out, Symbol::CloseBrace)
        }
        StmtForm::Atomic(b) => {
            put_word(out, Word::Atomic)?;
            put_block(out, b)
        }
        StmtForm::Assert(e) => {
            put_word(out, Word::Assert)?;
            put_expr(out, e, Place::Whole)?;
            put_symbol(out, Symbol::Semicolon)
        }
        StmtForm::Return(value) => {
            put_word(out, Word::Return)?;
            put_result(out, value)?;
            put_symbol(out, Symbol::Semicolon)
        }
    }
}

#[cycle(put_stmts)]
#[tactic(auto, using(rp_ast::proofs::StmtViews::stmt_views, crate::proofs::Appends::appends))]
fn put_maybe_else(out: &mut Vec<u8>, otherwise: &Option<ElseNode>) -> Result<(), Memory>
    ensures { OnOk result (out.new.items ≡ out.old.items
        ++ followed (else_terminals (maybe_else_view otherwise.now))) }
{
    match otherwise {
        None => Ok(()),
        Some(ElseNode::Block(b)) => {
            put_word(out, Word::Else)?;
            put_block(out, b)
        }
        Some(ElseNode::If(s)) => {
            put_word(out, Word::Else)?;
            put_stmt(out, s)
        }
    }
}

#[cycle(put_stmts)]
#[tactic(auto, using(rp_ast::proofs::StmtViews::stmt_views, crate::proofs::Appends::appends))]
fn put_block_arm(out: &mut Vec<u8>, a: &BlockArm) -> Result<(), Memory>
    ensures { OnOk result (out.new.items ≡ out.old.items
        ++ followed (block_arm_terminals (block_arm_view a.now))) }
{
    put_pattern(out, &a.pattern)?;
    put_symbol(out, Symbol::Arrow)?;
    put_block(out, &a.body)
}

#[cycle(put_stmts)]
fn put_block_arms(out: &mut Vec<u8>, arms: &[BlockArm]) -> Result<(), Memory>
    ensures { OnOk result (out.new.items ≡ out.old.items
        ++ followed (block_arms_terminals (block_arms_view arms.now))) }
{
    for a in arms {
        put_block_arm(out, a)?;
    }
    Ok(())
}
