//! The tokens at which phrases begin.

ghost use Rattle.std.specs.Prelude.{◌≡◌, ◌<◌, ◌+◌, IfOk, length};
ghost use Rattle.rp_ast.specs.View.{block_view, expr_view, exprs_view, param_view, type_view};
ghost use Rattle.type_rules.specs.Starts as spec;

use rp_ast::{Block, ExprForm, ExprNode, Param, TypeForm, TypeNode};
use rp_span::Span;
use rp_value::Memory;
use type_tables::called_word;

/// So many bytes at the start of a span.
fn bytes_at(count: u32, at: Span) -> Result<Span, Memory>
    ensures { IfOk result (λ span. span ≡ record { from = at.from; to = at.from + count }) }
{
    match at.from.checked_add(count) {
        Some(to) => Ok(Span { from: at.from, to }),
        None => Err(Memory),
    }
}

/// The word of this text at the start of a span.
pub fn word_at(word: &[u8], at: Span) -> Result<Span, Memory>
    requires { length word.now < 256 }
    ensures { IfOk result (λ span. span ≡ spec.word_at word.now at) }
{
    bytes_at(word.len() as u32, at)
}

/// One byte at the start of a span.
fn mark_at(at: Span) -> Result<Span, Memory>
    ensures { IfOk result (λ span. span ≡ spec.mark_at at) }
{
    bytes_at(1, at)
}

/// The closing brace of a block.
pub fn brace_of(block: &Block) -> Span
    ensures { result ≡ spec.brace_of (block_view block.now) }
{
    Span {
        from: block.span.to.saturating_sub(1),
        to: block.span.to,
    }
}

/// The token at which a type begins.
pub fn type_start(ty: &TypeNode) -> Result<Span, Memory>
    ensures { IfOk result (λ span. span ≡ spec.type_start (type_view ty.now)) }
{
    match &ty.what {
        TypeForm::Maybe(_) => word_at(b"Maybe", ty.span),
        TypeForm::Named(_)
        | TypeForm::Bool
        | TypeForm::Int
        | TypeForm::Text
        | TypeForm::Call
        | TypeForm::Invocation => Ok(ty.span),
    }
}

/// The word of a quantifier. A later variable of one quantifier begins its own node.
fn quantifier_start(at: Span, word: &[u8], param: &Param) -> Result<Span, Memory>
    requires { length word.now < 256 }
    ensures { IfOk result (λ span. span ≡ spec.quantifier_start at word.now (param_view param.now)) }
{
    if param.name.span.from == at.from {
        Ok(param.name.span)
    } else {
        word_at(word, at)
    }
}

/// A sign, or a whole number.
fn int_start(at: Span, number: i128) -> Result<Span, Memory>
    ensures { IfOk result (λ span. span ≡ spec.int_start at number) }
{
    if number < 0 { mark_at(at) } else { Ok(at) }
}

/// The token at which a phrase begins that begins with an operand.
#[cycle(starts)]
fn operand_start(at: Span, operand: &ExprNode) -> Result<Span, Memory>
    ensures { IfOk result (λ span. span ≡ spec.operand_start at (spec.own_span (expr_view operand.now))
        (spec.start (expr_view operand.now))) }
{
    if operand.span.from == at.from {
        start(operand)
    } else {
        mark_at(at)
    }
}

/// The token at which a chain begins.
#[cycle(starts)]
fn chain_start(at: Span, operands: &[ExprNode]) -> Result<Span, Memory>
    ensures { IfOk result (λ span. span ≡ spec.first_start at (exprs_view operands.now)) }
{
    match operands.first() {
        Some(first) => operand_start(at, first),
        None => Ok(at),
    }
}

/// The token at which an expression begins.
#[cycle(starts)]
#[tactic(auto, using(rp_ast::proofs::ExprViews::expr_views))]
pub fn start(e: &ExprNode) -> Result<Span, Memory>
    ensures { IfOk result (λ span. span ≡ spec.start (expr_view e.now)) }
{
    let at = e.span;
    match &e.what {
        ExprForm::Implies(left, _) => operand_start(at, left.get()),
        ExprForm::Or(operands) => chain_start(at, operands.as_slice()),
        ExprForm::And(operands) => chain_start(at, operands.as_slice()),
        ExprForm::Not(_) => mark_at(at),
        ExprForm::Forall(param, _) => quantifier_start(at, b"forall", param.get()),
        ExprForm::Exists(param, _) => quantifier_start(at, b"exists", param.get()),
        ExprForm::Compare(_, left, _) => operand_start(at, left.get()),
        ExprForm::Plus(left, _) => operand_start(at, left.get()),
        ExprForm::Minus(left, _) => operand_start(at, left.get()),
        ExprForm::Int(number) => int_start(at, *number.get()),
        ExprForm::Str(_) => Ok(at),
        ExprForm::Truth(_) => Ok(at),
        ExprForm::NoneWord => Ok(at),
        ExprForm::SomeOf(_) => word_at(b"some", at),
        ExprForm::Unreturned => Ok(at),
        ExprForm::Tx => Ok(at),
        ExprForm::Call(word, _) => word_at(called_word(*word), at),
        ExprForm::Match(_, _) => word_at(b"match", at),
        ExprForm::Access(access) => Ok(access.root.span),
    }
}
