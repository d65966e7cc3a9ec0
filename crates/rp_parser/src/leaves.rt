//! Names, and expressions of one or two tokens.

ghost use Rattle.std.specs.Prelude.{◌≡◌, ℕ, ◌≤◌, pos, neg_ℤ, ◌<◌, [], ◌∷◌, ◌++◌, IfOk, IfSome, MatchOption, length, false};
ghost use Rattle.rp_grammar.specs.Trees.{ident as ident_tree, ExprTree, ExprForm};
ghost use Rattle.rp_grammar.specs.Trees.{ParamTree};
ghost use Rattle.rp_grammar.specs.Exprs.{quantified as quantified_form};
ghost use Rattle.rp_grammar.specs.declared.terminal.Symbol.{Symbol as SymbolValue};
ghost use Rattle.rp_grammar.specs.Parts.{Part, part};
ghost use Rattle.rp_grammar.specs.Toks.{escaped as escaped_byte};
ghost use Rattle.rp_ast.specs.View.{ident_view, param_view, expr_view};
ghost use Rattle.rp_tokens.specs.MachineStates.{State};
ghost use Rattle.rp_tokens.specs.Machine.{Bounded};
ghost use Rattle.rp_parser.specs.means.Marks.{meant};
ghost use Rattle.rp_parser.specs.means.Reading.{Stands, Within, left, next_of};
ghost use Rattle.rp_parser.specs.means.ExprStarts.{leaf_form, quantifier_of};
ghost use Rattle.rp_parser.specs.means.Signs.{sum_form};

use crate::expr_starts::{Leaf, QuantifierKind};
use crate::fault::Fault;
use crate::mark::Rest;
use crate::rest::nowhere;
use crate::signs::SumSign;
use rp_ast::build::expr;
use rp_ast::{ExprNode, Ident, Param};
use rp_span::Span;
use rp_value::{Bytes, List, Memory, copy_bytes};
use std::alloc::Global;

pub(crate) fn ident(alloc: Global, span: Span, bytes: &[u8]) -> Result<Ident, Memory>
    ensures view { IfOk result (λ n. ident_view n ≡ ident_tree bytes.now span) }
    ensures span { IfOk result (λ n. n.span ≡ span) }
{
    let text = copy_bytes(alloc, bytes)?;
    Ok(Ident { text, span })
}

/// What a byte behind a backslash means.
fn escaped(byte: u8) -> u8
    ensures { result ≡ escaped_byte byte }
{
    if byte == b'n' { b'\n' } else { byte }
}

/// The first byte that the inside of a string means, and what is left.
fn first_meant(inside: &[u8]) -> Option<(u8, &[u8])>
    ensures meant { MatchOption result (inside.now ≡ [])
        (λ x. meant inside.now ≡ x.0 ∷ meant x.1.now) }
    ensures shorter { IfSome result (λ x. length x.1.now < length inside.now) }
{
    let Some((first, rest)) = inside.split_first() else {
        return None;
    };
    if *first != b'\\' {
        return Some((*first, rest));
    }
    match rest.split_first() {
        Some((second, end)) => Some((escaped(*second), end)),
        None => Some((*first, rest)),
    }
}

/// The bytes that the inside of a string means.
fn meant_bytes(alloc: Global, inside: &[u8]) -> Result<Bytes, Memory>
    ensures { IfOk result (λ bytes. bytes ≡ meant inside.now) }
{
    let mut bytes = List::new(alloc);
    let mut rest = inside;
    'bytes: loop {
        let Some((byte, after)) = first_meant(rest) else {
            return Ok(bytes);
        };
        bytes.push(byte)?;
        rest = after;
    }
}

pub(crate) fn leaf_node(alloc: Global, span: Span, leaf: Leaf) -> Result<ExprNode, Memory>
    ensures { IfOk result (λ e. expr_view e ≡ ExprTree.node span (leaf_form leaf.entry)) }
{
    Ok(match leaf {
        Leaf::Number(value) => expr::int(alloc, span, value as i128)?,
        Leaf::Text(inside) => expr::str(span, meant_bytes(alloc, inside)?),
        Leaf::Truth(value) => expr::truth(span, value),
        Leaf::NoneWord => expr::none_word(span),
        Leaf::Unreturned => expr::unreturned(span),
        Leaf::Tx => expr::tx(span),
    })
}

pub(crate) fn negative(alloc: Global, span: Span, value: u64) -> Result<ExprNode, Memory>
    ensures { IfOk result (λ e. expr_view e
        ≡ ExprTree.node span (ExprForm.int (neg_ℤ (pos value)))) }
{
    expr::int(alloc, span, -(value as i128))
}

pub(crate) fn quantified(
    alloc: Global,
    quantifier: QuantifierKind,
    span: Span,
    variable: Param,
    body: ExprNode,
) -> Result<ExprNode, Memory>
    ensures { IfOk result (λ e. expr_view e
        ≡ ExprTree.node span (quantified_form (quantifier_of quantifier) (param_view variable) (expr_view body))) }
{
    match quantifier {
        QuantifierKind::Forall => expr::forall(alloc, span, variable, body),
        QuantifierKind::Exists => expr::exists(alloc, span, variable, body),
    }
}

pub(crate) fn sum(
    alloc: Global,
    span: Span,
    sign: SumSign,
    left: ExprNode,
    right: ExprNode,
) -> Result<ExprNode, Memory>
    ensures { IfOk result (λ e. expr_view e
        ≡ ExprTree.node span (sum_form sign (expr_view left) (expr_view right))) }
{
    match sign {
        SumSign::Plus => expr::plus(alloc, span, left, right),
        SumSign::Minus => expr::minus(alloc, span, left, right),
    }
}

/// What stands in for an expression behind a fault.
pub(crate) fn no_expr() -> ExprNode {
    expr::tx(nowhere())
}

/// A node that was made, with its extent.
pub(crate) fn extended<'a>(
    node: Result<ExprNode, Memory>,
    extent: Span,
    rest: Rest<'a>,
) -> (ExprNode, Span, Rest<'a>)
    ensures within { (d : ℕ) → Within d rest.entry → Within d result.2 }
    ensures no_longer { left result.2 ≤ left rest.entry }
    ensures next { (m : SymbolValue) → next_of m rest.entry ≡ false → next_of m result.2 ≡ false }
    ensures reads { (o : Bounded) (e : ExprTree) (k : Part ExprTree → State)
        → IfOk node (λ x. expr_view x ≡ e) → Stands rest.entry (k (part e extent)) o
        → Stands result.2 (k (part (expr_view result.0) result.1)) o }
{
    match node {
        Ok(whole) => (whole, extent, rest),
        Err(_) => (no_expr(), extent, Rest::Failed(Fault::Memory)),
    }
}
