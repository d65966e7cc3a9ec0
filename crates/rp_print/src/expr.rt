//! Expressions.

ghost use Rattle.std.specs.Prelude.{◌≡◌, ◌∷◌, [], ◌++◌, map, false, OnOk};
ghost use Rattle.rp_grammar.specs.Terminals as terminal;
ghost use Rattle.rp_grammar.specs.declared.terminal.Symbol.TheVariants as symbol;
ghost use Rattle.rp_print.specs.declared.Place.TheVariants as place;
ghost use Rattle.rp_print.specs.Printed.{followed, separated, in_parens, int_terminals, con_terminal, vars_terminals, pattern_terminals, param_terminals, compare_symbol, call_word, truth_word, name_terminal, is_composite as is_composite_form, is_negative as is_negative_form, needs_parens as needs_parens_at, expr_terminals, form_terminals, exprs_terminals, arm_terminals, arms_terminals, access_terminals, step_terminals, steps_terminals, args_terminals};
ghost use Rattle.rp_ast.specs.View.{ident_view, idents_view, pattern_view, param_view, expr_view, expr_form_view, exprs_view, expr_arm_view, expr_arms_view, access_view, step_view, steps_view, args_view};

use crate::Place;
use crate::token::{put_int, put_name, put_separator, put_str, put_symbol, put_word};
use crate::ty::{put_ident, put_param};
use rp_ast::{AccessNode, AccessStep, ExprArm, ExprForm, ExprNode, Ident, Param, PatternNode};
use rp_grammar::{CallWord, CompareOp, Symbol, Word};
use rp_value::Memory;

fn compare_text(op: CompareOp) -> Symbol
    ensures { result ≡ compare_symbol op }
{
    match op {
        CompareOp::Equal => Symbol::Equal,
        CompareOp::NotEqual => Symbol::NotEqual,
        CompareOp::Less => Symbol::Less,
        CompareOp::AtMost => Symbol::AtMost,
        CompareOp::Greater => Symbol::Greater,
        CompareOp::AtLeast => Symbol::AtLeast,
    }
}

fn call_text(w: CallWord) -> Word
    ensures { result ≡ call_word w }
{
    match w {
        CallWord::Visible => Word::Visible,
        CallWord::Before => Word::Before,
        CallWord::Same => Word::Same,
        CallWord::Op => Word::Op,
        CallWord::Origin => Word::Origin,
        CallWord::Info => Word::Info,
        CallWord::Result => Word::Result,
    }
}

/// Whether it is formed with an operator, `!` or a quantifier.
fn is_composite(what: &ExprForm) -> bool
    ensures { result ≡ is_composite_form (expr_form_view what.now) }
{
    match what {
        ExprForm::Implies(_, _) => true,
        ExprForm::Or(_) => true,
        ExprForm::And(_) => true,
        ExprForm::Not(_) => true,
        ExprForm::Forall(_, _) => true,
        ExprForm::Exists(_, _) => true,
        ExprForm::Compare(_, _, _) => true,
        ExprForm::Plus(_, _) => true,
        ExprForm::Minus(_, _) => true,
        ExprForm::Int(_) => false,
        ExprForm::Str(_) => false,
        ExprForm::Truth(_) => false,
        ExprForm::NoneWord => false,
        ExprForm::SomeOf(_) => false,
        ExprForm::Unreturned => false,
        ExprForm::Tx => false,
        ExprForm::Call(_, _) => false,
        ExprForm::Match(_, _) => false,
        ExprForm::Access(_) => false,
    }
}

fn is_negative(what: &ExprForm) -> bool
    ensures { result ≡ is_negative_form (expr_form_view what.now) }
{
    match what {
        ExprForm::Implies(_, _) => false,
        ExprForm::Or(_) => false,
        ExprForm::And(_) => false,
        ExprForm::Not(_) => false,
        ExprForm::Forall(_, _) => false,
        ExprForm::Exists(_, _) => false,
        ExprForm::Compare(_, _, _) => false,
        ExprForm::Plus(_, _) => false,
        ExprForm::Minus(_, _) => false,
        ExprForm::Int(n) => *n.get() < 0,
        ExprForm::Str(_) => false,
        ExprForm::Truth(_) => false,
        ExprForm::NoneWord => false,
        ExprForm::SomeOf(_) => false,
        ExprForm::Unreturned => false,
        ExprForm::Tx => false,
        ExprForm::Call(_, _) => false,
        ExprForm::Match(_, _) => false,
        ExprForm::Access(_) => false,
    }
}

fn needs_parens(place: Place, what: &ExprForm) -> bool
    ensures { result ≡ needs_parens_at place (expr_form_view what.now) }
{
    match place {
        Place::Whole => false,
        Place::Argument => is_composite(what),
        Place::Operand => is_composite(what) || is_negative(what),
    }
}

fn put_number(out: &mut Vec<u8>, n: i128) -> Result<(), Memory>
    ensures { OnOk result (out.new.items ≡ out.old.items ++ followed (int_terminals n)) }
{
    if n < 0 {
        put_symbol(out, Symbol::Minus)?;
    }
    put_int(out, n.unsigned_abs())
}

fn put_vars(out: &mut Vec<u8>, vars: &[Ident]) -> Result<(), Memory>
    ensures { OnOk result (out.new.items ≡ out.old.items
        ++ followed (separated symbol.Comma
        (map (λ n. name_terminal n ∷ []) (idents_view vars.now)))) }
{
    for (i, v) in vars.iter().enumerate() {
        put_separator(out, Symbol::Comma, i)?;
        put_ident(out, v)?;
    }
    Ok(())
}

/// The constructor of a pattern.
fn put_con(out: &mut Vec<u8>, n: &Ident) -> Result<(), Memory>
    ensures { OnOk result (out.new.items ≡ out.old.items
        ++ followed (con_terminal (ident_view n.now) ∷ [])) }
{
    put_name(out, n.text.as_slice())
}

/// The variables of a pattern, in parentheses where there are any.
#[tactic(auto, using(crate::proofs::Appends::appends))]
fn put_bindings(out: &mut Vec<u8>, vars: &[Ident]) -> Result<(), Memory>
    ensures { OnOk result (out.new.items ≡ out.old.items
        ++ followed (vars_terminals (idents_view vars.now))) }
{
    if vars.is_empty() {
        return Ok(());
    }
    put_symbol(out, Symbol::OpenParen)?;
    put_vars(out, vars)?;
    put_symbol(out, Symbol::CloseParen)
}

#[tactic(auto, using(crate::proofs::Appends::appends))]
pub fn put_pattern(out: &mut Vec<u8>, p: &PatternNode) -> Result<(), Memory>
    ensures { OnOk result (out.new.items ≡ out.old.items
        ++ followed (pattern_terminals (pattern_view p.now))) }
{
    put_con(out, &p.con)?;
    put_bindings(out, p.vars.as_slice())
}

#[cycle(put_exprs)]
#[tactic(auto, using(rp_ast::proofs::ExprViews::expr_views, crate::proofs::Appends::appends))]
pub fn put_expr(out: &mut Vec<u8>, e: &ExprNode, place: Place) -> Result<(), Memory>
    ensures { OnOk result (out.new.items ≡ out.old.items
        ++ followed (expr_terminals place (expr_view e.now))) }
{
    if needs_parens(place, &e.what) {
        put_symbol(out, Symbol::OpenParen)?;
        put_form(out, &e.what)?;
        put_symbol(out, Symbol::CloseParen)
    } else {
        put_form(out, &e.what)
    }
}

#[cycle(put_exprs)]
#[tactic(auto, using(rp_ast::proofs::ExprViews::expr_views, crate::proofs::Appends::appends))]
fn put_form(out: &mut Vec<u8>, what: &ExprForm) -> Result<(), Memory>
    ensures { OnOk result (out.new.items ≡ out.old.items
        ++ followed (form_terminals (expr_form_view what.now))) }
{
    match what {
        ExprForm::Implies(a, b) => {
            put_expr(out, a, Place::Operand)?;
            put_symbol(out, Symbol::Implies)?;
            put_expr(out, b, Place::Operand)
        }
        ExprForm::Or(es) => put_members(out, es.as_slice(), Symbol::Or, Place::Operand),
        ExprForm::And(es) => put_members(out, es.as_slice(), Symbol::And, Place::Operand),
        ExprForm::Not(e) => {
            put_symbol(out, Symbol::Not)?;
            put_expr(out, e, Place::Operand)
        }
        ExprForm::Forall(p, e) => put_quantified(out, Word::Forall, p, e),
        ExprForm::Exists(p, e) => put_quantified(out, Word::Exists, p, e),
        ExprForm::Compare(op, a, b) => {
            put_expr(out, a, Place::Operand)?;
            put_symbol(out, compare_text(*op))?;
            put_expr(out, b, Place::Operand)
        }
        ExprForm::Plus(a, b) => {
            put_expr(out, a, Place::Operand)?;
            put_symbol(out, Symbol::Plus)?;
            put_expr(out, b, Place::Operand)
        }
        ExprForm::Minus(a, b) => {
            put_expr(out, a, Place::Operand)?;
            put_symbol(out, Symbol::Minus)?;
            put_expr(out, b, Place::Operand)
        }
        _ => put_primary(out, what),
    }
}

/// A form with no operator, `!` or quantifier.
#[cycle(put_exprs)]
#[tactic(auto, using(rp_ast::proofs::ExprViews::expr_views, crate::proofs::Appends::appends))]
fn put_primary(out: &mut Vec<u8>, what: &ExprForm) -> Result<(), Memory>
    requires { is_composite_form (expr_form_view what.now) ≡ false }
    ensures { OnOk result (out.new.items ≡ out.old.items
        ++ followed (form_terminals (expr_form_view what.now))) }
{
    match what {
        ExprForm::Int(n) => put_number(out, *n.get()),
        ExprForm::Str(meant) => put_str(out, meant.as_slice()),
        ExprForm::Truth(true) => put_word(out, Word::True),
        ExprForm::Truth(false) => put_word(out, Word::False),
        ExprForm::NoneWord => put_word(out, Word::None),
        ExprForm::SomeOf(e) => put_on(out, Word::Some, e, Place::Argument),
        ExprForm::Unreturned => put_word(out, Word::Unreturned),
        ExprForm::Tx => put_word(out, Word::Tx),
        ExprForm::Call(w, es) => {
            put_word(out, call_text(*w))?;
            put_arguments(out, es.as_slice())
        }
        ExprForm::Match(e, arms) => {
            put_on(out, Word::Match, e, Place::Whole)?;
            put_symbol(out, Symbol::OpenBrace)?;
            put_arms(out, arms.as_slice())?;
            put_symbol(out, Symbol::CloseBrace)
        }
        ExprForm::Access(a) => put_access(out, a),
        _ => unreachable!(),
    }
}

/// A quantifier's word, its variable and its body.
#[cycle(put_exprs)]
#[tactic(auto, using(crate::proofs::Appends::appends))]
fn put_quantified(out: &mut Vec<u8>, w: Word, p: &Param, e: &ExprNode) -> Result<(), Memory>
    ensures { OnOk result (out.new.items ≡ out.old.items
        ++ followed (terminal.word w ∷ (param_terminals (param_view p.now)
        ++ terminal.symbol symbol.DoubleColon ∷ expr_terminals place.Whole (expr_view e.now)))) }
{
    put_word(out, w)?;
    put_param(out, p)?;
    put_symbol(out, Symbol::DoubleColon)?;
    put_expr(out, e, Place::Whole)
}

/// A word, and the expression in parentheses behind it.
#[cycle(put_exprs)]
#[tactic(auto, using(crate::proofs::Appends::appends))]
pub fn put_on(out: &mut Vec<u8>, w: Word, e: &ExprNode, place: Place) -> Result<(), Memory>
    ensures { OnOk result (out.new.items ≡ out.old.items
        ++ followed (terminal.word w ∷ in_parens (expr_terminals place (expr_view e.now)))) }
{
    put_word(out, w)?;
    put_symbol(out, Symbol::OpenParen)?;
    put_expr(out, e, place)?;
    put_symbol(out, Symbol::CloseParen)
}

/// Arguments in parentheses, which are there even around none.
#[cycle(put_exprs)]
#[tactic(auto, using(crate::proofs::Appends::appends))]
fn put_arguments(out: &mut Vec<u8>, es: &[ExprNode]) -> Result<(), Memory>
    ensures { OnOk result (out.new.items ≡ out.old.items
        ++ followed (in_parens
        (separated symbol.Comma (exprs_terminals place.Argument (exprs_view es.now))))) }
{
    put_symbol(out, Symbol::OpenParen)?;
    put_members(out, es, Symbol::Comma, Place::Argument)?;
    put_symbol(out, Symbol::CloseParen)
}

#[cycle(put_exprs)]
fn put_members(out: &mut Vec<u8>, es: &[ExprNode], m: Symbol, place: Place) -> Result<(), Memory>
    ensures { OnOk result (out.new.items ≡ out.old.items
        ++ followed (separated m (exprs_terminals place (exprs_view es.now)))) }
{
    for (i, e) in es.iter().enumerate() {
        put_separator(out, m, i)?;
        put_expr(out, e, place)?;
    }
    Ok(())
}

#[cycle(put_exprs)]
#[tactic(auto, using(rp_ast::proofs::ExprViews::expr_views, crate::proofs::Appends::appends))]
fn put_arm(out: &mut Vec<u8>, a: &ExprArm) -> Result<(), Memory>
    ensures { OnOk result (out.new.items ≡ out.old.items
        ++ followed (arm_terminals (expr_arm_view a.now))) }
{
    put_pattern(out, &a.pattern)?;
    put_symbol(out, Symbol::Arrow)?;
    put_expr(out, &a.body, Place::Argument)
}

#[cycle(put_exprs)]
fn put_arms(out: &mut Vec<u8>, arms: &[ExprArm]) -> Result<(), Memory>
    ensures { OnOk result (out.new.items ≡ out.old.items
        ++ followed (separated symbol.Comma (arms_terminals (expr_arms_view arms.now)))) }
{
    for (i, a) in arms.iter().enumerate() {
        put_separator(out, Symbol::Comma, i)?;
        put_arm(out, a)?;
    }
    Ok(())
}

#[cycle(put_exprs)]
#[tactic(auto, using(rp_ast::proofs::ExprViews::expr_views, crate::proofs::Appends::appends))]
pub fn put_access(out: &mut Vec<u8>, a: &AccessNode) -> Result<(), Memory>
    ensures { OnOk result (out.new.items ≡ out.old.items
        ++ followed (access_terminals (access_view a.now))) }
{
    put_ident(out, &a.root)?;
    put_steps(out, a.steps.as_slice())?;
    match &a.args {
        None => Ok(()),
        Some(es) => put_arguments(out, es.as_slice()),
    }
}

#[cycle(put_exprs)]
fn put_steps(out: &mut Vec<u8>, steps: &[AccessStep]) -> Result<(), Memory>
    ensures { OnOk result (out.new.items ≡ out.old.items
        ++ followed (steps_terminals (steps_view steps.now))) }
{
    for x in steps {
        put_step(out, x)?;
    }
    Ok(())
}

#[cycle(put_exprs)]
#[tactic(auto, using(rp_ast::proofs::ExprViews::expr_views, crate::proofs::Appends::appends))]
fn put_step(out: &mut Vec<u8>, x: &AccessStep) -> Result<(), Memory>
    ensures { OnOk result (out.new.items ≡ out.old.items
        ++ followed (step_terminals (step_view x.now))) }
{
    match x {
        AccessStep::Dot(n) => {
            put_symbol(out, Symbol::Dot)?;
            put_ident(out, n)
        }
        AccessStep::Returned(_) => {
            put_symbol(out, Symbol::Dot)?;
            put_word(out, Word::Returned)
        }
        AccessStep::Key(e) => {
            put_symbol(out, Symbol::OpenBracket)?;
            put_expr(out, e, Place::Argument)?;
            put_symbol(out, Symbol::CloseBracket)
        }
    }
}
