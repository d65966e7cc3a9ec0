//! Types and parameters.

ghost use Rattle.std.specs.Prelude.{◌≡◌, ◌∷◌, [], ◌++◌, OnOk};
ghost use Rattle.rp_print.specs.Printed.{followed, type_terminals, param_terminals, params_terminals, name_terminal, in_parens};
ghost use Rattle.rp_ast.specs.View.{ident_view, type_view, param_view, params_view};

use crate::token::{put_name, put_separator, put_symbol, put_word};
use rp_ast::{Ident, Param, TypeForm, TypeNode};
use rp_grammar::{Symbol, Word};
use rp_value::Memory;

pub fn put_ident(out: &mut Vec<u8>, n: &Ident) -> Result<(), Memory>
    ensures { OnOk result (out.new.items ≡ out.old.items
        ++ followed (name_terminal (ident_view n.now) ∷ [])) }
{
    put_name(out, n.text.as_slice())
}

#[tactic(auto, using(rp_ast::proofs::TypeViews::type_views, crate::proofs::Appends::appends))]
pub fn put_type(out: &mut Vec<u8>, t: &TypeNode) -> Result<(), Memory>
    ensures { OnOk result (out.new.items ≡ out.old.items
        ++ followed (type_terminals (type_view t.now))) }
{
    match &t.what {
        TypeForm::Named(n) => put_name(out, n.as_slice()),
        TypeForm::Bool => put_word(out, Word::Bool),
        TypeForm::Int => put_word(out, Word::Int),
        TypeForm::Text => put_word(out, Word::String),
        TypeForm::Maybe(t) => {
            put_word(out, Word::Maybe)?;
            put_symbol(out, Symbol::OpenBracket)?;
            put_type(out, t)?;
            put_symbol(out, Symbol::CloseBracket)
        }
        TypeForm::Call => put_word(out, Word::Call),
        TypeForm::Invocation => put_word(out, Word::Invocation),
    }
}

#[tactic(auto, using(crate::proofs::Appends::appends))]
pub fn put_param(out: &mut Vec<u8>, p: &Param) -> Result<(), Memory>
    ensures { OnOk result (out.new.items ≡ out.old.items
        ++ followed (param_terminals (param_view p.now))) }
{
    put_ident(out, &p.name)?;
    put_symbol(out, Symbol::Colon)?;
    put_type(out, &p.ty)
}

pub fn put_params(out: &mut Vec<u8>, ps: &[Param]) -> Result<(), Memory>
    ensures { OnOk result (out.new.items ≡ out.old.items
        ++ followed (params_terminals (params_view ps.now))) }
{
    for (i, p) in ps.iter().enumerate() {
        put_separator(out, Symbol::Comma, i)?;
        put_param(out, p)?;
    }
    Ok(())
}

/// The parameters in parentheses, which are there even around none.
#[tactic(auto, using(crate::proofs::Appends::appends))]
pub fn put_param_list(out: &mut Vec<u8>, ps: &[Param]) -> Result<(), Memory>
    ensures { OnOk result (out.new.items ≡ out.old.items
        ++ followed (in_parens (params_terminals (params_view ps.now)))) }
{
    put_symbol(out, Symbol::OpenParen)?;
    put_params(out, ps)?;
    put_symbol(out, Symbol::CloseParen)
}
