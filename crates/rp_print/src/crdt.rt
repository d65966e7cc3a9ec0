//! Replicated types.

ghost use Rattle.std.specs.Prelude.{◌≡◌, ◌∷◌, [], ◌++◌, OnOk};
ghost use Rattle.rp_grammar.specs.declared.terminal.Symbol.TheVariants as symbol;
ghost use Rattle.rp_grammar.specs.Terminals as terminal;
ghost use Rattle.rp_print.specs.Printed.{followed, crdt_terminals, fields_terminals, field_terminals, type_terminals, separated, in_brackets};
ghost use Rattle.rp_ast.specs.View.{crdt_view, field_view, fields_view, type_view};

use crate::token::{put_separator, put_symbol, put_word};
use crate::ty::{put_ident, put_type};
use rp_ast::{CrdtForm, CrdtNode, FieldNode, TypeNode};
use rp_grammar::{Symbol, Word};
use rp_value::Memory;

/// A word, and an element's type in brackets.
#[tactic(auto, using(crate::proofs::Appends::appends))]
fn put_of(out: &mut Vec<u8>, w: Word, t: &TypeNode) -> Result<(), Memory>
    ensures { OnOk result (out.new.items ≡ out.old.items
        ++ followed (terminal.word w ∷ in_brackets (type_terminals (type_view t.now)))) }
{
    put_word(out, w)?;
    put_symbol(out, Symbol::OpenBracket)?;
    put_type(out, t)?;
    put_symbol(out, Symbol::CloseBracket)
}

/// A map's word, and its keys' type up to the comma.
#[tactic(auto, using(crate::proofs::Appends::appends))]
fn put_map(out: &mut Vec<u8>, w: Word, key: &TypeNode) -> Result<(), Memory>
    ensures { OnOk result (out.new.items ≡ out.old.items
        ++ followed (terminal.word w ∷ terminal.symbol symbol.OpenBracket
        ∷ (type_terminals (type_view key.now) ++ terminal.symbol symbol.Comma ∷ []))) }
{
    put_word(out, w)?;
    put_symbol(out, Symbol::OpenBracket)?;
    put_type(out, key)?;
    put_symbol(out, Symbol::Comma)
}

#[cycle(put_crdts)]
#[tactic(auto, using(rp_ast::proofs::TypeViews::crdt_views, crate::proofs::Appends::appends))]
pub fn put_crdt(out: &mut Vec<u8>, c: &CrdtNode) -> Result<(), Memory>
    ensures { OnOk result (out.new.items ≡ out.old.items
        ++ followed (crdt_terminals (crdt_view c.now))) }
{
    match &c.what {
        CrdtForm::SetAw(t) => put_of(out, Word::SetAw, t),
        CrdtForm::SetRw(t) => put_of(out, Word::SetRw, t),
        CrdtForm::Reg(t) => put_of(out, Word::Reg, t),
        CrdtForm::MvReg(t) => put_of(out, Word::MvReg, t),
        CrdtForm::Counter => put_word(out, Word::Counter),
        CrdtForm::MapUw(key, value) => {
            put_map(out, Word::MapUw, key)?;
            put_crdt(out, value)?;
            put_symbol(out, Symbol::CloseBracket)
        }
        CrdtForm::MapDw(key, value) => {
            put_map(out, Word::MapDw, key)?;
            put_crdt(out, value)?;
            put_symbol(out, Symbol::CloseBracket)
        }
        CrdtForm::Struct(fields) => {
            put_symbol(out, Symbol::OpenBrace)?;
            put_fields(out, fields.as_slice())?;
            put_symbol(out, Symbol::CloseBrace)
        }
    }
}

#[cycle(put_crdts)]
#[tactic(auto, using(rp_ast::proofs::TypeViews::crdt_views, crate::proofs::Appends::appends))]
fn put_field(out: &mut Vec<u8>, f: &FieldNode) -> Result<(), Memory>
    ensures { OnOk result (out.new.items ≡ out.old.items
        ++ followed (field_terminals (field_view f.now))) }
{
    put_ident(out, &f.name)?;
    put_symbol(out, Symbol::Colon)?;
    put_crdt(out, &f.crdt)
}

#[cycle(put_crdts)]
fn put_fields(out: &mut Vec<u8>, fields: &[FieldNode]) -> Result<(), Memory>
    ensures { OnOk result (out.new.items ≡ out.old.items
        ++ followed (separated symbol.Comma (fields_terminals (fields_view fields.now)))) }
{
    for (i, f) in fields.iter().enumerate() {
        put_separator(out, Symbol::Comma, i)?;
        put_field(out, f)?;
    }
    Ok(())
}
