//! Declarations and programs.

ghost use Rattle.std.specs.Prelude.{◌≡◌, ◌∷◌, [], ◌++◌, map, OnOk, IfOk};
ghost use Rattle.rp_grammar.specs.Spelling.{spelling};
ghost use Rattle.rp_grammar.specs.Terminals as terminal;
ghost use Rattle.rp_grammar.specs.Trees.{DeclForm as DeclShape};
ghost use Rattle.rp_grammar.specs.declared.terminal.Symbol.TheVariants as symbol;
ghost use Rattle.rp_print.specs.Printed.{followed, line, in_parens, name_terminal, params_terminals, type_terminals, separated, con_terminals, con_fields_terminals, label_terminals, result_type_terminals, query_terminals, proc_terminals, decl_form_terminals, decl_terminals, printed};
ghost use Rattle.rp_ast.specs.View.{optional, ident_view, params_view, con_view, type_view, crdt_view, expr_view, query_view, proc_view, decl_view, decls_view, ast_view};

use crate::Place;
use crate::crdt::put_crdt;
use crate::expr::put_expr;
use crate::stmt::put_block;
use crate::token::{put_first, put_separator, put_symbol};
use crate::ty::{put_ident, put_param_list, put_params, put_type};
use rp_ast::{
    Ast, ConNode, CrdtNode, Decl, DeclForm, ExprNode, Ident, Param, ProcNode, QueryNode, TypeNode,
};
use rp_grammar::{Symbol, Word};
use rp_value::{Bytes, List, Memory};
use std::alloc::Global;

/// The fields of a constructor, in parentheses where there are any.
#[tactic(auto, using(crate::proofs::Appends::appends))]
fn put_fields(out: &mut Vec<u8>, fields: &[Param]) -> Result<(), Memory>
    ensures { OnOk result (out.new.items ≡ out.old.items
        ++ followed (con_fields_terminals (params_view fields.now))) }
{
    if fields.is_empty() {
        return Ok(());
    }
    put_symbol(out, Symbol::OpenParen)?;
    put_params(out, fields)?;
    put_symbol(out, Symbol::CloseParen)
}

#[tactic(auto, using(crate::proofs::Appends::appends))]
fn put_con(out: &mut Vec<u8>, c: &ConNode) -> Result<(), Memory>
    ensures { OnOk result (out.new.items ≡ out.old.items
        ++ followed (con_terminals (con_view c.now))) }
{
    put_ident(out, &c.name)?;
    put_fields(out, c.fields.as_slice())
}

fn put_cons(out: &mut Vec<u8>, cons: &[ConNode]) -> Result<(), Memory>
    ensures { OnOk result (out.new.items ≡ out.old.items
        ++ followed (separated symbol.Bar (map con_terminals (map con_view cons.now)))) }
{
    for (i, c) in cons.iter().enumerate() {
        put_separator(out, Symbol::Bar, i)?;
        put_con(out, c)?;
    }
    Ok(())
}

/// An invariant's name, where it has one.
#[tactic(auto, using(crate::proofs::Appends::appends))]
fn put_label(out: &mut Vec<u8>, name: &Option<Ident>) -> Result<(), Memory>
    ensures { OnOk result (out.new.items ≡ out.old.items
        ++ followed (label_terminals (optional ident_view name.now))) }
{
    match name {
        None => Ok(()),
        Some(n) => {
            put_ident(out, n)?;
            put_symbol(out, Symbol::Colon)
        }
    }
}

#[tactic(auto, using(crate::proofs::Appends::appends))]
fn put_result_type(out: &mut Vec<u8>, ty: &Option<TypeNode>) -> Result<(), Memory>
    ensures { OnOk result (out.new.items ≡ out.old.items
        ++ followed (result_type_terminals (optional type_view ty.now))) }
{
    match ty {
        None => Ok(()),
        Some(t) => {
            put_symbol(out, Symbol::Colon)?;
            put_type(out, t)
        }
    }
}

fn put_newline(out: &mut Vec<u8>) -> Result<(), Memory>
    ensures { OnOk result (out.new.items ≡ out.old.items ++ 10 ∷ []) }
{
    out.push(b'\n')?;
    Ok(())
}

/// A semicolon and the end of the line.
#[tactic(auto, using(crate::proofs::Appends::appends))]
fn put_end(out: &mut Vec<u8>) -> Result<(), Memory>
    ensures { OnOk result (out.new.items ≡ out.old.items ++ (32 ∷ 59 ∷ 10 ∷ [])) }
{
    put_symbol(out, Symbol::Semicolon)?;
    put_newline(out)
}

/// A query or a procedure up to its parameters, which begins a line.
#[tactic(auto, using(crate::proofs::Appends::appends))]
fn put_signature(out: &mut Vec<u8>, w: Word, name: &Ident, params: &[Param]) -> Result<(), Memory>
    ensures { OnOk result (out.new.items ≡ out.old.items
        ++ (spelling w ++ followed (name_terminal (ident_view name.now)
        ∷ in_parens (params_terminals (params_view params.now))))) }
{
    put_first(out, w)?;
    put_ident(out, name)?;
    put_param_list(out, params)
}

/// The type of a query's result, and what stands around it.
#[tactic(auto, using(crate::proofs::Appends::appends))]
fn put_query_type(out: &mut Vec<u8>, t: &TypeNode) -> Result<(), Memory>
    ensures { OnOk result (out.new.items ≡ out.old.items
        ++ followed (terminal.symbol symbol.Colon
        ∷ (type_terminals (type_view t.now) ++ terminal.symbol symbol.Assign ∷ []))) }
{
    put_symbol(out, Symbol::Colon)?;
    put_type(out, t)?;
    put_symbol(out, Symbol::Assign)
}

#[tactic(auto, using(crate::proofs::Appends::appends))]
fn put_query(out: &mut Vec<u8>, q: &QueryNode) -> Result<(), Memory>
    ensures { OnOk result (out.new.items ≡ out.old.items
        ++ line (query_terminals (query_view q.now))) }
{
    put_signature(out, Word::Query, &q.name, q.params.as_slice())?;
    put_query_type(out, &q.result)?;
    put_expr(out, &q.body, Place::Whole)?;
    put_end(out)
}

#[tactic(auto, using(crate::proofs::Appends::appends))]
fn put_proc(out: &mut Vec<u8>, p: &ProcNode) -> Result<(), Memory>
    ensures { OnOk result (out.new.items ≡ out.old.items
        ++ line (proc_terminals (proc_view p.now))) }
{
    put_signature(out, Word::Proc, &p.name, p.params.as_slice())?;
    put_result_type(out, &p.result)?;
    put_block(out, &p.body)?;
    put_newline(out)
}

/// The declaration of a name alone, which begins a line.
#[tactic(auto, using(crate::proofs::Appends::appends))]
fn put_named(out: &mut Vec<u8>, w: Word, n: &Ident) -> Result<(), Memory>
    ensures { OnOk result (out.new.items ≡ out.old.items
        ++ line (terminal.word w ∷ name_terminal (ident_view n.now)
        ∷ terminal.symbol symbol.Semicolon ∷ [])) }
{
    put_first(out, w)?;
    put_ident(out, n)?;
    put_end(out)
}

#[tactic(auto, using(crate::proofs::Appends::appends))]
fn put_datatype(out: &mut Vec<u8>, n: &Ident, cons: &[ConNode]) -> Result<(), Memory>
    ensures { OnOk result (out.new.items ≡ out.old.items
        ++ line (decl_form_terminals (DeclShape.datatype (ident_view n.now) (map con_view cons.now)))) }
{
    put_first(out, Word::Datatype)?;
    put_ident(out, n)?;
    put_symbol(out, Symbol::Assign)?;
    put_cons(out, cons)?;
    put_end(out)
}

#[tactic(auto, using(crate::proofs::Appends::appends))]
fn put_root(out: &mut Vec<u8>, n: &Ident, c: &CrdtNode) -> Result<(), Memory>
    ensures { OnOk result (out.new.items ≡ out.old.items
        ++ line (decl_form_terminals (DeclShape.crdt (ident_view n.now) (crdt_view c.now)))) }
{
    put_first(out, Word::Crdt)?;
    put_ident(out, n)?;
    put_symbol(out, Symbol::Colon)?;
    put_crdt(out, c)?;
    put_end(out)
}

#[tactic(auto, using(crate::proofs::Appends::appends))]
fn put_invariant(out: &mut Vec<u8>, name: &Option<Ident>, e: &ExprNode) -> Result<(), Memory>
    ensures { OnOk result (out.new.items ≡ out.old.items
        ++ line (decl_form_terminals (DeclShape.invariant (optional ident_view name.now)
        (expr_view e.now)))) }
{
    put_first(out, Word::Invariant)?;
    put_label(out, name)?;
    put_expr(out, e, Place::Whole)?;
    put_end(out)
}

#[tactic(auto, using(crate::proofs::Appends::appends))]
fn put_decl(out: &mut Vec<u8>, d: &Decl) -> Result<(), Memory>
    ensures { OnOk result (out.new.items ≡ out.old.items
        ++ line (decl_terminals (decl_view d.now))) }
{
    match &d.what {
        DeclForm::IdType(n) => put_named(out, Word::IdType, n),
        DeclForm::Opaque(n) => put_named(out, Word::Type, n),
        DeclForm::Datatype(n, cons) => put_datatype(out, n, cons.as_slice()),
        DeclForm::Crdt(n, c) => put_root(out, n, c),
        DeclForm::Query(q) => put_query(out, q),
        DeclForm::Invariant(name, e) => put_invariant(out, name, e),
        DeclForm::Proc(p) => put_proc(out, p),
    }
}

fn put_decls(out: &mut Vec<u8>, decls: &[Decl]) -> Result<(), Memory>
    ensures { OnOk result (out.new.items ≡ out.old.items ++ printed (decls_view decls.now)) }
{
    for d in decls {
        put_decl(out, d)?;
    }
    Ok(())
}

/// The greatest length of a list.
const MOST: usize = 4_294_967_294;

/// The printed form of a program: one line a declaration.
pub fn print(alloc: Global, ast: &Ast) -> Result<Bytes, Memory>
    ensures { IfOk result (λ text. text ≡ printed (ast_view ast.now)) }
{
    let mut out = Vec::new(alloc);
    put_decls(&mut out, ast.decls.as_slice())?;
    if out.len() > MOST {
        return Err(Memory);
    }
    Ok(List::from_vec(out))
}
