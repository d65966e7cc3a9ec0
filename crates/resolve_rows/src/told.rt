//! What is told of a text.

ghost use Rattle.std.specs.Prelude.{ℕ, List as Items};
ghost use Rattle.rp_ast.specs.View.{ast_view};
ghost use Rattle.rp_grammar.specs.Lexed.{Lexed};
ghost use Rattle.rp_grammar.specs.Texts.{IsText};

use crate::out::Out;
use resolve::{TypeErr, resolve};
use rp_ast::Ast;
use rp_lang::Program;
use rp_lexer::{LexErr, Token, lex};
use rp_parser::{ParseErr, parse};
use rp_span::Span;
use rp_value::{List, Memory};
use std::alloc::Global;

/// The greatest length of a text that is read.
const MOST_BYTES: usize = 262_144;

/// How much is told of a text that is a program, and how the place of a broken rule is told.
#[derive(Clone, Copy)]
pub enum Manner {
    /// The program's tables, and a line with a column.
    Tables,
    /// That it is a program, and a line with a column.
    Named,
    /// That it is lawful, and the first byte with the one behind the last.
    Bytes,
}

/// The line and the column of a byte, each from 1 on.
fn place_of(text: &[u8], byte: usize) -> (u64, u64) {
    let mut line: u64 = 1;
    let mut column: u64 = 1;
    for (place, b) in text.iter().enumerate() {
        if place == byte {
            break;
        }
        if *b == b'\n' {
            line = line.saturating_add(1);
            column = 1;
        } else {
            column = column.saturating_add(1);
        }
    }
    (line, column)
}

fn line_of(alloc: Global, line: &str) -> Result<Vec<u8>, Memory> {
    Ok(line.as_bytes().to_vec(alloc)?)
}

fn tables_of(alloc: Global, p: &Program) -> Result<Vec<u8>, Memory> {
    let mut out = Out::new(alloc);
    out.program(p)?;
    Ok(out.into_bytes())
}

fn told_of_program(alloc: Global, p: &Program, manner: Manner) -> Result<Vec<u8>, Memory> {
    match manner {
        Manner::Tables => tables_of(alloc, p),
        Manner::Named => line_of(alloc, "a program\n"),
        Manner::Bytes => line_of(alloc, "lawful\n"),
    }
}

fn told_of_place(alloc: Global, text: &[u8], span: Span, manner: Manner) -> Result<String, Memory> {
    if matches!(manner, Manner::Bytes) {
        let from = span.from;
        let to = span.to;
        return Ok(format!(in alloc; "{from}..{to}")?);
    }
    let (line, column) = place_of(text, span.from as usize);
    Ok(format!(in alloc; "{line}:{column}")?)
}

fn told_of_refusal(
    alloc: Global,
    text: &[u8],
    error: TypeErr,
    manner: Manner,
) -> Result<Vec<u8>, Memory> {
    match error {
        TypeErr::Rule { rule, span } => {
            let zero = if rule < 10 { "0" } else { "" };
            let place = told_of_place(alloc, text, span, manner)?;
            let told = format!(in alloc; "T{zero}{rule} {place}\n")?;
            line_of(alloc, told.as_str())
        }
        TypeErr::Limit(limit) => {
            let name = limit.name();
            let told = format!(in alloc; "limit {name}\n")?;
            line_of(alloc, told.as_str())
        }
        TypeErr::Memory => Err(Memory),
    }
}

fn told_of_tree(alloc: Global, text: &[u8], ast: &Ast, manner: Manner) -> Result<Vec<u8>, Memory>
    requires { (bytes : Items ℕ) × IsText bytes (ast_view ast.now) }
{
    match resolve(alloc, ast) {
        Ok(p) => {
            let told = told_of_program(alloc, &p, manner);
            p.let_go();
            told
        }
        Err(error) => told_of_refusal(alloc, text, error, manner),
    }
}

fn told_of_tokens(
    alloc: Global,
    text: &[u8],
    tokens: &List<Token>,
    manner: Manner,
) -> Result<Vec<u8>, Memory>
    requires { Lexed 0 text.now tokens.now }
{
    match parse(alloc, text, tokens) {
        Ok(ast) => {
            let told = told_of_tree(alloc, text, &ast, manner);
            ast.let_go();
            told
        }
        Err(ParseErr::Memory) => Err(Memory),
        Err(_) => line_of(alloc, "no tree\n"),
    }
}

/// What is told of a text, a line or more: its program, the first broken rule, or the first limit that it
/// passes.
pub fn told_of(alloc: Global, text: &[u8], manner: Manner) -> Result<Vec<u8>, Memory> {
    if text.len() > MOST_BYTES {
        return line_of(alloc, "too long\n");
    }
    match lex(alloc, text) {
        Ok(tokens) => told_of_tokens(alloc, text, &tokens, manner),
        Err(LexErr::Memory) => Err(Memory),
        Err(LexErr::Fault { .. }) => line_of(alloc, "no tokens\n"),
    }
}
