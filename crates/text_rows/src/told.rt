//! What the lexer, the parser and the printer tell of a text.

ghost use Rattle.rp_grammar.specs.Lexed.{Lexed};

use crate::names::{kind_name, symbol_name, word_name};
use crate::row::Row;
use rp_ast::Ast;
use rp_lexer::{LexErr, Token, lex, symbol_of, word_of};
use rp_parser::{ParseErr, parse};
use rp_print::print;
use rp_value::{List, Memory};
use std::alloc::Global;

/// The greatest length of a text that is read.
const MOST_BYTES: usize = 262_144;

/// The kinds of tokens and where they stand, as `Name 0-1 End 1-1`.
fn spelled(alloc: Global, tokens: &[Token]) -> Result<String, Memory> {
    let mut told = String::new(alloc);
    for token in tokens {
        let blank = if told.is_empty() { "" } else { " " };
        let kind = kind_name(token.kind);
        let from = token.span.from;
        let to = token.span.to;
        told.push_str(&format!(in alloc; "{blank}{kind} {from}-{to}")?)?;
    }
    Ok(told)
}

/// What the lexer tells: the tokens, or the first fault and its place, as `BadByte at 4`.
fn tokens_told(alloc: Global, text: &[u8]) -> Result<String, Memory> {
    if text.len() > MOST_BYTES {
        return Ok(format!(in alloc; "too long")?);
    }
    match lex(alloc, text) {
        Ok(tokens) => spelled(alloc, tokens.as_slice()),
        Err(LexErr::Fault { at, kind }) => Ok(format!(in alloc; "{kind:?} at {at}")?),
        Err(LexErr::Memory) => Err(Memory),
    }
}

/// Where a token stands, or the end of the numbers where there is none.
fn place_of(tokens: &List<Token>, token: u32) -> u32 {
    match tokens.as_slice().get(token as usize) {
        Some(token) => token.span.from,
        None => u32::MAX,
    }
}

/// The line of a fault: what it is called, and where its token stands.
fn fault_told(alloc: Global, tokens: &List<Token>, fault: ParseErr) -> Result<Vec<u8>, Memory> {
    let (name, at) = match fault {
        ParseErr::Syntax { token } => ("syntax", place_of(tokens, token)),
        ParseErr::TooDeep { token } => ("too deep", place_of(tokens, token)),
        ParseErr::Memory => return Err(Memory),
    };
    Ok(format!(in alloc; "{name} at {at}\n")?.into_bytes())
}

/// The printed form of a tree.
fn printed(alloc: Global, ast: &Ast) -> Result<Vec<u8>, Memory> {
    Ok(print(alloc, ast)?.as_slice().to_vec(alloc)?)
}

/// What the parser tells of a text with these tokens: the printed form of its tree, a line a declaration, or
/// its fault, as `syntax at 9`.
fn tree_of_tokens(alloc: Global, text: &[u8], tokens: &List<Token>) -> Result<Vec<u8>, Memory>
    requires { Lexed 0 text.now tokens.now }
{
    match parse(alloc, text, tokens) {
        Ok(ast) => {
            let printed = printed(alloc, &ast);
            ast.let_go();
            printed
        }
        Err(fault) => fault_told(alloc, tokens, fault),
    }
}

/// What the parser tells of a text, if it has tokens.
fn tree_told(alloc: Global, text: &[u8]) -> Result<Vec<u8>, Memory> {
    if text.len() > MOST_BYTES {
        return Ok(Vec::new(alloc));
    }
    match lex(alloc, text) {
        Ok(tokens) => tree_of_tokens(alloc, text, &tokens),
        Err(LexErr::Fault { .. }) => Ok(Vec::new(alloc)),
        Err(LexErr::Memory) => Err(Memory),
    }
}

/// Whether the text has the tokens that the row wants, if it wants any.
pub fn has_tokens(alloc: Global, row: &Row, text: &[u8]) -> Result<bool, Memory> {
    match row.said("tokens") {
        Some(wanted) => Ok(tokens_told(alloc, text)?.as_str() == wanted),
        None => Ok(true),
    }
}

/// Whether the text is the word and the symbol that the row wants, if it wants any.
pub fn has_names(row: &Row, text: &[u8]) -> bool {
    let is_word = match row.said("word") {
        Some(wanted) => wanted == word_of(text).map_or("none", word_name),
        None => true,
    };
    let is_symbol = match row.said("symbol") {
        Some(wanted) => wanted == symbol_of(text).map_or("none", symbol_name),
        None => true,
    };
    is_word && is_symbol
}

/// Whether the text has the tree that the row wants, if it wants one.
pub fn has_tree(alloc: Global, row: &Row, text: &[u8]) -> Result<bool, Memory> {
    let wanted = row.lines(alloc, "tree")?;
    Ok(wanted.is_empty() || tree_told(alloc, text)? == wanted)
}
