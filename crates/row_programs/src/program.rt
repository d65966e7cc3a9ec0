//! The program of a text.
ghost use Rattle.rp_grammar.specs.Lexed.{Lexed};

use resolve::resolve;
use rp_lang::Program;
use rp_lexer::{Token, lex};
use rp_parser::parse;
use rp_value::List;
use std::alloc::Global;

/// The greatest length of a text that is read.
const MOST_BYTES: usize = 262_144;

fn program_of_tokens(alloc: Global, text: &[u8], tokens: &List<Token>) -> Option<Program>
    requires { Lexed 0 text.now tokens.now }
{
    match parse(alloc, text, tokens) {
        Ok(ast) => {
            let program = resolve(alloc, &ast).ok();
            ast.let_go();
            program
        }
        Err(_) => None,
    }
}

/// The program of a text, if it is one.
pub fn program_of(alloc: Global, text: &[u8]) -> Option<Program> {
    if text.len() > MOST_BYTES {
        return None;
    }
    match lex(alloc, text) {
        Ok(tokens) => program_of_tokens(alloc, text, &tokens),
        Err(_) => None,
    }
}
