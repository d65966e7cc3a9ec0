//! The program of a text, or what refuses the text.

ghost use Rattle.std.specs.Prelude.{◌≡◌, ◌≤◌, IfErr, IfOk, length};
ghost use Rattle.rp_lang.specs.ProgramView.{program_view};
ghost use Rattle.rp_grammar.specs.Lexed.{Lexed};
ghost use Rattle.rp_grammar.specs.Texts.{IsTextWithin};
ghost use Rattle.rp_ast.specs.View.{ast_view};
ghost use Rattle.repliss_cli.specs.ProgramText.{IsProgramText};
ghost use Rattle.repliss_cli.specs.means.Stops.{IsTextErr};

use crate::places::place_in;
use crate::report::Report;
use resolve::{TypeErr, resolve};
use rp_ast::Ast;
use rp_lang::{LimitName, Program};
use rp_lexer::{LexErr, Token, lex};
use rp_parser::{ParseErr, parse};
use rp_span::Text;
use rp_value::List;
use std::alloc::Global;

/// Why a text has no program.
#[derive(Drop)]
pub enum TextErr {
    Refused(Report),
    Memory,
}

/// The program of a text with this tree.
fn program_of_tree(alloc: Global, text: &Text, ast: &Ast) -> Result<Program, TextErr>
    requires read { IsTextWithin 64 text.now (ast_view ast.now) }
    requires short { length text.now ≤ 262144 }
    ensures ok { IfOk result (λ program. IsProgramText text.now (program_view program)) }
    ensures err { IfErr result (IsTextErr text.now) }
{
    match resolve(alloc, ast) {
        Ok(program) => Ok(program),
        Err(TypeErr::Rule { rule, span }) => Err(TextErr::Refused(Report::Rule {
            rule,
            at: place_in(text, span.from),
        })),
        Err(TypeErr::Limit(limit)) => Err(TextErr::Refused(Report::Limit(limit))),
        Err(TypeErr::Memory) => Err(TextErr::Memory),
    }
}

/// The program of a text with these tokens.
fn program_of_tokens(alloc: Global, text: &Text, tokens: &List<Token>) -> Result<Program, TextErr>
    requires lexed { Lexed 0 text.now tokens.now }
    requires short { length text.now ≤ 262144 }
    ensures ok { IfOk result (λ program. IsProgramText text.now (program_view program)) }
    ensures err { IfErr result (IsTextErr text.now) }
{
    match parse(alloc, text.bytes(), tokens) {
        Ok(ast) => {
            let program = program_of_tree(alloc, text, &ast);
            ast.let_go();
            program
        }
        Err(ParseErr::Syntax { token }) => Err(TextErr::Refused(Report::Syntax {
            at: place_in(text, tokens[token as usize].span.from),
        })),
        Err(ParseErr::TooDeep { .. }) => Err(TextErr::Refused(Report::Limit(LimitName::Depth))),
        Err(ParseErr::Memory) => Err(TextErr::Memory),
    }
}

/// The program of a text that isn't too long.
pub fn program_of(alloc: Global, text: &Text) -> Result<Program, TextErr>
    requires { length text.now ≤ 262144 }
    ensures ok { IfOk result (λ program. IsProgramText text.now (program_view program)) }
    ensures err { IfErr result (IsTextErr text.now) }
{
    match lex(alloc, text.bytes()) {
        Ok(tokens) => program_of_tokens(alloc, text, &tokens),
        Err(LexErr::Fault { at, kind }) => Err(TextErr::Refused(Report::Lex {
            fault: kind,
            at: place_in(text, at),
        })),
        Err(LexErr::Memory) => Err(TextErr::Memory),
    }
}
