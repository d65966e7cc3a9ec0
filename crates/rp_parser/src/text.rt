//! Whole texts.

ghost use Rattle.std.specs.Prelude.{List as Items};
ghost use Rattle.std.specs.Prelude.{ℕ, ◌<◌, IfOk, IfErr, length};
ghost use Rattle.rp_grammar.specs.Trees.{DeclTree};
ghost use Rattle.rp_grammar.specs.Terminals.{Tok};
ghost use Rattle.rp_grammar.specs.Lexed.{Lexed};
ghost use Rattle.rp_grammar.specs.Begins.{IsFirstBad, IsTooDeep, EndsInEnd};
ghost use Rattle.rp_grammar.specs.Texts.{HasToks, IsTextWithin};
ghost use Rattle.rp_ast.specs.View.{ast_view};
ghost use Rattle.rp_parser.specs.means.Marks.{toks};
ghost use Rattle.rp_parser.specs.Answers.{IsFault, IsRead, IsRefused, IsFoundTooDeep};
ghost use Rattle.rp_parser.specs.means.TokenAnswers.{IsAnswer};

use crate::decls::read_program;
use crate::error::ParseErr;
use crate::fault::Fault;
use crate::mark::Marks;
use crate::reading::marks_of;
use rp_ast::Ast;
use rp_grammar::Token;
use rp_value::List;
use std::alloc::Global;

/// The tree of marks, or the mark at fault.
fn tree_of_marks(alloc: Global, marks: Marks) -> Result<Ast, ParseErr>
    requires few { length marks.now < 4294967296 }
    requires ends { EndsInEnd (toks marks.now) }
    ensures { IsAnswer (toks marks.now) result }
{
    match read_program(alloc, marks) {
        Ok(decls) => Ok(Ast { decls }),
        Err(Fault::Memory) => Err(ParseErr::Memory),
        Err(Fault::Syntax(left)) => Err(ParseErr::Syntax {
            token: (marks.len() - left) as u32,
        }),
        Err(Fault::TooDeep(left)) => Err(ParseErr::TooDeep {
            token: (marks.len() - left) as u32,
        }),
    }
}

/// The tree of a text with these tokens.
pub fn parse(alloc: Global, bytes: &[u8], tokens: &List<Token>) -> Result<Ast, ParseErr>
    requires { Lexed 0 bytes.now tokens.now }

    // What is read is the tree of the text, and no token of it is nested deeper than 64.
    ensures found { IfOk result (λ ast. IsTextWithin 64 bytes.now (ast_view ast)) }

    // Which fault comes, and at which token.
    ensures fault { IfErr result (IsFault bytes.now) }

    // What is so of the text is answered, unless memory runs out.
    ensures every_tree { (tree : Items DeclTree) → IsTextWithin 64 bytes.now tree
        → IsRead tree result }
    ensures every_bad { (us : Items Tok) (k : ℕ) → HasToks bytes.now us → IsFirstBad 64 us k
        → IsRefused k result }
    ensures every_too_deep { (us : Items Tok) (k : ℕ) → HasToks bytes.now us → IsTooDeep 64 us k
        → IsFoundTooDeep k result }
{
    let marks = marks_of(alloc, bytes, tokens.as_slice())?;
    tree_of_marks(alloc, marks.as_slice())
}
