//! Laws of the definitions. The functions do nothing; what they ensure is proved.

ghost use Rattle.std.specs.Prelude.{◌≡◌};
ghost use Rattle.rp_ast.specs.View.{ast_view};

use crate::Ast;

/// The grammar's trees of a program keep all of it, spans included.
pub fn views_lose_nothing()
    ensures { (a b : Ast) → ast_view a ≡ ast_view b → a ≡ b }
{}
