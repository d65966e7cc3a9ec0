ghost use Rattle.std.specs.Prelude.{◌≡◌, IfOk};
ghost use Rattle.rp_ast.specs.View.{ast_view};
ghost use Rattle.type_rules.specs.Queries.{names_of as all_names};
ghost use Rattle.type_rules.specs.Faults as spec;
ghost use Rattle.type_rules.specs.Faults.{first};
ghost use Rattle.text_names.specs.Declarations.{names_view};
ghost use Rattle.type_faults.specs.Texts.{inner_from};

use crate::names::decls_differ;
use crate::walk::{Found, Walk};
use rp_ast::Ast;
use rp_value::Memory;
use std::alloc::Global;
use text_names::TextNames;
use type_rules::Fault;
use type_tables::sooner;

/// The first fault inside the declarations of a text that has these names.
fn walked<'n, 'a>(alloc: Global, names: &'n TextNames<'a>, ast: &'a Ast) -> Found
    ensures { IfOk result (λ fault. fault ≡ first (names_view names.now) (inner_from (names_view names.now) 0 (ast_view ast.now))) }
{
    let mut walk = Walk::new(alloc, names);
    walk.decls(&ast.decls)
}

/// The first broken rule of a text that has these names, if one is: that whose token starts first, and of
/// those with one start the one of the least number.
///
/// `Err` is want of memory. For a tree of no text it is also a `Maybe` nested 2^32 times, a token whose
/// end is past 2^32, or a name declared later 2^32 times.
pub fn first_fault<'n, 'a>(
    alloc: Global,
    names: &'n TextNames<'a>,
    ast: &'a Ast,
) -> Result<Option<Fault>, Memory>
    requires names { names_view names.now ≡ all_names (ast_view ast.now) }
    ensures { IfOk result (λ fault. fault ≡ spec.first_fault (ast_view ast.now)) }
{
    let named = decls_differ(alloc, ast.decls.as_slice())?;
    let below = walked(alloc, names, ast)?;
    Ok(sooner(named, below))
}
