//! The limit on the paths of operations and queries.

ghost use Rattle.std.specs.Prelude.{◌≡◌, ◌+◌, ◌||◌, ◌∷◌, [], IfOk, length};
ghost use Rattle.std.specs.List.{list_any};
ghost use Rattle.rp_ast.specs.View.{crdt_view, decl_view, decls_view, fields_view};
ghost use Rattle.rp_lang.specs.declared.limit.LimitName.TheVariants.{PathDepth as TheDepth};
ghost use Rattle.type_rules.specs.Names.{Names};
ghost use Rattle.type_rules.specs.Queries.{names_of};
ghost use Rattle.desugaring.specs.Limits.{is_past};
ghost use Rattle.desugaring.specs.Objects.{path_ops, path_queries};
ghost use Rattle.text_tables.specs.means.Counted.{crdts_in};
ghost use Rattle.text_tables.specs.means.Limited as means;

use crate::objects::sum;
use rp_ast::{CrdtForm, CrdtNode, Decl, DeclForm, FieldNode};
use rp_lang::LimitName;
use rp_value::Memory;

fn is_long(depth: u32) -> bool
    ensures { result ≡ is_past TheDepth depth }
{
    depth as u64 > LimitName::PathDepth.number()
}

#[cycle(long)]
fn is_long_in(depth: u32, fields: &[FieldNode]) -> Result<bool, Memory>
    ensures { IfOk result (λ long. long ≡ means.is_long_in_fields depth (fields_view fields.now)) }
{
    let inner = sum(depth, 1)?;
    for field in fields {
        if is_long_on(inner, &field.crdt)? {
            return Ok(true);
        }
    }
    Ok(false)
}

/// Whether something on a map or on what it holds has a longer path than may be.
#[cycle(long)]
fn is_long_held(depth: u32, held: &CrdtNode) -> Result<bool, Memory>
    ensures { IfOk result (λ long. long ≡ (is_past TheDepth depth || means.is_long_on (depth + 1) (crdt_view held.now))) }
{
    if is_long(depth) {
        return Ok(true);
    }
    is_long_on(sum(depth, 1)?, held)
}

/// Whether something on the type or on its parts has a longer path than may be, where the path to the
/// type has so many steps.
#[cycle(long)]
fn is_long_on(depth: u32, crdt: &CrdtNode) -> Result<bool, Memory>
    ensures { IfOk result (λ long. long ≡ means.is_long_on depth (crdt_view crdt.now)) }
{
    match &crdt.what {
        CrdtForm::MapUw(_, held) => is_long_held(depth, held.get()),
        CrdtForm::MapDw(_, held) => is_long_held(depth, held.get()),
        CrdtForm::Struct(fields) => is_long_in(depth, fields.as_slice()),
        CrdtForm::SetAw(_) => Ok(is_long(depth)),
        CrdtForm::SetRw(_) => Ok(is_long(depth)),
        CrdtForm::Reg(_) => Ok(is_long(depth)),
        CrdtForm::MvReg(_) => Ok(is_long(depth)),
        CrdtForm::Counter => Ok(is_long(depth)),
    }
}

fn declares_long(decl: &Decl) -> Result<bool, Memory>
    ensures { IfOk result (λ long. long ≡ list_any (means.is_long_on 0) (crdts_in (decl_view decl.now ∷ []))) }
{
    match &decl.what {
        DeclForm::Crdt(_, crdt) => is_long_on(0, crdt),
        DeclForm::IdType(_) => Ok(false),
        DeclForm::Opaque(_) => Ok(false),
        DeclForm::Datatype(_, _) => Ok(false),
        DeclForm::Query(_) => Ok(false),
        DeclForm::Invariant(_, _) => Ok(false),
        DeclForm::Proc(_) => Ok(false),
    }
}

/// Whether some operation or query of a text has a longer path than may be.
pub fn has_long_path(decls: &[Decl]) -> Result<bool, Memory>
    ensures { (n : Names) → n ≡ names_of (decls_view decls.now) → IfOk result (λ long. long
        ≡ (list_any (λ op. is_past TheDepth (length op.path)) (path_ops n)
        || list_any (λ query. is_past TheDepth (length query.path)) (path_queries n))) }
{
    for decl in decls {
        let long = declares_long(decl)?;
        if long {
            return Ok(true);
        }
    }
    Ok(false)
}
