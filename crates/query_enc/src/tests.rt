//! Tests of operations.
ghost use Rattle.std.specs.Prelude.{◌≡◌, ◌&&◌, IfOk, length, nat_eq};
ghost use Rattle.crdt_defs.specs.Doing as doing;
ghost use Rattle.crdt_enc.specs.QueryFormulas as spec;
ghost use Rattle.query_enc.specs.TestView.{test_view};
ghost use Rattle.query_enc.specs.WayView.{way_view};

use crate::ways::Way;
use rp_lang::{OpDecl, OpKind};
use rp_value::Memory;

/// Which operations are meant.
#[derive(Clone, Copy)]
pub enum Test {
    /// Those of a kind.
    Kind(OpKind),
    /// The deletes of a key of the map at the end of a path of so many steps.
    Delete(u32),
    Any,
}

fn same_kind(a: OpKind, b: OpKind) -> bool
    ensures { result ≡ doing.same_kind a b }
{
    match a {
        OpKind::Tx => matches!(b, OpKind::Tx),
        OpKind::Add => matches!(b, OpKind::Add),
        OpKind::Remove => matches!(b, OpKind::Remove),
        OpKind::Assign => matches!(b, OpKind::Assign),
        OpKind::Increment => matches!(b, OpKind::Increment),
        OpKind::Delete => matches!(b, OpKind::Delete),
    }
}

fn is_delete(steps: u32, op: &OpDecl) -> bool
    ensures { result ≡ spec.is_delete steps op.now }
{
    op.path.count() == steps && same_kind(op.kind, OpKind::Delete)
}

/// Whether the operation is one of those meant.
pub fn meets(test: Test, op: &OpDecl) -> bool
    ensures { result ≡ test_view test op.now }
{
    match test {
        Test::Kind(kind) => same_kind(op.kind, kind),
        Test::Delete(steps) => is_delete(steps, op),
        Test::Any => true,
    }
}

/// Whether the operation goes this way and is one of those meant.
pub fn passes(way: &Way, test: Test, op: &OpDecl) -> Result<bool, Memory>
    ensures { IfOk result (λ holds. holds ≡ spec.passes (way_view way.now) (test_view test) op.now) }
{
    let here = way.goes(op)?;
    Ok(here && meets(test, op))
}
