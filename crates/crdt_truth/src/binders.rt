// The values of open variables.
ghost use Rattle.std.specs.Prelude.{◌≡◌, ◌<◌, ◌-◌, IfOk, Some, length, slice_get};
ghost use Rattle.rp_value.specs.ValueView.{value_view};
ghost use Rattle.crdt_defs.specs.Truths.{or_false};
ghost use Rattle.crdt_truth.specs.Open.{binders_view};

use crate::numbers::false_value;
use rp_value::{Memory, Value};
use std::alloc::Global;

/// The values of the open variables of a formula, the innermost first.
#[derive(Drop)]
pub enum Binders<'a> {
    Closed,
    /// A quantifier's variable.
    One(&'a Value, &'a Binders<'a>),
    /// An arm's variables, one a field, the last field innermost.
    Fields(&'a [Value], &'a Binders<'a>),
}

impl<'a> Binders<'a> {
    /// The value of the n-th enclosing variable.
    pub fn value(&self, alloc: Global, n: u32) -> Result<Value, Memory>
        ensures { IfOk result (λ v. value_view v ≡ or_false (slice_get (binders_view self.now) n)) }
    {
        match self {
            Binders::Closed => Ok(false_value(alloc)),
            Binders::One(value, outer) => if n == 0 {
                value.copy(alloc)
            } else {
                outer.value(alloc, n - 1)
            },
            Binders::Fields(fields, outer) => if (n as usize) < fields.len() {
                from_end(alloc, *fields, n)
            } else {
                outer.value(alloc, n - fields.len() as u32)
            },
        }
    }
}

/// The n-th value from the end.
fn from_end(alloc: Global, fields: &[Value], n: u32) -> Result<Value, Memory>
    requires within { n < length fields.now }
    ensures { IfOk result (λ v. slice_get fields.now (length fields.now - 1 - n) ≡ Some v) }
{
    fields[fields.len() - 1 - n as usize].copy(alloc)
}
