//! Nodes from their parts. Each function says which tree of the grammar its result is seen as.

pub mod crdt;
pub mod expr;
pub mod stmt;
pub mod ty;

ghost use Rattle.std.specs.Prelude.{◌≡◌, IfOk};

use rp_value::{Boxed, Memory};
use std::alloc::Global;

/// Two parts of a node in boxes. Where memory runs out, both are let go of here, and not once in each builder.
fn both<A: Drop, B: Drop>(
    alloc: Global,
    first: A,
    second: B,
) -> Result<(Boxed<A>, Boxed<B>), Memory>
    ensures first { IfOk result (λ boxes. boxes.0 ≡ first) }
    ensures second { IfOk result (λ boxes. boxes.1 ≡ second) }
{
    Ok((Boxed::new(alloc, first)?, Boxed::new(alloc, second)?))
}
