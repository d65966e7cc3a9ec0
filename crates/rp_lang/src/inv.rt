use crate::formula::Formula;
use rp_span::Span;
use rp_value::Bytes;

/// An invariant of a program.
#[derive(Drop)]
pub struct InvDecl {
    pub name: Bytes,
    pub at: Span,
    pub body: Formula,
}
