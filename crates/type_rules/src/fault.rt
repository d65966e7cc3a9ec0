use rp_span::Span;

/// A broken rule, by its number from 1 to 24, and the token at which the offending item begins.
#[derive(Clone, Copy, PartialEq, Eq)]
pub struct Fault {
    pub rule: u8,
    pub span: Span,
}
