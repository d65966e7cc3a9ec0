use rp_span::Span;
use rp_value::Bytes;

/// A name, and where it stands.
#[derive(Drop)]
pub struct Ident {
    pub text: Bytes,
    pub span: Span,
}
