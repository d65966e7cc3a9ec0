use crate::stmt::Stmt;
use rp_span::Span;
use rp_value::{Bytes, List, Ty};

/// A procedure of a program.
#[derive(Drop)]
pub struct ProcDecl {
    pub name: Bytes,
    /// Where it stands, from its first word to its closing brace.
    pub at: Span,
    /// Its closing brace.
    pub end: Span,
    pub params: List<Ty>,
    pub result: Option<Ty>,
    /// The types of its slots, of which the first are its parameters.
    pub slots: List<Ty>,
    pub body: List<Stmt>,
}
