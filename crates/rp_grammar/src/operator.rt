//! Operators and words that one kind of node tells apart.

/// How two sums are compared.
#[derive(Clone, Copy, PartialEq, Eq)]
pub enum CompareOp {
    Equal,
    NotEqual,
    Less,
    AtMost,
    Greater,
    AtLeast,
}

/// A word that is called like a function.
#[derive(Clone, Copy, PartialEq, Eq)]
pub enum CallWord {
    Visible,
    Before,
    Same,
    Op,
    Origin,
    Info,
    Result,
}
