//! Types as the rules tell them apart.

/// What a type is under its `Maybe`s.
#[derive(Clone, Copy, PartialEq, Eq)]
pub enum Base {
    Bool,
    Int,
    Text,
    /// The declared type of this number, in the order of the text.
    Declared(u32),
    Call,
    Invocation,
    /// What `op(c)` is.
    Operation,
    /// What `info(i)` is.
    Info,
    /// What `result(i)` is.
    Outcome,
    /// What hangs on an unknown name. It fits every place, so that it breaks no further rule.
    Unknown,
    /// What a `none` holds whose place asks no type.
    Open,
}

/// A type: so many `Maybe`s around a base.
#[derive(Clone, Copy, PartialEq, Eq)]
pub struct Kind {
    pub base: Base,
    pub maybes: u32,
}
