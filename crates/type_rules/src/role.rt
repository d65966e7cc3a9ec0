/// What a type is written for.
#[derive(Clone, Copy, PartialEq, Eq)]
pub enum Role {
    /// An element, a value or a key of a replicated type, or a field of a datatype.
    Field,
    /// A parameter of a query.
    QueryParam,
    /// The result of a query.
    QueryResult,
    /// A quantified variable.
    Quantified,
    /// A parameter or the result of a procedure, or a declared variable.
    Variable,
}
