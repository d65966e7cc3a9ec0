use rp_ast::CallWord;
use type_rules::Kind;

/// What the place of an expression asks.
#[derive(Clone, Copy)]
pub struct Want {
    /// The type, if it asks one.
    pub asked: Option<Kind>,
    /// The rule that another type breaks; 18 where any datatype will do.
    pub rule: u8,
    /// A plain term.
    pub plain: bool,
    /// The word that the other side is, where the place is a side of an equality.
    pub across: Option<CallWord>,
}
