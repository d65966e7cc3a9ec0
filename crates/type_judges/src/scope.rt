use text_names::TextNames;
use type_tables::{Later, Vars};

/// What is known where an expression stands.
#[derive(Clone, Copy)]
pub struct Scope<'s, 'a> {
    pub names: &'s TextNames<'a>,
    pub vars: &'s Vars<'a>,
    /// The variables that are declared later in this or an enclosing block.
    pub later: &'s Later<'a>,
    /// The number of the declaration in which it stands.
    pub decl: u32,
    /// The words on calls and invocations may stand here.
    pub words: bool,
}
