//! What names stand for.

ghost use Rattle.std.specs.Prelude.{◌≡◌};
ghost use Rattle.type_terms.specs.Meanings as spec;
ghost use Rattle.text_names.specs.Declarations.{names_view};

use rp_ast::Ident;
use text_names::{Item, TextNames};
use type_tables::{VarItem, Vars};

/// What a name stands for.
#[derive(Clone, Copy)]
pub enum Meaning<'a> {
    /// A variable in sight, which comes before a constructor of its name.
    Variable(VarItem<'a>),
    /// A root, a query, a procedure or a constructor.
    Declared(Item<'a>),
    /// Nothing in sight has the name.
    Nothing,
}

/// What a name stands for. Each table is asked once at most.
pub fn meaning_of<'a>(names: &TextNames<'a>, vars: &Vars<'a>, name: &Ident) -> Meaning<'a>
    ensures { spec.meaning_view result ≡ spec.meaning_of (names_view names.now) vars.now name.now.text }
{
    let text = name.text.as_slice();
    match vars.find(text) {
        Some(var) => Meaning::Variable(var),
        None => match names.item_named(text) {
            Some(item) => Meaning::Declared(item),
            None => Meaning::Nothing,
        },
    }
}

/// Whether nothing in sight has the name.
pub fn is_nothing(meaning: Meaning) -> bool
    ensures { result ≡ spec.is_nothing (spec.meaning_view meaning.entry) }
{
    matches!(meaning, Meaning::Nothing)
}
