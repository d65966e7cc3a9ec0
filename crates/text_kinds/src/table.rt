ghost use Rattle.text_names.specs.Declarations.{names_view};
ghost use Rattle.text_kinds.specs.means.Rows.{AreRows};

use crate::numbers::Numbers;
use rp_value::List;
use text_names::TextNames;
use type_rules::Kind;

/// The datatypes of a text by their numbers, in the order in which they first appear.
#[derive(Drop)]
pub struct KindTable<'n, 'a> {
    pub(crate) names: &'n TextNames<'a>,
    pub(crate) kinds: List<Kind>,
    /// How many constructors they have together.
    pub(crate) cons: u32,
    /// Of the datatypes without a `Maybe`, by their places.
    pub(crate) own: Vec<Option<Numbers>>,
    /// Of those with one `Maybe`, with two, and so on, by the places of what stands under all of them.
    pub(crate) maybes: Vec<List<Numbers>>,
    ghost rows: { AreRows (names_view names.now) kinds cons own.items maybes.items },
}
