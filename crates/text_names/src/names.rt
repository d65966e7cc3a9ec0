ghost use Rattle.text_names.specs.Indexed.{IsIndexed};

use crate::declared::{Item, TypeItem};
use rp_value::List;
use type_tables::NameTable;

/// What a text declares: its types, and its roots, queries, procedures and constructors, each found
/// by a hash of its name. Of two declarations of one name the first is found.
#[derive(Drop)]
pub struct TextNames<'a> {
    pub(crate) types: List<TypeItem<'a>>,
    pub(crate) type_numbers: NameTable<'a>,
    pub(crate) items: List<Item<'a>>,
    pub(crate) item_numbers: NameTable<'a>,
    /// The names of roots, queries and procedures.
    pub(crate) taken: NameTable<'a>,
    /// Of the declarations, in order, which are queries whose bodies aren't plain terms.
    pub(crate) formulas: List<bool>,
    ghost indexed: { IsIndexed types items type_numbers item_numbers taken },
}
