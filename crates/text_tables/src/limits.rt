//! The limit on how many types a text declares.

ghost use Rattle.std.specs.Prelude.{◌≡◌, ◌&&◌, Some, count_by, length, nat_le};
ghost use Rattle.rp_value.specs.declared.tables.ConTable.{ConTable as SpecCons};
ghost use Rattle.rp_lang.specs.Types as types;
ghost use Rattle.desugaring.specs.Tables.{con_table, type_table};
ghost use Rattle.text_names.specs.Declarations.{names_view};
ghost use Rattle.text_tables.specs.Seen.{tables_view};
ghost use Rattle.text_tables.specs.means.Limited as means;

use crate::tables::Tables;
use rp_lang::LimitName;
use text_names::TextNames;
use type_rules::Kind;
use type_terms::{Cases, cases_of};

/// Whether it isn't a `Maybe` type, told by the name of its first constructor.
fn is_declared(names: &TextNames, kind: Kind) -> bool
    ensures { result ≡ means.is_declared (names_view names.now) kind }
{
    match cases_of(names, kind) {
        Some(Cases::Bool) => true,
        Some(Cases::Maybe(_)) => false,
        Some(Cases::Declared(cons)) => match cons.as_slice().first() {
            Some(con) => con.name.text.as_slice() != b"none".as_slice(),
            None => true,
        },
        None => true,
    }
}

fn declared_count(names: &TextNames, kinds: &[Kind]) -> u64
    ensures { result ≡ count_by (means.is_declared (names_view names.now)) kinds.now }
{
    let mut count: u64 = 0;
    for kind in kinds {
        if is_declared(names, *kind) {
            count += 1;
        }
    }
    count
}

fn are_few(atoms: u32, declared: u64) -> bool
    ensures { result ≡ (nat_le atoms 64 && nat_le declared 64) }
{
    atoms as u64 <= LimitName::Types.number() && declared <= LimitName::Types.number()
}

impl<'n, 'a> Tables<'n, 'a> {
    /// How many id types and opaque types there are.
    fn atom_count(&self) -> u32
        ensures { result ≡ length (type_table (tables_view self.now)).atoms }
    {
        *self.atoms.get(self.names().type_count() as usize)
    }

    /// Whether id types and opaque types are few, and the datatypes that are no `Maybe` types.
    pub fn has_few_types(&self) -> bool
        ensures { (cons : SpecCons) → con_table (tables_view self.now) ≡ Some cons
            → result ≡ types.has_few_types (type_table (tables_view self.now)) cons }
    {
        let declared = declared_count(self.names(), self.kinds.as_slice());
        are_few(self.atom_count(), declared)
    }
}
