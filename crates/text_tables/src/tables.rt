ghost use Rattle.text_kinds.specs.Seen.{kinds_view};
ghost use Rattle.text_tables.specs.means.Kept.{AreTables};

use crate::object::ObjectTable;
use crate::procs::ProcTable;
use rp_value::List;
use text_kinds::KindTable;

/// The numbers of a text: of its types, constructors, operations, queries and procedures.
#[derive(Drop)]
pub struct Tables<'n, 'a> {
    pub(crate) kinds: KindTable<'n, 'a>,
    /// Of each type, and of the end, how many id types and opaque types are declared before it.
    pub(crate) atoms: List<u32>,
    pub(crate) procs: ProcTable<'a>,
    pub(crate) objects: ObjectTable,
    ghost known: { AreTables (kinds_view kinds).names atoms procs.numbers procs.count objects.objects objects.ops objects.roots },
}
