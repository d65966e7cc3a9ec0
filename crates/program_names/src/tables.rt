//! Tables in which the names of a program's parts are found by a hash.
ghost use Rattle.std.specs.Prelude.{◌≡◌, ℕ, ◌<◌, ◌==◌, if◌then◌else◌, map, IfOk, OnOk};
ghost use Rattle.std.specs.Vec.{vec_len};
ghost use Rattle.rp_lang.specs.Views.{proc_view};
ghost use Rattle.type_tables.specs.Tables.{number_in, with_first};
ghost use Rattle.program_names.specs.Called as spec;
ghost use Rattle.program_names.specs.means.Found.{Finds, FindsMade, table_of};

use rp_lang::ProcDecl;
use rp_value::{AtomType, ConDecl, List, Memory};
use std::alloc::Global;
use type_tables::NameTable;

/// The id and opaque types, each name with the number of its first.
pub(crate) fn atom_table<'a>(
    alloc: Global,
    atoms: &'a List<AtomType>,
) -> Result<NameTable<'a>, Memory>
    ensures { IfOk result (Finds spec.atom_is_called atoms.now) }
{
    let mut table = NameTable::new(alloc);
    for n in 0..atoms.count() {
        let atom = atoms.get(n as usize);
        table.add(atom.name.as_slice(), n)?;
    }
    Ok(table)
}

/// The procedures, each name with the number of its first.
pub(crate) fn proc_table<'a>(
    alloc: Global,
    procs: &'a List<ProcDecl>,
) -> Result<NameTable<'a>, Memory>
    ensures { IfOk result (Finds spec.proc_is_called (map proc_view procs.now)) }
{
    let mut table = NameTable::new(alloc);
    for n in 0..procs.count() {
        let proc = procs.get(n as usize);
        table.add(proc.name.as_slice(), n)?;
    }
    Ok(table)
}

/// The constructors, each name with the number of its first.
pub(crate) fn con_table<'a>(alloc: Global, cons: &'a List<ConDecl>) -> Result<NameTable<'a>, Memory>
    ensures { IfOk result (Finds spec.con_is_called cons.now) }
{
    let mut table = NameTable::new(alloc);
    for n in 0..cons.count() {
        let con = cons.get(n as usize);
        table.add(con.name.as_slice(), n)?;
    }
    Ok(table)
}

/// Adds empty tables until there is one of this number.
fn reach(alloc: Global, tables: &mut Vec<NameTable>, number: usize) -> Result<(), Memory>
    ensures same { OnOk result ((d : ℕ) → table_of tables.new.items d ≡ table_of tables.old.items d) }
    ensures there { OnOk result (number < vec_len tables.new) }
{
    while tables.len() <= number {
        tables.push(NameTable::new(alloc))?;
    }
    Ok(())
}

/// Gives the constructor its number in the table of its datatype, where its name has none there yet.
fn add_con<'a>(
    alloc: Global,
    tables: &mut Vec<NameTable<'a>>,
    con: &'a ConDecl,
    number: u32,
) -> Result<(), Memory>
    ensures { OnOk result ((d : ℕ) → number_in (table_of tables.new.items d)
        ≡ (if con.now.of == d then with_first (number_in (table_of tables.old.items d)) con.now.name number
        else number_in (table_of tables.old.items d))) }
{
    let of = con.of as usize;
    reach(alloc, tables, of)?;
    let table = &mut tables[of];
    table.add(con.name.as_slice(), number)?;
    Ok(())
}

/// The constructors of each datatype, each name with the number of its first there.
pub(crate) fn made_tables<'a>(
    alloc: Global,
    cons: &'a List<ConDecl>,
) -> Result<Vec<NameTable<'a>>, Memory>
    ensures { IfOk result (λ tables. FindsMade cons.now tables.items) }
{
    let mut tables = Vec::new(alloc);
    for n in 0..cons.count() {
        add_con(alloc, &mut tables, cons.get(n as usize), n)?;
    }
    Ok(tables)
}
