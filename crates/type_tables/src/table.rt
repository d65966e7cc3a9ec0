ghost use Rattle.std.specs.Prelude.{◌≡◌, [], OnOk, OnErr};
ghost use Rattle.type_tables.specs.Tables.{number_in, with_first, without};

use indexmap::IndexMap;
use rp_value::Memory;
use std::alloc::Global;
use std::marker::Model;

/// Names with a number each, found by a hash. A name keeps the number that it had first.
#[derive(Drop)]
pub struct NameTable<'a> {
    numbers: IndexMap<&'a [u8], u32>,
}

impl<'a> Model for NameTable<'a> {
    ghost use Rattle.type_tables.specs.Tables.{Entries, entries_of};

    ghost Value = { Entries };

    ghost view = { λ it. entries_of it.numbers };
}

impl<'a> NameTable<'a> {
    /// No names. It takes no memory.
    pub fn new(alloc: Global) -> NameTable<'a>
        ensures { result ≡ [] }
    {
        NameTable {
            numbers: IndexMap::new(alloc),
        }
    }

    /// The number of a name.
    pub fn number(&self, name: &[u8]) -> Option<u32>
        ensures { result ≡ number_in self.now name.now }
    {
        self.numbers.get(name).copied()
    }

    /// Gives the name this number, where it has none yet.
    pub fn add(&mut self, name: &'a [u8], number: u32) -> Result<(), Memory>
        ensures ok { OnOk result (number_in self.new ≡ with_first (number_in self.old) name.now number) }
        ensures err { OnErr result (self.new ≡ self.old) }
    {
        if self.number(name).is_none() {
            self.numbers.insert(name, number)?;
        }
        Ok(())
    }

    /// Takes the name out, where it has this number.
    pub fn remove(&mut self, name: &[u8], number: u32)
        ensures { number_in self.new ≡ without (number_in self.old) name.now number }
    {
        if let Some(own) = self.number(name) {
            if own == number {
                let _ = self.numbers.swap_remove(name);
            }
        }
    }
}
