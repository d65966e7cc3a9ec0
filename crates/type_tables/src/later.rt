ghost use Rattle.std.specs.Prelude.{◌≡◌, [], ltb, OnOk};
ghost use Rattle.type_tables.specs.Counts.{count_in, one_more, one_less};

use indexmap::IndexMap;
use rp_value::Memory;
use std::alloc::Global;
use std::marker::Model;

/// How often each name is declared later, in this or an enclosing block.
#[derive(Drop)]
pub struct Later<'a> {
    counts: IndexMap<&'a [u8], u32>,
}

impl<'a> Model for Later<'a> {
    ghost use Rattle.type_tables.specs.Tables.{Entries, entries_of};

    ghost Value = { Entries };

    ghost view = { λ it. entries_of it.counts };
}

impl<'a> Later<'a> {
    /// No names. It takes no memory.
    pub fn new(alloc: Global) -> Later<'a>
        ensures { result ≡ [] }
    {
        Later {
            counts: IndexMap::new(alloc),
        }
    }

    /// Whether the name is declared later.
    pub fn has(&self, name: &[u8]) -> bool
        ensures { result ≡ ltb 0 (count_in self.now name.now) }
    {
        match self.counts.get(name) {
            Some(count) => *count > 0,
            None => false,
        }
    }

    /// One declaration of the name more. After `Memory` nothing is said of the names.
    pub fn raise(&mut self, name: &'a [u8]) -> Result<(), Memory>
        ensures { OnOk result (count_in self.new ≡ one_more name.now (count_in self.old)) }
    {
        let count = self.counts.get(name).copied().unwrap_or(0);
        match count.checked_add(1) {
            Some(more) => {
                self.counts.insert(name, more)?;
                Ok(())
            }
            None => Err(Memory),
        }
    }

    /// One declaration of the name less.
    pub fn lower(&mut self, name: &[u8])
        ensures { count_in self.new ≡ one_less name.now (count_in self.old) }
    {
        if let Some(count) = self.counts.get_mut(name) {
            *count = (*count).saturating_sub(1);
        }
    }
}
