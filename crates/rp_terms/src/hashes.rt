ghost use Rattle.std.specs.Prelude.{◌≡◌, ◌<◌, ℕ, [], ◌∷◌, ◌++◌, length, slice_get, Some, OnOk, OnErr};
ghost use Rattle.rp_terms.specs.means.Latest.{IsLatest};

use indexmap::IndexMap;
use rp_value::{List, Memory};
use std::alloc::Global;
use std::marker::Model;

/// A hash by its number, and the last number before it that has the same hash.
#[derive(Clone, Copy)]
struct Link {
    hash: u64,
    before: Option<u32>,
}

/// The hashes of numbers, in their order. The numbers of one hash are found from the last one back.
#[derive(Drop)]
pub struct Hashes {
    last: IndexMap<u64, u32>,
    links: List<Link>,
}

impl Model for Hashes {
    ghost use Rattle.std.specs.Prelude.{List, ℕ};
    ghost use Rattle.rp_terms.specs.means.Links.{hashes_of, AreLinked};

    ghost Value = { List ℕ };

    ghost view = { λ h. hashes_of h.links };

    ghost invariant = { λ h. AreLinked h.last h.links };
}

impl Hashes {
    pub fn new(alloc: Global) -> Hashes
        ensures { result ≡ [] }
    {
        Hashes {
            last: IndexMap::new(alloc),
            links: List::new(alloc),
        }
    }

    /// The hash of a number.
    pub fn get(&self, id: u32) -> u64
        requires { id < length self.now }
        ensures { slice_get self.now id ≡ Some result }
    {
        self.links.get(id as usize).hash
    }

    /// The last number that has the hash.
    pub fn last(&self, hash: u64) -> Option<u32>
        ensures { IsLatest hash self.now (length self.now) result }
    {
        self.last.get(&hash).copied()
    }

    /// The last number before this one that has the same hash.
    pub fn before(&self, id: u32) -> Option<u32>
        requires { id < length self.now }
        ensures { (hash : ℕ) → slice_get self.now id ≡ Some hash → IsLatest hash self.now id result }
    {
        self.links.get(id as usize).before
    }

    /// Gives the next number a hash.
    pub fn push(&mut self, hash: u64) -> Result<(), Memory>
        ensures ok { OnOk result (self.new ≡ self.old ++ hash ∷ []) }
        ensures err { OnErr result (self.new ≡ self.old) }
    {
        let before = self.last(hash);
        let id = self.links.count();
        self.links.push(Link { hash, before })?;
        match self.last.insert(hash, id) {
            Ok(_) => Ok(()),
            Err(_) => {
                let _gone = self.links.pop();
                Err(Memory)
            },
        }
    }
}
