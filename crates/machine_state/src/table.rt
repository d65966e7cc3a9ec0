// Lists whose elements may be replaced.
ghost use Rattle.std.specs.Prelude.{◌≡◌, ◌<◌, [], ◌∷◌, ◌++◌, length, slice_get, slice_set, take, Some, OnErr, OnOk};

use rp_value::Memory;
use std::alloc::Global;
use std::marker::Model;

/// A `Vec` that contracts see as the list of its elements, which may be replaced.
#[derive(Drop)]
pub struct Table<T> {
    pub(crate) items: Vec<T>,
}

const MOST: usize = 4_294_967_294;

impl<T> Model for Table<T> {
    ghost use Rattle.std.specs.Prelude.{List as Items, length, ◌<◌};
    ghost use Rattle.std.specs.Coded.{coded_list};

    ghost Value = { Items T };

    ghost coded = { coded_list T.code };

    ghost view = { λ it. it.items.items };

    ghost invariant = { λ it. length it.items.items < 4294967295 };
}

impl<T> Table<T> {
    pub fn new(alloc: Global) -> Table<T>
        ensures { result ≡ [] }
    {
        Table {
            items: Vec::new(alloc),
        }
    }

    pub fn count(&self) -> u32
        ensures length { result ≡ length self.now }
        ensures few { length self.now < 4294967295 }
    {
        self.items.len() as u32
    }

    pub fn get(&self, i: u32) -> &T
        requires within { i < length self.now }
        ensures { slice_get self.now i ≡ Some result.now }
    {
        &self.items[i as usize]
    }

    pub fn as_slice(&self) -> &[T]
        ensures items { result.now ≡ self.now }
        ensures few { length self.now < 4294967295 }
    {
        self.items.as_slice()
    }
}

impl<T: Drop> Table<T> {
    /// Adds an element at the end. On `Memory` it is dropped.
    pub fn push(&mut self, x: T) -> Result<(), Memory>
        ensures ok { OnOk result (self.new ≡ self.old ++ x ∷ []) }
        ensures err { OnErr result (self.new ≡ self.old) }
    {
        if self.items.len() >= MOST {
            return Err(Memory);
        }
        self.items.push(x)?;
        Ok(())
    }

    /// Takes the last element away.
    pub fn drop_last(&mut self)
        ensures { (xs : _) (x : _) → self.old ≡ xs ++ x ∷ [] → self.new ≡ xs }
    {
        let _last = self.items.pop();
    }

    /// Takes away what stands behind the first n.
    pub fn cut(&mut self, n: u32)
        ensures { self.new ≡ take n self.old }
    {
        self.items.truncate(n as usize);
    }

    /// Puts x in the place of element i.
    pub fn set(&mut self, i: u32, x: T)
        requires within { i < length self.old }
        ensures { self.new ≡ slice_set self.old i x }
    {
        self.items[i as usize] = x;
    }

    /// Puts x in the place of element i, if there is one. Else x is dropped.
    #[tactic(auto, using(std::proofs::lemmas::List::set_past))]
    pub fn replace(&mut self, i: u32, x: T)
        ensures { self.new ≡ slice_set self.old i x }
    {
        if i < self.count() {
            self.set(i, x);
        }
    }
}
