ghost use Rattle.std.specs.Prelude.{◌≡◌, ◌<◌, [], ◌∷◌, ◌++◌, length, slice_get, vec_len, Some, IfOk, IsTrue, MatchOption, OnErr, OnOk, ◌↔◌};
ghost use Rattle.std.specs.Cmp.Lexicographic.{pointwise, lists_per, lists_equiv};

use crate::memory::Memory;
use std::alloc::Global;
use std::marker::Model;
use std::ops::{DerefSlice, Index};

/// A `Vec` that contracts see as the list of its elements. Each place of it fits a `u32`.
#[derive(Drop)]
pub struct List<T> {
    items: Vec<T>,
}

/// A list of bytes.
pub type Bytes = List<u8>;

/// The greatest length of a `List`.
const MOST: usize = 4_294_967_294;

impl<T> Model for List<T> {
    ghost use Rattle.std.specs.Prelude.{List as Items, length, ◌<◌};
    ghost use Rattle.std.specs.Coded.{coded_list};

    ghost Value = { Items T };

    ghost coded = { coded_list T.code };

    ghost view = { λ it. it.items.items };

    ghost invariant = { λ it. length it.items.items < 4294967295 };
}

impl<T> List<T> {
    /// The empty list. It takes no memory.
    pub fn new(alloc: Global) -> List<T>
        ensures { result ≡ [] }
    {
        List {
            items: Vec::new(alloc),
        }
    }

    /// The list of a vector's elements. It takes no memory.
    pub fn from_vec(items: Vec<T>) -> List<T>
        requires few { vec_len items < 4294967295 }
        ensures { result ≡ items.items }
    {
        List { items }
    }

    pub fn len(&self) -> usize
        ensures length { result ≡ length self.now }
        ensures few { length self.now < 4294967295 }
    {
        self.items.len()
    }

    /// The length, as the number of a place.
    pub fn count(&self) -> u32
        ensures length { result ≡ length self.now }
        ensures few { length self.now < 4294967295 }
    {
        self.items.len() as u32
    }

    pub fn is_empty(&self) -> bool
        ensures { IsTrue result ↔ (self.now ≡ []) }
    {
        self.items.is_empty()
    }

    pub fn get(&self, i: usize) -> &T
        requires within { i < length self.now }
        ensures { slice_get self.now i ≡ Some result.now }
    {
        &self.items[i]
    }

    pub fn as_slice(&self) -> &[T]
        ensures items { result.now ≡ self.now }
        ensures few { length self.now < 4294967295 }
    {
        self.items.as_slice()
    }

    pub fn pop(&mut self) -> Option<T>
        ensures { MatchOption result ((self.old ≡ []) × (self.new ≡ [])) (λ last. self.old ≡ self.new ++ last ∷ []) }
    {
        self.items.pop()
    }
}

impl<T: Drop> List<T> {
    /// Adds an element at the end. On `Memory` it is dropped.
    pub fn push(&mut self, x: T) -> Result<(), Memory>
        ensures ok { OnOk result (self.new ≡ self.old ++ x ∷ []) }
        ensures err { OnErr result (self.new ≡ self.old) }
    {
        if self.items.len() >= MOST {
            return Err(Memory);
        }
        self.items.push(x)?;
        Ok(())
    }
}

impl<T> DerefSlice for List<T> {
    type Elem = T;

    ghost deref_gives = { λ xs items. (items ≡ xs) × (length xs < 4294967295) };

    fn deref(&self) -> &[T]
        ensures items { result.now ≡ self.now }
        ensures few { length self.now < 4294967295 }
    {
        self.as_slice()
    }
}

impl<T> Index<usize> for List<T> {
    type Output = T;

    ghost can_index = { λ xs i. i < length xs };

    ghost index_gives = { λ xs i x. slice_get xs i ≡ Some x };

    fn index(&self, i: usize) -> &T
        requires { i < length self.now }
        ensures { slice_get self.now i ≡ Some result.now }
    {
        self.get(i)
    }
}

impl<T: PartialEq> PartialEq for List<T> {
    ghost eq = { λ xs ys. pointwise T.eq xs ys };

    ghost laws = { lists_per T.laws };

    fn eq(&self, other: &Self) -> bool {
        self.as_slice() == other.as_slice()
    }
}

impl<T: Eq> Eq for List<T> {
    ghost laws = { lists_equiv T.Eq.laws };
}

/// A list of the same elements.
pub fn copy_list<T: Copy + Drop>(alloc: Global, items: &[T]) -> Result<List<T>, Memory>
    ensures { IfOk result (λ copy. copy ≡ items.now) }
{
    if items.len() > MOST {
        return Err(Memory);
    }
    Ok(List::from_vec(Vec::from_slice(alloc, items)?))
}

/// A list of the same bytes.
pub fn copy_bytes(alloc: Global, bytes: &[u8]) -> Result<Bytes, Memory>
    ensures { IfOk result (λ copy. copy ≡ bytes.now) }
{
    copy_list(alloc, bytes)
}
