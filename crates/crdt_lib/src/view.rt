ghost use Rattle.std.specs.Prelude.{◌≡◌, ◌↔◌, IsTrue};
ghost use Rattle.std.specs.FinSet as set;
ghost use Rattle.std.specs.List.Sorted.{IsStrictlyIncreasing};

use crate::history::{ascends, is_listed};
use rp_value::List;
use std::marker::Model;

/// A set of numbers of calls.
pub trait View {
    ghost use Rattle.std.specs.Ordering.{nat_cmp};

    ghost calls: { Self → set.FinSet nat_cmp };

    fn has(&self, c: u32) -> bool
        ensures { result ≡ set.contains (calls self.now) c };

    /// How many calls are in the set.
    fn size(&self) -> u32
        ensures { result ≡ set.len (calls self.now) };
}

/// The calls of a strictly ascending list.
#[derive(Drop)]
pub struct ListView {
    calls: List<u32>,
}

impl Model for ListView {
    ghost use Rattle.std.specs.Prelude.{ℕ, List as Items};
    ghost use Rattle.std.specs.List.Sorted.{IsStrictlyIncreasing};

    ghost Value = { Items ℕ };

    ghost view = { λ v. v.calls };

    ghost invariant = { λ v. IsStrictlyIncreasing v.calls };
}

impl ListView {
    /// Whether a list of these calls may be a view.
    pub fn accepts(calls: &[u32]) -> bool
        ensures { IsTrue result ↔ IsStrictlyIncreasing calls.now }
    {
        ascends(calls)
    }

    pub fn new(calls: List<u32>) -> ListView
        requires { IsStrictlyIncreasing calls }
        ensures { result ≡ calls }
    {
        ListView { calls }
    }
}

impl View for ListView {
    ghost calls = { λ v. set.from_list v };

    fn has(&self, c: u32) -> bool {
        is_listed(self.calls.as_slice(), c)
    }

    fn size(&self) -> u32 {
        self.calls.count()
    }
}
