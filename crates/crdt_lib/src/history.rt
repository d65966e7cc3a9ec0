ghost use Rattle.std.specs.Prelude.{◌≡◌, ◌↔◌, ◌<◌, ◌++◌, [], ◌∷◌, ℕ, length, slice_get, slice_index, All, EachIndex, IsTrue, OnOk, OnErr, nat_eq};
ghost use Rattle.std.specs.List.{list_any};
ghost use Rattle.std.specs.List.Sorted.{IsStrictlyIncreasing};
ghost use Rattle.crdt_defs.specs.Calls.{call_view, calls_view};
ghost use Rattle.crdt_defs.specs.Histories.{IsHistory, MayFollow, before};

use crate::integers::args_fit;
use crdt_defs::CallRec;
use rp_value::{List, Memory};
use std::alloc::Global;
use std::marker::Model;

/// The greatest number of calls.
pub(crate) const MOST: usize = 16_384;

/// The calls of a store, numbered from 0. A past is made of earlier calls.
#[derive(Drop)]
pub struct History {
    calls: List<CallRec>,
}

impl Model for History {
    ghost use Rattle.std.specs.Prelude.{List};
    ghost use Rattle.std.specs.Coded.{coded_list};
    ghost use Rattle.crdt_defs.specs.declared.call.CallRec.{CallRec};
    ghost use Rattle.crdt_defs.specs.contracts.call.CallRec as call;

    ghost Value = { List CallRec };

    ghost coded = { coded_list call.the_row.coded };

    ghost use Rattle.crdt_defs.specs.Calls.{calls_view};
    ghost use Rattle.crdt_defs.specs.Histories.{IsHistory};

    ghost view = { λ h. h.calls };

    ghost invariant = { λ h. IsHistory (calls_view h.calls) };
}

impl History {
    /// The history without a call. It takes no memory.
    pub fn new(alloc: Global) -> History
        ensures { result ≡ [] }
    {
        History {
            calls: List::new(alloc),
        }
    }

    pub fn len(&self) -> u32
        ensures length { result ≡ length self.now }
        ensures seen { result ≡ length (calls_view self.now) }
        ensures history { IsHistory (calls_view self.now) }
    {
        self.calls.count()
    }

    pub fn call(&self, c: u32) -> &CallRec
        requires { c < length self.now }
        ensures value { slice_get self.now c ≡ Some result.now }
        ensures seen { slice_get (calls_view self.now) c ≡ Some (call_view result.now) }
        ensures ascending { IsStrictlyIncreasing result.now.past }
    {
        self.calls.get(c as usize)
    }

    /// Whether c is in the past of d.
    pub fn before(&self, c: u32, d: u32) -> bool
        requires { d < length self.now }
        ensures { result ≡ before (calls_view self.now) c d }
    {
        is_listed(self.call(d).past.as_slice(), c)
    }
}

impl History {
    /// Whether the call may be the next one.
    pub fn accepts(&self, call: &CallRec) -> bool
        ensures { IsTrue result ↔ MayFollow (length self.now) (call_view call.now) }
    {
        if self.len() as usize >= MOST {
            return false;
        }
        if !is_past(call.past.as_slice(), self.len()) {
            return false;
        }
        args_fit(call.args.as_slice())
    }

    /// Adds a call at the end. On `Memory` it is dropped.
    pub fn push(&mut self, call: CallRec) -> Result<(), Memory>
        requires { MayFollow (length self.old) (call_view call) }
        ensures ok { OnOk result (self.new ≡ self.old ++ call ∷ []) }
        ensures err { OnErr result (self.new ≡ self.old) }
    {
        self.calls.push(call)?;
        Ok(())
    }
}

fn all_below(xs: &[u32], n: u32) -> bool
    ensures { IsTrue result ↔ EachIndex xs.now (λ k. slice_index xs.now k < n) }
{
    xs.iter().all(|x| *x < n)
}

/// Whether each number is below the next.
pub(crate) fn ascends(xs: &[u32]) -> bool
    ensures { IsTrue result ↔ IsStrictlyIncreasing xs.now }
{
    for i in 1..xs.len() {
        if xs[i - 1] >= xs[i] {
            return false;
        }
    }
    true
}

/// Whether the past is one of the first `calls` calls, strictly ascending.
fn is_past(past: &[u32], calls: u32) -> bool
    ensures { IsTrue result ↔ (All (λ b. b < calls) past.now × IsStrictlyIncreasing past.now) }
{
    all_below(past, calls) && ascends(past)
}

/// Whether x stands in a strictly ascending list.
pub(crate) fn is_listed(xs: &[u32], x: u32) -> bool
    requires { IsStrictlyIncreasing xs.now }
    ensures { result ≡ list_any (λ b. nat_eq b x) xs.now }
{
    xs.binary_search(&x).is_ok()
}
