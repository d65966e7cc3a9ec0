// Histories in which the calls of a transaction are found without a walk over all calls.
ghost use Rattle.std.specs.Prelude.{◌≡◌, ◌<◌, ◌++◌, [], ◌∷◌, ℕ, All, IsTrue, Some, false, length, max, nat_eq, slice_get, OnErr, OnOk};
ghost use Rattle.std.specs.List.{list_any};
ghost use Rattle.std.specs.List.Sorted.{IsStrictlyIncreasing};
ghost use Rattle.crdt_defs.specs.Calls.{call_view, calls_view};
ghost use Rattle.crdt_defs.specs.Histories.{IsHistory, MayFollow};
ghost use Rattle.event_machine.specs.Machine as spec;

use crate::lists::{note, numbers_at, take_back};
use crdt_defs::CallRec;
use crdt_lib::History;
use rp_value::{List, Memory};
use std::alloc::Global;
use std::marker::Model;

fn greater(a: u64, b: u64) -> u64
    ensures { result ≡ max a b }
{
    if a < b { b } else { a }
}

/// The calls of a store, and of each transaction the numbers of its calls. Contracts see the calls alone.
#[derive(Drop)]
pub struct IndexedHistory {
    alloc: Global,
    history: History,
    by_tx: Vec<List<u32>>,
    /// The greatest stamp of a call, or 0.
    top: u64,
}

impl Model for IndexedHistory {
    ghost use Rattle.std.specs.Prelude.{List};
    ghost use Rattle.std.specs.Coded.{coded_list};
    ghost use Rattle.crdt_defs.specs.declared.call.CallRec.{CallRec};
    ghost use Rattle.crdt_defs.specs.contracts.call.CallRec as call;

    ghost Value = { List CallRec };

    ghost coded = { coded_list call.the_row.coded };

    ghost use Rattle.crdt_defs.specs.Calls.{calls_view};
    ghost use Rattle.machine_tests.specs.means.Indexed.{IsIndexed};

    ghost view = { λ h. h.history };

    ghost invariant = { λ h. IsIndexed (calls_view h.history) h.by_tx.items h.top };
}

impl IndexedHistory {
    /// The history without a call. It takes no memory.
    pub fn new(alloc: Global) -> IndexedHistory
        ensures { result ≡ [] }
    {
        IndexedHistory {
            alloc,
            history: History::new(alloc),
            by_tx: Vec::new(alloc),
            top: 0,
        }
    }

    /// The calls alone.
    pub fn history(&self) -> &History
        ensures { result.now ≡ self.now }
    {
        &self.history
    }

    pub fn len(&self) -> u32
        ensures length { result ≡ length self.now }
        ensures seen { result ≡ length (calls_view self.now) }
        ensures history { IsHistory (calls_view self.now) }
    {
        self.history.len()
    }

    pub fn call(&self, c: u32) -> &CallRec
        requires { c < length self.now }
        ensures value { slice_get self.now c ≡ Some result.now }
        ensures seen { slice_get (calls_view self.now) c ≡ Some (call_view result.now) }
        ensures ascending { IsStrictlyIncreasing result.now.past }
    {
        self.history.call(c)
    }

    /// Whether no call has the stamp, as far as the greatest one tells.
    pub(crate) fn is_above_all(&self, stamp: u64) -> bool
        ensures { IsTrue result → list_any (λ call. nat_eq call.stamp stamp) (calls_view self.now) ≡ false }
    {
        self.top < stamp
    }

    /// The calls of the transaction.
    pub(crate) fn of_tx(&self, tx: u32) -> &[u32]
        ensures calls { (n : ℕ) → spec.is_in result.now n ≡ spec.own_calls (calls_view self.now) (Some tx) n }
        ensures below { All (λ n. n < 16384) result.now }
    {
        let _calls = self.history.len();
        numbers_at(self.by_tx.as_slice(), tx)
    }

    /// Adds a call at the end. On `Memory` it is dropped.
    pub fn push(&mut self, call: CallRec) -> Result<(), Memory>
        requires { MayFollow (length self.old) (call_view call) }
        ensures ok { OnOk result (self.new ≡ self.old ++ call ∷ []) }
        ensures err { OnErr result (self.new ≡ self.old) }
    {
        let tx = call.tx;
        let top = greater(self.top, call.stamp);
        note(self.alloc, &mut self.by_tx, tx, self.history.len())?;
        match self.history.push(call) {
            Ok(()) => {
                self.top = top;
                Ok(())
            }
            Err(why) => {
                take_back(&mut self.by_tx, tx);
                Err(why)
            }
        }
    }
}
