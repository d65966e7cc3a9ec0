// The writes that steps are made of.
ghost use Rattle.std.specs.Prelude.{◌≡◌, ◌<◌, [], ◌∷◌, ◌++◌, false, Some, None, length, slice_set, OnOk, OnErr};
ghost use Rattle.event_machine.specs.WellFormed.{At};
ghost use Rattle.crdt_truth.specs.declared.reading.Info.{Info};
ghost use Rattle.crdt_defs.specs.Calls.{call_view};
ghost use Rattle.crdt_defs.specs.Histories.{MayFollow};
ghost use Rattle.machine_state.specs.declared.state.Run.{Run};

use crate::state::{Run, Standing, State};
use crate::table::Table;
use crdt_defs::CallRec;
use crdt_truth::{Info, Outcome};
use rp_value::{List, Memory, Value};

impl<'p> State<'p> {
    /// Adds a transaction of the invocation, and its marker. On `Memory` nothing changes.
    pub fn open(&mut self, i: u32, marker: CallRec) -> Result<(), Memory>
        requires { MayFollow (length self.old.history) (call_view marker) }
        ensures ok { OnOk result (self.new ≡ record self.old {
          owners = self.old.owners ++ i ∷ [];
          committed = self.old.committed ++ false ∷ [];
          history = self.old.history ++ marker ∷ [];
        }) }
        ensures err { OnErr result (self.new ≡ self.old) }
    {
        self.owners.push(i)?;
        if self.committed.push(false).is_err() {
            self.owners.drop_last();
            return Err(Memory);
        }
        if self.history.push(marker).is_err() {
            self.owners.drop_last();
            self.committed.drop_last();
            return Err(Memory);
        }
        Ok(())
    }

    /// Adds an invocation. On `Memory` nothing changes.
    pub fn begin_run(&mut self, info: Info, run: Run) -> Result<(), Memory>
        ensures ok { OnOk result (self.new ≡ record self.old {
          infos = self.old.infos ++ info ∷ [];
          runs = self.old.runs ++ run ∷ [];
        }) }
        ensures err { OnErr result (self.new ≡ self.old) }
    {
        self.runs.push(run)?;
        if self.infos.push(info).is_err() {
            self.runs.drop_last();
            return Err(Memory);
        }
        Ok(())
    }
}

impl Table<Run> {
    /// The invocation sees these transactions, tx is its open one, and it goes on from the point.
    pub fn see(&mut self, i: u32, seen: List<u32>, tx: u32, at: u64)
        requires { i < length self.old }
        ensures { (run : Run) → At self.old i run
            → self.new ≡ slice_set self.old i (record run { seen = seen; tx = Some tx; at = at }) }
    {
        let run = &mut self.items[i as usize];
        run.seen = seen;
        run.tx = Some(tx);
        run.at = at;
    }

    /// The transaction is seen and isn't open any more, and the invocation goes on from the point. On `Memory` nothing
    /// changes.
    pub fn close(&mut self, i: u32, tx: u32, at: u64) -> Result<(), Memory>
        requires { i < length self.old }
        ensures ok { OnOk result ((run : Run) → At self.old i run
            → self.new ≡ slice_set self.old i (record run { seen = run.seen ++ tx ∷ []; tx = None; at = at })) }
        ensures err { OnErr result (self.new ≡ self.old) }
    {
        let run = &mut self.items[i as usize];
        run.seen.push(tx)?;
        run.tx = None;
        run.at = at;
        Ok(())
    }

    /// The invocation goes on from the point.
    pub fn go_on(&mut self, i: u32, at: u64)
        requires { i < length self.old }
        ensures { (run : Run) → At self.old i run → self.new ≡ slice_set self.old i (record run { at = at }) }
    {
        self.items[i as usize].at = at;
    }

    /// The value is put into the slot, where there is one.
    pub fn put(&mut self, i: u32, slot: u32, value: Value)
        requires { i < length self.old }
        ensures { (run : Run) → At self.old i run
            → self.new ≡ slice_set self.old i (record run { slots = slice_set run.slots slot (Some value) }) }
    {
        self.items[i as usize].slots.replace(slot, Some(value));
    }

    pub fn stand(&mut self, i: u32, standing: Standing)
        requires { i < length self.old }
        ensures { (run : Run) → At self.old i run → self.new ≡ slice_set self.old i (record run { standing = standing }) }
    {
        self.items[i as usize].standing = standing;
    }
}

impl Table<Info> {
    pub fn end(&mut self, i: u32, outcome: Outcome)
        requires { i < length self.old }
        ensures { (info : Info) → At self.old i info → self.new ≡ slice_set self.old i (record info { outcome = outcome }) }
    {
        self.items[i as usize].outcome = outcome;
    }
}
