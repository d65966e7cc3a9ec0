// States of the machine.
ghost use Rattle.std.specs.Prelude.{◌≡◌, ◌↔◌, ◌<◌, ◌≤◌, ℕ, IfOk, IsTrue, length, slice_get, option_map, option_copied, Some};
ghost use Rattle.rp_value.specs.Values.{Atom};
ghost use Rattle.rp_lang.specs.Programs.{Prog};
ghost use Rattle.rp_lang.specs.ProgramView.{program_view};
ghost use Rattle.rp_lang.specs.Views.{stmt_view};
ghost use Rattle.event_machine.specs.Code.{Code};
ghost use Rattle.event_machine.specs.Machine as spec;
ghost use Rattle.event_machine.specs.States as seen;
ghost use Rattle.event_machine.specs.WellFormed.{At};
ghost use Rattle.code_points.specs.ActionView.{action_view};
ghost use Rattle.code_points.specs.PointView.{spot_view};
ghost use Rattle.code_points.specs.Points.{does_at};
ghost use Rattle.crdt_truth.specs.declared.reading.Info.{Info};
ghost use Rattle.machine_state.specs.StateView.{state_view};
ghost use Rattle.machine_state.specs.Fits.{AreProcPlaces, Fits, HasRoom};
ghost use Rattle.machine_state.specs.Accessors as asked;
ghost use Rattle.machine_state.specs.Spots.{HasRest, IsSpot, IsTold, IsWithin};

use crate::table::Table;
use code_points::{Place, Spot, next_at, places_of, rest_at, size, spot_at};
use crdt_lib::History;
use crdt_truth::{Info, Outcome};
use machine_tests::{IndexedHistory, has_atom};
use rp_lang::{Action, Program, Stmt, StmtKind};
use rp_value::{List, Memory, Value};
use std::alloc::Global;

/// Whether an invocation may go on. What it has returned is its outcome.
#[derive(Clone, Copy)]
pub enum Standing {
    Running,
    Returned,
    Failed,
}

/// What changes as an invocation runs; its procedure, its arguments and its outcome stand apart, in an `Info`.
#[derive(Drop)]
pub struct Run {
    /// The point of its procedure's body from which it goes on.
    pub at: u64,
    /// A slot without a value isn't set.
    pub slots: Table<Option<Value>>,
    /// The transactions that it sees, ascending.
    pub seen: List<u32>,
    /// Its open transaction.
    pub tx: Option<u32>,
    pub standing: Standing,
}

/// A state of the machine. Calls, transactions and invocations are numbered from 0, in the order in which they came.
#[derive(Drop)]
pub struct State<'p> {
    pub universe: u32,
    /// Of each procedure of the program its points.
    pub places: Table<List<Place<'p>>>,
    pub history: IndexedHistory,
    /// Of each transaction the invocation that began it.
    pub owners: Table<u32>,
    /// Of each transaction whether it is committed.
    pub committed: Table<bool>,
    /// Of each invocation what invariants may speak of.
    pub infos: Table<Info>,
    /// Of each invocation where it stands.
    pub runs: Table<Run>,
    /// The identifiers that were generated, in their order.
    pub generated: Table<Value>,
    /// The identifiers and opaque values in results, each once.
    pub known: Table<Value>,
}

impl<'p> State<'p> {
    /// The state without a call, a transaction, an invocation or an identifier. It takes memory for the points of the
    /// program's procedures.
    pub fn empty(alloc: Global, p: &'p Program, universe: u32) -> Result<State<'p>, Memory>
        requires some { 1 ≤ universe }
        ensures state { IfOk result (λ s. state_view (program_view p.now) s ≡ seen.empty universe) }
        ensures fits { IfOk result (λ s. Fits p.now s) }
    {
        if !has_room(p) {
            return Err(Memory);
        }
        let places = all_places(alloc, p)?;
        Ok(State {
            universe,
            places,
            history: IndexedHistory::new(alloc),
            owners: Table::new(alloc),
            committed: Table::new(alloc),
            infos: Table::new(alloc),
            runs: Table::new(alloc),
            generated: Table::new(alloc),
            known: Table::new(alloc),
        })
    }

    pub fn universe(&self) -> u32
        ensures { result ≡ self.now.universe }
    {
        self.universe
    }

    pub fn history(&self) -> &History
        ensures { result.now ≡ self.now.history }
    {
        self.history.history()
    }

    /// Of each transaction whether it is committed.
    pub fn committed(&self) -> &[bool]
        ensures { result.now ≡ self.now.committed }
    {
        self.committed.as_slice()
    }

    /// How many invocations there are.
    pub fn invocations(&self) -> u32
        ensures { result ≡ length self.now.infos }
    {
        self.infos.count()
    }

    /// What the invocation does next, if it is running.
    pub fn next(&self, p: &Program, inv: u32) -> Option<Action>
        requires fits { Fits p.now self.now }
        requires within { inv < length self.now.infos }
        ensures { option_map action_view result ≡ asked.next (state_view (program_view p.now) self.now) inv }
    {
        if self.is_running(inv) {
            Some(self.next_of(p, inv))
        } else {
            None
        }
    }

    /// The id type of the next `new`, if that is next.
    pub fn new_type(&self, p: &Program, inv: u32) -> Option<u32>
        requires fits { Fits p.now self.now }
        requires within { inv < length self.now.infos }
        ensures { result ≡ asked.new_type (state_view (program_view p.now) self.now) inv }
    {
        if self.is_running(inv) {
            self.new_of(p, inv)
        } else {
            None
        }
    }

    /// The procedure of the invocation.
    pub fn proc_of(&self, inv: u32) -> u32
        requires within { inv < length self.now.infos }
        ensures { option_map (λ info. info.proc) (slice_get self.now.infos inv) ≡ Some result }
    {
        self.infos.get(inv).proc
    }

    /// The arguments of the invocation.
    pub fn args_of(&self, inv: u32) -> &List<Value>
        requires within { inv < length self.now.infos }
        ensures { option_map (λ info. info.args) (slice_get self.now.infos inv) ≡ Some result.now }
    {
        &self.infos.get(inv).args
    }

    /// The transactions that the invocation sees, ascending.
    pub fn view_txs(&self, inv: u32) -> &List<u32>
        requires within { inv < length self.now.runs }
        ensures { option_map (λ run. run.seen) (slice_get self.now.runs inv) ≡ Some result.now }
    {
        &self.runs.get(inv).seen
    }

    pub fn has_returned(&self, inv: u32) -> bool
        requires within { inv < length self.now.infos }
        ensures { result ≡ asked.has_returned (slice_get self.now.infos inv) }
    {
        match &self.infos.get(inv).outcome {
            Outcome::Unreturned => false,
            Outcome::Returned => true,
            Outcome::ReturnedWith(_) => true,
        }
    }

    /// What the invocation has returned, if it has returned with a value.
    pub fn result_of(&self, inv: u32) -> Option<&Value>
        requires within { inv < length self.now.infos }
        ensures { option_copied result ≡ asked.result_of (slice_get self.now.infos inv) }
    {
        match &self.infos.get(inv).outcome {
            Outcome::Unreturned => None,
            Outcome::Returned => None,
            Outcome::ReturnedWith(value) => Some(value),
        }
    }

    /// Whether the identifier stands in the result of a returned invocation.
    pub fn is_known(&self, p: &Program, ty: u32, num: u32) -> bool
        requires { Fits p.now self.now }
        ensures { result ≡ spec.is_known (state_view (program_view p.now) self.now) (Atom ty num) }
    {
        has_atom(self.known.as_slice(), ty, num)
    }

    /// Whether the identifier was generated.
    pub fn is_generated(&self, ty: u32, num: u32) -> bool
        ensures { (p : Prog) → result ≡ spec.is_generated (state_view p self.now) (Atom ty num) }
    {
        has_atom(self.generated.as_slice(), ty, num)
    }

    pub(crate) fn is_running(&self, inv: u32) -> bool
        requires { inv < length self.now.runs }
        ensures { option_map (λ run. asked.is_running run.standing) (slice_get self.now.runs inv) ≡ Some result }
    {
        match self.runs.get(inv).standing {
            Standing::Running => true,
            Standing::Returned => false,
            Standing::Failed => false,
        }
    }

    /// The points of the invocation's procedure, which the program has.
    fn places_in(&self, p: &Program, inv: u32) -> &List<Place<'p>>
        requires fits { Fits p.now self.now }
        requires within { inv < length self.now.infos }
        ensures { (info : Info) → At self.now.infos inv info → slice_get self.now.places info.proc ≡ Some result.now }
    {
        self.places.get(self.infos.get(inv).proc)
    }

    /// What comes next in the invocation's procedure; nothing where that ends.
    pub fn spot(&self, p: &Program, inv: u32) -> Option<Spot<'p>>
        requires fits { Fits p.now self.now }
        requires within { inv < length self.now.infos }
        ensures is { IsSpot (program_view p.now) self.now inv (option_map spot_view result) }
        ensures room { IsWithin 18446744073709551614 (option_map spot_view result) }
        ensures told { IsTold self.now inv (option_map spot_view result) }
    {
        spot_at(self.places_in(p, inv), self.runs.get(inv).at)
    }

    /// How many points the block of this point of the invocation's procedure has from there on.
    pub fn rest_at(&self, p: &Program, inv: u32, at: u64) -> u64
        requires fits { Fits p.now self.now }
        requires within { inv < length self.now.infos }
        ensures { HasRest self.now inv at result }
    {
        rest_at(self.places_in(p, inv), at)
    }

    /// What the invocation does next, whether it is running or not.
    pub(crate) fn next_of(&self, p: &Program, inv: u32) -> Action
        requires fits { Fits p.now self.now }
        requires within { inv < length self.now.infos }
        ensures { option_map (λ i. spec.next_action i.left)
            (slice_get (state_view (program_view p.now) self.now).invocations inv) ≡ Some (action_view result) }
    {
        next_at(self.places_in(p, inv), self.runs.get(inv).at)
    }

    /// The id type of the next `new`, whether the invocation is running or not.
    pub(crate) fn new_of(&self, p: &Program, inv: u32) -> Option<u32>
        requires fits { Fits p.now self.now }
        requires within { inv < length self.now.infos }
        ensures { option_map (λ i. asked.new_left i.left)
            (slice_get (state_view (program_view p.now) self.now).invocations inv) ≡ Some result }
    {
        match self.spot(p, inv) {
            Some(Spot::Before(at, stmt)) => new_by(at, stmt),
            Some(Spot::Closing(_, _)) => None,
            None => None,
        }
    }
}

/// The id type of which the statement at this point makes an identifier.
#[tactic(auto, using(rp_lang::proofs::StmtViews::stmt_views))]
fn new_by(_at: u64, stmt: &Stmt) -> Option<u32>
    ensures { (left : ℕ → Code) → result ≡ asked.new_left (does_at left _at (stmt_view stmt.now)) }
{
    match &stmt.what {
        StmtKind::New(_, ty) => Some(*ty),
        StmtKind::Put(_, _) => None,
        StmtKind::Decide(_, _) => None,
        StmtKind::Operate(_, _) => None,
        StmtKind::If(_, _, _) => None,
        StmtKind::Match(_, _) => None,
        StmtKind::Atomic(_) => None,
        StmtKind::Assert(_) => None,
        StmtKind::Return(None) => None,
        StmtKind::Return(Some(_)) => None,
    }
}

/// Whether the points of each procedure have numbers of 64 bits.
fn has_room(p: &Program) -> bool
    ensures { IsTrue result ↔ HasRoom (program_view p.now) }
{
    for q in p.procs.as_slice() {
        if size(q.body.as_slice()) == u64::MAX {
            return false;
        }
    }
    true
}

/// Of each procedure its points.
fn all_places<'p>(alloc: Global, p: &'p Program) -> Result<Table<List<Place<'p>>>, Memory>
    requires room { HasRoom (program_view p.now) }
    ensures { IfOk result (λ places. AreProcPlaces (program_view p.now).procs places) }
{
    let mut all = Table::new(alloc);
    for q in p.procs.as_slice() {
        all.push(places_of(alloc, q.body.as_slice())?)?;
    }
    Ok(all)
}
