// What steps do to a state, where they aren't refused. On an error the state is as it was: all that can fail comes
// before the first write, or is taken back.
ghost use Rattle.std.specs.Prelude.{◌≡◌, ◌<◌, ◌-◌, ◌++◌, [], true, All, Some, None, map, replicate, length, IfOk, IfErr};
ghost use Rattle.std.specs.List.Sorted.{IsStrictlyIncreasing};
ghost use Rattle.rp_value.specs.ValueView.{value_view};
ghost use Rattle.rp_lang.specs.declared.program.Program.{Program};
ghost use Rattle.crdt_defs.specs.Atoms.{ints_fit};
ghost use Rattle.crdt_defs.specs.Snapshots.{bit};
ghost use Rattle.event_machine.specs.States as label;
ghost use Rattle.event_machine.specs.WellFormed.{At};
ghost use Rattle.machine_state.specs.declared.state.Run.{Run};
ghost use Rattle.machine_state.specs.Accessors.{is_running};
ghost use Rattle.machine_state.specs.Fits.{Fits};
ghost use Rattle.machine_state.specs.declared.state.Standing.TheVariants as stand;
ghost use Rattle.machine_effects.specs.Steps.{Does, Stops};

use crate::error::StepErr;
use crate::points::{behind_begin, behind_end, behind_new};
use crdt_defs::CallRec;
use crdt_truth::{Info, Outcome};
use machine_state::{Run, Standing, State, Table};
use machine_tests::{all_ints_fit, calls_read};
use rp_lang::{Event, LimitName, ProcDecl, Program};
use rp_value::{List, Memory, Value, copy_list, copy_values};
use std::alloc::Global;

/// The greatest number of calls, and of invocations.
const MOST: u32 = 16_384;

/// Slots that hold these values.
#[tactic(auto, using(std::proofs::lemmas::List::map_more))]
fn filled(alloc: Global, args: &[Value]) -> Result<Table<Option<Value>>, Memory>
    ensures { IfOk result (λ slots. slots ≡ map (λ v. Some v) args.now) }
{
    let mut slots = Table::new(alloc);
    for arg in args {
        slots.push(Some(arg.copy(alloc)?))?;
    }
    Ok(slots)
}

/// The slots of a procedure: its arguments, and no other value.
#[tactic(auto, using(crate::proofs::EffectLemmas::slots_more))]
fn first_slots(alloc: Global, q: &ProcDecl, args: &[Value]) -> Result<Table<Option<Value>>, Memory>
    ensures { IfOk result (λ slots. slots ≡ map (λ v. Some v) args.now ++ replicate (length q.now.slots - length args.now) None) }
{
    let mut slots = filled(alloc, args)?;
    for _slot in 0..q.slots.len().saturating_sub(args.len()) {
        slots.push(None)?;
    }
    Ok(slots)
}

fn started(alloc: Global, q: &ProcDecl, args: &[Value]) -> Result<Run, Memory>
    ensures { IfOk result (λ run. run ≡ record {
      at = 0;
      slots = map (λ v. Some v) args.now ++ replicate (length q.now.slots - length args.now) None;
      seen = [];
      tx = None;
      standing = stand.Running;
    }) }
{
    Ok(Run {
        at: 0,
        slots: first_slots(alloc, q, args)?,
        seen: List::new(alloc),
        tx: None,
        standing: Standing::Running,
    })
}

/// Adds an invocation.
pub fn invoke(
    s: &mut State,
    alloc: Global,
    p: &Program,
    proc: u32,
    args: &[Value],
) -> Result<Event, StepErr>
    requires fits { Fits p.now s.old }
    requires within { proc < length p.now.procs }
    ensures ok { IfOk result (λ told. Does p.now s.old (label.Invoke proc (map value_view args.now)) s.new told) }
    ensures err { IfErr result (λ why. Stops p.now s.old (label.Invoke proc (map value_view args.now)) s.new why) }
{
    if s.infos.count() >= MOST {
        return Err(StepErr::Limit(LimitName::Invocations));
    }
    if !all_ints_fit(args) {
        return Err(StepErr::Limit(LimitName::Integer));
    }
    let run = started(alloc, p.procs.get(proc as usize), args)?;
    let info = Info {
        proc,
        args: copy_values(alloc, args)?,
        outcome: Outcome::Unreturned,
    };
    s.begin_run(info, run)?;
    Ok(Event::Moved)
}

/// Opens a transaction of invocation i that sees these.
pub fn begin(
    s: &mut State,
    alloc: Global,
    p: &Program,
    i: u32,
    stamp: u64,
    sees: &[u32],
) -> Result<Event, StepErr>
    requires fits { Fits p.now s.old }
    requires within { i < length s.old.infos }
    requires ascending { IsStrictlyIncreasing sees.now }
    requires committed { All (λ tx. bit s.old.committed tx ≡ true) sees.now }
    ensures ok { IfOk result (λ told. Does p.now s.old (label.Begin i stamp sees.now) s.new told) }
    ensures err { IfErr result (λ why. Stops p.now s.old (label.Begin i stamp sees.now) s.new why) }
{
    if s.history.len() >= MOST {
        return Err(StepErr::Limit(LimitName::Calls));
    }
    let Some(at) = behind_begin(s, p, i) else {
        return Ok(Event::Moved);
    };
    let past = calls_read(alloc, &s.history, sees, None)?;
    let seen = copy_list(alloc, sees)?;
    let tx = s.owners.count();
    let marker = CallRec {
        op: 0,
        args: List::new(alloc),
        inv: i,
        tx,
        stamp,
        past,
    };
    s.open(i, marker)?;
    s.runs.see(i, seen, tx, at);
    Ok(Event::Moved)
}

/// Puts the new identifier into its slot.
pub fn make(s: &mut State, alloc: Global, p: &Program, i: u32, id: &Value) -> Result<Event, StepErr>
    requires fits { Fits p.now s.old }
    requires within { i < length s.old.infos }
    requires ints { ints_fit (value_view id.now) ≡ true }
    ensures ok { IfOk result (λ told. Does p.now s.old (label.New i (value_view id.now)) s.new told) }
    ensures err { IfErr result (λ why. Stops p.now s.old (label.New i (value_view id.now)) s.new why) }
{
    let Some((slot, at)) = behind_new(s, p, i) else {
        return Ok(Event::Moved);
    };
    let value = id.copy(alloc)?;
    s.generated.push(id.copy(alloc)?)?;
    s.runs.put(i, slot, value);
    s.runs.go_on(i, at);
    Ok(Event::Moved)
}

/// Commits the open transaction.
pub fn commit(s: &mut State, p: &Program, i: u32) -> Result<Event, StepErr>
    requires fits { Fits p.now s.old }
    requires within { i < length s.old.infos }
    ensures ok { IfOk result (λ told. Does p.now s.old (label.Commit i) s.new told) }
    ensures err { IfErr result (λ why. Stops p.now s.old (label.Commit i) s.new why) }
{
    let Some(at) = behind_end(s, p, i) else {
        return Ok(Event::Moved);
    };
    let Some(tx) = s.runs.get(i).tx else {
        return Ok(Event::Moved);
    };
    s.runs.close(i, tx, at)?;
    s.committed.set(tx, true);
    Ok(Event::Moved)
}

/// The invocation has failed.
pub fn fail(s: &mut State, i: u32) -> Event
    requires within { i < length s.old.runs }
    ensures { (p : Program) (run : Run) → Fits p s.old → At s.old.runs i run → is_running run.standing ≡ true
        → Does p s.old (label.Fail i) s.new result }
{
    s.runs.stand(i, Standing::Failed);
    Event::Moved
}
