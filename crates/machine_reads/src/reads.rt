// What an invocation reads, and the values and truths that follow.
ghost use Rattle.std.specs.Prelude.{◌≡◌, ◌<◌, ◌≤◌, true, [], map, length, option_map, IfOk, IfErr};
ghost use Rattle.std.specs.List.{list_all};
ghost use Rattle.std.specs.List.Sorted.{IsStrictlyIncreasing};
ghost use Rattle.rp_value.specs.ValueView.{value_view, values_view};
ghost use Rattle.rp_lang.specs.ProgramView.{program_view};
ghost use Rattle.rp_lang.specs.Views.{expr_view, exprs_view, formula_view};
ghost use Rattle.crdt_defs.specs.Atoms.{ints_fit as fit};
ghost use Rattle.crdt_defs.specs.Calls.{calls_view};
ghost use Rattle.crdt_defs.specs.Truths as spec;
ghost use Rattle.crdt_truth.specs.Breadths as broad;
ghost use Rattle.crdt_truth.specs.Readings.{reading_view, seen_in};
ghost use Rattle.crdt_truth.specs.Within.{ExWithin, ExsWithin, FoWithin};
ghost use Rattle.event_machine.specs.States.{Invocation};
ghost use Rattle.event_machine.specs.Machine.{proc_reading};
ghost use Rattle.event_machine.specs.WellFormed.{At};
ghost use Rattle.machine_state.specs.declared.state.Run.{Run};
ghost use Rattle.machine_state.specs.Fits.{Fits, IsKept};
ghost use Rattle.machine_reads.specs.Reads.{IsRead, Viewed, read_at, TooGreat, TooBroad};

use crdt_lib::ListView;
use crdt_truth::{Binders, Reading, breadth, truth, value, values};
use machine_effects::StepErr;
use machine_state::State;
use machine_tests::{calls_read, ints_fit};
use rp_lang::{Expr, Formula, LimitName, Program};
use rp_value::{List, Memory, Value};
use std::alloc::Global;

/// The greatest breadth of a step's formulas.
const WIDEST: u64 = 50_000_000;

/// What the invocation reads of the store: its own slots are read besides.
pub fn calls_of(s: &State, alloc: Global, i: u32) -> Result<List<u32>, Memory>
    requires kept { IsKept s.now }
    requires within { i < length s.now.runs }
    ensures calls { IfOk result (λ calls. IsRead s.now i calls) }
    ensures ascending { IfOk result (λ calls. IsStrictlyIncreasing calls) }
{
    let run = s.runs.get(i);
    calls_read(alloc, &s.history, run.seen.as_slice(), run.tx)
}

/// What the invocation reads, where these are the calls that it sees.
fn reading<'a>(s: &'a State, p: &'a Program, i: u32, view: &'a ListView) -> Reading<'a>
    requires within { i < length s.now.runs }
    ensures none { result.infos.now ≡ [] }
    ensures is { (run : Run) → At s.now.runs i run → reading_view result
        ≡ proc_reading (program_view p.now) s.now.universe (calls_view s.now.history) (map (option_map value_view) run.slots) (seen_in view.now) }
{
    Reading {
        program: p,
        universe: s.universe,
        history: s.history.history(),
        committed: &[],
        infos: &[],
        view,
        slots: s.runs.get(i).slots.as_slice(),
    }
}

/// The value of an expression of the invocation.
pub fn value_at(s: &State, alloc: Global, p: &Program, i: u32, e: &Expr) -> Result<Value, StepErr>
    requires fits { Fits p.now s.now }
    requires within { i < length s.now.infos }
    requires bounded { (inv : Invocation) → Viewed p.now s.now i inv → ExWithin (read_at p.now s.now inv) [] (expr_view e.now) }
    ensures value { IfOk result (λ v. (inv : Invocation) → Viewed p.now s.now i inv
        → value_view v ≡ spec.value (read_at p.now s.now inv) [] (expr_view e.now)) }
    ensures ints { IfOk result (λ v. fit (value_view v) ≡ true) }
    ensures err { IfErr result (λ why. TooGreat p.now s.now i (expr_view e.now) why) }
{
    let view = ListView::new(calls_of(s, alloc, i)?);
    let r = reading(s, p, i, &view);
    let value = value(alloc, &r, &Binders::Closed, e)?;
    if ints_fit(&value) {
        Ok(value)
    } else {
        Err(StepErr::Limit(LimitName::Integer))
    }
}

/// The values of expressions of the invocation.
pub fn values_at(
    s: &State,
    alloc: Global,
    p: &Program,
    i: u32,
    exprs: &[Expr],
) -> Result<List<Value>, Memory>
    requires fits { Fits p.now s.now }
    requires within { i < length s.now.infos }
    requires bounded { (inv : Invocation) → Viewed p.now s.now i inv → ExsWithin (read_at p.now s.now inv) [] (exprs_view exprs.now) }
    ensures values { IfOk result (λ vs. (inv : Invocation) → Viewed p.now s.now i inv
        → values_view vs ≡ spec.values (read_at p.now s.now inv) [] (exprs_view exprs.now)) }
{
    let view = ListView::new(calls_of(s, alloc, i)?);
    let r = reading(s, p, i, &view);
    values(alloc, &r, &Binders::Closed, exprs)
}

/// The truth of a formula of the invocation.
pub fn truth_at(s: &State, alloc: Global, p: &Program, i: u32, f: &Formula) -> Result<bool, StepErr>
    requires fits { Fits p.now s.now }
    requires within { i < length s.now.infos }
    requires bounded { (inv : Invocation) → Viewed p.now s.now i inv → FoWithin (read_at p.now s.now inv) [] (formula_view f.now) }
    ensures truth { IfOk result (λ t. (inv : Invocation) → Viewed p.now s.now i inv
        → t ≡ spec.truth (read_at p.now s.now inv) [] (formula_view f.now)) }
    ensures narrow { IfOk result (λ t. (inv : Invocation) → Viewed p.now s.now i inv
        → broad.breadth (read_at p.now s.now inv).parts (formula_view f.now) ≤ 50000000) }
    ensures err { IfErr result (λ why. TooBroad p.now s.now i (formula_view f.now) why) }
{
    let view = ListView::new(calls_of(s, alloc, i)?);
    let r = reading(s, p, i, &view);
    if breadth(f, &r) > WIDEST {
        return Err(StepErr::Limit(LimitName::Breadth));
    }
    Ok(truth(alloc, &r, &Binders::Closed, f)?)
}
