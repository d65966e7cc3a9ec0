// Steps of an invocation by itself: one function for each kind of statement.
ghost use Rattle.std.specs.Prelude.{◌≡◌, ◌+◌, ◌<◌, ◌≤◌, ℕ, Some, true, false, length, IfOk, IfErr};
ghost use Rattle.rp_lang.specs.Views.{expr_view, formula_view, stmt_view};
ghost use Rattle.code_points.specs.Points.{Before, does_at, inner};
ghost use Rattle.event_machine.specs.Code as code;
ghost use Rattle.event_machine.specs.States as label;
ghost use Rattle.event_machine.specs.WellFormed.{At};
ghost use Rattle.machine_effects.specs.Steps.{Does, Stops};
ghost use Rattle.machine_locals.specs.Lefts.{HasLeft};
ghost use Rattle.machine_state.specs.declared.state.Run.{Run};
ghost use Rattle.machine_state.specs.Accessors.{is_running};
ghost use Rattle.machine_state.specs.Fits.{Fits};
ghost use Rattle.machine_state.specs.Spots.{IsTold};

use crate::arm::enter;
use crate::slots::{assign, truth_value, way};
use code_points::Spot;
use machine_effects::StepErr;
use machine_next::next_is_within;
use machine_reads::{truth_at, value_at};
use machine_state::State;
use rp_lang::{Event, Expr, Formula, Program, Stmt, StmtKind, What};
use rp_span::Span;
use std::alloc::Global;

/// The assignment is done, the branch or the arm is chosen, or the assertion is evaluated.
pub fn local(s: &mut State, alloc: Global, p: &Program, i: u32) -> Result<Event, StepErr>
    requires fits { Fits p.now s.old }
    requires within { i < length s.old.infos }
    requires running { (run : Run) → At s.old.runs i run → is_running run.standing ≡ true }
    ensures ok { IfOk result (λ told. Does p.now s.old (label.Local i) s.new told) }
    ensures err { IfErr result (λ why. Stops p.now s.old (label.Local i) s.new why) }
{
    match s.spot(p, i) {
        Some(Spot::Before(at, stmt)) => run_stmt(s, alloc, p, i, at, stmt),
        Some(Spot::Closing(_, _)) => Ok(Event::Moved),
        None => Ok(Event::Moved),
    }
}

/// Runs the statement that stands next, at this point.
fn run_stmt(
    s: &mut State,
    alloc: Global,
    p: &Program,
    i: u32,
    at: u64,
    stmt: &Stmt,
) -> Result<Event, StepErr>
    requires fits { Fits p.now s.old }
    requires within { i < length s.old.infos }
    requires running { (run : Run) → At s.old.runs i run → is_running run.standing ≡ true }
    requires room { at + inner (stmt_view stmt.now) + 1 ≤ 18446744073709551614 }
    requires told { IsTold s.old i (Some (Before at (stmt_view stmt.now))) }
    requires next { HasLeft p.now s.old i (λ left. does_at left at (stmt_view stmt.now)) }
    ensures ok { IfOk result (λ told. Does p.now s.old (label.Local i) s.new told) }
    ensures err { IfErr result (λ why. Stops p.now s.old (label.Local i) s.new why) }
{
    match &stmt.what {
        StmtKind::Put(slot, e) => put(s, alloc, p, i, *slot, e, at + 1),
        StmtKind::Decide(slot, f) => decide(s, alloc, p, i, *slot, f, at + 1),
        StmtKind::If(f, _then, _else) => {
            let other = at + 1 + (s.rest_at(p, i, at + 1) + 1);
            choose(s, alloc, p, i, f, at + 1, other)
        }
        StmtKind::Match(on, arms) => enter(s, alloc, p, i, on, arms.as_slice(), at + 1),
        StmtKind::Assert(f) => test(s, alloc, p, i, stmt.at, f, at + 1),
        StmtKind::New(_slot, _ty) => Ok(Event::Moved),
        StmtKind::Operate(_op, _args) => Ok(Event::Moved),
        StmtKind::Atomic(_body) => Ok(Event::Moved),
        StmtKind::Return(_e) => Ok(Event::Moved),
    }
}

/// Puts the value of the expression into the slot.
fn put(
    s: &mut State,
    alloc: Global,
    p: &Program,
    i: u32,
    slot: u32,
    e: &Expr,
    behind: u64,
) -> Result<Event, StepErr>
    requires fits { Fits p.now s.old }
    requires within { i < length s.old.infos }
    requires running { (run : Run) → At s.old.runs i run → is_running run.standing ≡ true }
    requires next { HasLeft p.now s.old i (λ left. code.Put slot (expr_view e.now) (left behind)) }
    ensures ok { IfOk result (λ told. Does p.now s.old (label.Local i) s.new told) }
    ensures err { IfErr result (λ why. Stops p.now s.old (label.Local i) s.new why) }
{
    next_is_within(s, p, i);
    let value = value_at(s, alloc, p, i, e)?;
    assign(&mut s.runs, i, slot, value, behind);
    Ok(Event::Moved)
}

/// Puts the truth of the formula into the slot.
fn decide(
    s: &mut State,
    alloc: Global,
    p: &Program,
    i: u32,
    slot: u32,
    f: &Formula,
    behind: u64,
) -> Result<Event, StepErr>
    requires fits { Fits p.now s.old }
    requires within { i < length s.old.infos }
    requires running { (run : Run) → At s.old.runs i run → is_running run.standing ≡ true }
    requires next { HasLeft p.now s.old i (λ left. code.Decide slot (formula_view f.now) (left behind)) }
    ensures ok { IfOk result (λ told. Does p.now s.old (label.Local i) s.new told) }
    ensures err { IfErr result (λ why. Stops p.now s.old (label.Local i) s.new why) }
{
    next_is_within(s, p, i);
    let holds = truth_at(s, alloc, p, i, f)?;
    assign(&mut s.runs, i, slot, truth_value(alloc, holds), behind);
    Ok(Event::Moved)
}

/// Goes on from the first point where the formula is true, else from the other.
fn choose(
    s: &mut State,
    alloc: Global,
    p: &Program,
    i: u32,
    f: &Formula,
    first: u64,
    other: u64,
) -> Result<Event, StepErr>
    requires fits { Fits p.now s.old }
    requires within { i < length s.old.infos }
    requires running { (run : Run) → At s.old.runs i run → is_running run.standing ≡ true }
    requires next { HasLeft p.now s.old i (λ left. code.Choose (formula_view f.now) (left first) (left other)) }
    ensures ok { IfOk result (λ told. Does p.now s.old (label.Local i) s.new told) }
    ensures err { IfErr result (λ why. Stops p.now s.old (label.Local i) s.new why) }
{
    next_is_within(s, p, i);
    let holds = truth_at(s, alloc, p, i, f)?;
    s.runs.go_on(i, way(holds, first, other));
    Ok(Event::Moved)
}

/// Goes on where the formula is true. Else the assertion at the place is violated.
fn test(
    s: &mut State,
    alloc: Global,
    p: &Program,
    i: u32,
    place: Span,
    f: &Formula,
    behind: u64,
) -> Result<Event, StepErr>
    requires fits { Fits p.now s.old }
    requires within { i < length s.old.infos }
    requires running { (run : Run) → At s.old.runs i run → is_running run.standing ≡ true }
    requires next { HasLeft p.now s.old i (λ left. code.Assert place (formula_view f.now) (left behind)) }
    ensures ok { IfOk result (λ told. Does p.now s.old (label.Local i) s.new told) }
    ensures err { IfErr result (λ why. Stops p.now s.old (label.Local i) s.new why) }
{
    next_is_within(s, p, i);
    let holds = truth_at(s, alloc, p, i, f)?;
    if !holds {
        return Ok(Event::Violated(What::Assertion(place)));
    }
    s.runs.go_on(i, behind);
    Ok(Event::Moved)
}
