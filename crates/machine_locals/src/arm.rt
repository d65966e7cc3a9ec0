// The arm of a `match`.
ghost use Rattle.std.specs.Prelude.{◌≡◌, ◌+◌, ◌<◌, true, length, option_map, IfOk, IfErr};
ghost use Rattle.rp_lang.specs.declared.stmt.StmtKind.TheViews.{out-StmtArm};
ghost use Rattle.rp_lang.specs.Views.{expr_view, stmt_arms_view};
ghost use Rattle.rp_value.specs.ValueView.{value_view, values_view};
ghost use Rattle.code_points.specs.Points.{arms_from, arms_size};
ghost use Rattle.event_machine.specs.Code as code;
ghost use Rattle.event_machine.specs.States as label;
ghost use Rattle.event_machine.specs.WellFormed.{At};
ghost use Rattle.machine_effects.specs.Steps.{Does, Stops};
ghost use Rattle.machine_locals.specs.Lefts.{HasArms, HasLeft, arm_in, built};
ghost use Rattle.machine_state.specs.declared.state.Run.{Run};
ghost use Rattle.machine_state.specs.Accessors.{is_running};
ghost use Rattle.machine_state.specs.Fits.{Fits};

use crate::slots::{fill, turned};
use machine_effects::StepErr;
use machine_next::next_is_within;
use machine_reads::value_at;
use machine_state::State;
use rp_lang::{Event, Expr, Program, StmtArm};
use rp_value::{List, Value};
use std::alloc::Global;

/// The constructor that the value is built with, and its fields.
#[tactic(auto, using(rp_value::proofs::ValueViews::value_views))]
fn taken(value: Value) -> Option<(u32, List<Value>)>
    ensures { option_map (λ found. (found.0, values_view found.1)) result ≡ built (value_view value) }
{
    match value {
        Value::Con { con, args } => Some((con, args)),
        Value::Int(_n) => None,
        Value::Str(_bytes) => None,
        Value::Atom { ty: _ty, num: _num } => None,
        Value::Call(_c) => None,
        Value::Inv(_i) => None,
    }
}

/// The slots and the first point of the constructor's arm, where the first point of the arms is this.
fn arm_of<'a>(
    s: &State,
    p: &Program,
    i: u32,
    arms: &'a [StmtArm],
    con: u32,
    first: u64,
) -> Option<(&'a [u32], u64)>
    requires fits { Fits p.now s.now }
    requires within { i < length s.now.infos }
    requires room { first + arms_size (stmt_arms_view arms.now) < 18446744073709551615 }
    requires told { HasArms s.now i (stmt_arms_view arms.now) first }
    ensures { option_map (λ found. (found.0.now, found.1)) result ≡ arm_in (stmt_arms_view arms.now) con first }
{
    let mut at = first;
    for arm in arms {
        if con == arm.con {
            return Some((arm.slots.as_slice(), at));
        }
        at += s.rest_at(p, i, at) + 1;
    }
    None
}

/// Goes into the arm of the constructor that the value is built with. The value's fields go into the arm's slots.
pub(crate) fn enter(
    s: &mut State,
    alloc: Global,
    p: &Program,
    i: u32,
    on: &Expr,
    arms: &[StmtArm],
    first: u64,
) -> Result<Event, StepErr>
    requires fits { Fits p.now s.old }
    requires within { i < length s.old.infos }
    requires running { (run : Run) → At s.old.runs i run → is_running run.standing ≡ true }
    requires room { first + arms_size (stmt_arms_view arms.now) < 18446744073709551615 }
    requires told { HasArms s.old i (stmt_arms_view arms.now) first }
    requires next { HasLeft p.now s.old i (λ left. code.Match (expr_view on.now) (arms_from left (stmt_arms_view arms.now) first)) }
    ensures ok { IfOk result (λ told. Does p.now s.old (label.Local i) s.new told) }
    ensures err { IfErr result (λ why. Stops p.now s.old (label.Local i) s.new why) }
{
    next_is_within(s, p, i);
    let value = value_at(s, alloc, p, i, on)?;
    let Some((con, args)) = taken(value) else {
        return Ok(Event::Moved);
    };
    let Some((slots, at)) = arm_of(&*s, p, i, arms, con, first) else {
        return Ok(Event::Moved);
    };
    let fields = turned(alloc, args)?;
    fill(&mut s.runs, i, slots, fields);
    s.runs.go_on(i, at);
    Ok(Event::Moved)
}
