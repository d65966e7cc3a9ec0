// The end of an invocation.
ghost use Rattle.std.specs.Prelude.{◌≡◌, ◌<◌, true, Some, length, slice_set, IfOk, IfErr};
ghost use Rattle.rp_lang.specs.Views.{expr_view};
ghost use Rattle.crdt_truth.specs.declared.reading.Info.{Info};
ghost use Rattle.event_machine.specs.Machine.{next_action};
ghost use Rattle.event_machine.specs.States as label;
ghost use Rattle.event_machine.specs.WellFormed.{At};
ghost use Rattle.machine_effects.specs.Steps.{Does, Stops};
ghost use Rattle.machine_effects.specs.means.Lefts as lefts;
ghost use Rattle.machine_reads.specs.Reads.{Viewed};
ghost use Rattle.machine_state.specs.declared.state.Run.{Run};
ghost use Rattle.machine_state.specs.declared.state.Standing.TheVariants as stand;
ghost use Rattle.machine_state.specs.Accessors.{is_running};
ghost use Rattle.machine_state.specs.Fits.{Fits};

use crate::known::learn;
use crdt_truth::Outcome;
use machine_effects::{StepErr, returned};
use machine_next::next_is_within;
use machine_reads::value_at;
use machine_state::{Standing, State};
use rp_lang::{Event, Expr, Program};
use std::alloc::Global;

/// The invocation returns.
pub fn give_back(s: &mut State, alloc: Global, p: &Program, i: u32) -> Result<Event, StepErr>
    requires fits { Fits p.now s.old }
    requires within { i < length s.old.infos }
    requires running { (run : Run) → At s.old.runs i run → is_running run.standing ≡ true }
    requires point { (inv : label.Invocation) → Viewed p.now s.old i inv → next_action inv.left ≡ label.ToReturn }
    ensures ok { IfOk result (λ told. Does p.now s.old (label.Return i) s.new told) }
    ensures err { IfErr result (λ why. Stops p.now s.old (label.Return i) s.new why) }
{
    match returned(s, p, i) {
        Some(e) => give_value(s, alloc, p, i, e),
        None => {
            give(s, i, Outcome::Returned);
            Ok(Event::Moved)
        }
    }
}

/// The invocation returns the value of the expression.
fn give_value(s: &mut State, alloc: Global, p: &Program, i: u32, e: &Expr) -> Result<Event, StepErr>
    requires fits { Fits p.now s.old }
    requires within { i < length s.old.infos }
    requires running { (run : Run) → At s.old.runs i run → is_running run.standing ≡ true }
    requires gives { (inv : label.Invocation) → Viewed p.now s.old i inv → lefts.result inv.left ≡ Some (expr_view e.now) }
    ensures ok { IfOk result (λ told. Does p.now s.old (label.Return i) s.new told) }
    ensures err { IfErr result (λ why. Stops p.now s.old (label.Return i) s.new why) }
{
    next_is_within(s, p, i);
    let value = value_at(s, alloc, p, i, e)?;
    learn(&mut s.known, &value)?;
    give(s, i, Outcome::ReturnedWith(value));
    Ok(Event::Moved)
}

/// The invocation has returned, with this outcome.
fn give(s: &mut State, i: u32, outcome: Outcome)
    requires infos { i < length s.old.infos }
    requires runs { i < length s.old.runs }
    ensures { (info : Info) (run : Run) → At s.old.infos i info → At s.old.runs i run → s.new ≡ record s.old {
      infos = slice_set s.old.infos i (record info { outcome = outcome });
      runs = slice_set s.old.runs i (record run { standing = stand.Returned });
    } }
{
    s.infos.end(i, outcome);
    s.runs.stand(i, Standing::Returned);
}
