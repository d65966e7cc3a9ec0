// Truth of a formula, with the calls of each invocation at hand where it compares invocations.
ghost use Rattle.std.specs.Prelude.{◌≡◌, ◌<◌, IfOk, length};
ghost use Rattle.rp_lang.specs.Views.{formula_view};
ghost use Rattle.crdt_defs.specs.Calls.{calls_view};
ghost use Rattle.crdt_defs.specs.Truths as spec;
ghost use Rattle.crdt_truth.specs.Open.{binders_view};
ghost use Rattle.crdt_truth.specs.Readings.{parts_view, reading_view};
ghost use Rattle.crdt_truth.specs.Within.{FoWithin};
ghost use Rattle.crdt_truth.specs.means.Done.{AreDone};

use crate::binders::Binders;
use crate::done::done_by_each;
use crate::formulas::truth as truth_of;
use crate::reading::Reading;
use rp_lang::{Arm, Formula};
use rp_value::{List, Memory};
use std::alloc::Global;

/// Whether a `before` stands in the formula. No answer hangs on it, only how soon one is found.
#[cycle(asks)]
fn asks_before(f: &Formula) -> bool {
    match f {
        Formula::And(parts) => one_asks(parts.as_slice()),
        Formula::Or(parts) => one_asks(parts.as_slice()),
        Formula::Not(part) => asks_before(part.get()),
        Formula::Implies(a, b) => asks_before(a.get()) || asks_before(b.get()),
        Formula::All(_, body) => asks_before(body.get()),
        Formula::Any(_, body) => asks_before(body.get()),
        Formula::Match(_, arms) => one_arm_asks(arms.as_slice()),
        Formula::Before(_, _) => true,
        Formula::Holds(_)
        | Formula::Equal(_, _)
        | Formula::Less(_, _)
        | Formula::AtMost(_, _)
        | Formula::Visible(_)
        | Formula::Same(_, _) => false,
    }
}

#[cycle(asks)]
fn one_asks(parts: &[Formula]) -> bool {
    for part in parts {
        if asks_before(part) {
            return true;
        }
    }
    false
}

#[cycle(asks)]
fn one_arm_asks(arms: &[Arm]) -> bool {
    for arm in arms {
        if asks_before(&arm.body) {
            return true;
        }
    }
    false
}

/// Of each invocation its committed calls, where the formula may ask which invocation is before which; else nothing.
fn done_for(alloc: Global, r: &Reading, f: &Formula) -> Result<Vec<List<u32>>, Memory>
    ensures { IfOk result (λ lists. AreDone (parts_view r.now) (length (calls_view r.now.history.now)) lists.items) }
{
    if asks_before(f) {
        done_by_each(alloc, r)
    } else {
        Ok(Vec::new(alloc))
    }
}

/// Whether the formula is true at these open variables, where each sum and difference that it may come to has 128 bits.
pub fn truth(alloc: Global, r: &Reading, binders: &Binders, f: &Formula) -> Result<bool, Memory>
    requires few { length r.now.infos.now < 4294967296 }
    requires within { FoWithin (reading_view r.now) (binders_view binders.now) (formula_view f.now) }
    ensures { IfOk result (λ t. t ≡ spec.truth (reading_view r.now) (binders_view binders.now) (formula_view f.now)) }
{
    let done = done_for(alloc, r, f)?;
    truth_of(alloc, r, done.as_slice(), binders, f)
}
