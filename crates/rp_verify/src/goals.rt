ghost use Rattle.std.specs.Prelude.{◌≡◌, ◌+◌, ◌++◌, ◌≤◌, ◌<◌, ◌^◌, [], length, IfErr, IfOk, OnOk};
ghost use Rattle.rp_lang.specs.FirstForm.{IsFirstForm};
ghost use Rattle.rp_lang.specs.ProgramView.{program_view};
ghost use Rattle.rp_lang.specs.Views.{proc_view};
ghost use Rattle.event_machine.specs.Goals.{goals, proc_goals};
ghost use Rattle.rp_verify.specs.means.Counted.{proc_assertions};
ghost use Rattle.rp_verify.specs.Verdicts.{IsPast, IsWithinLimits, Says, unproved, unproved_from};

use crate::counting::body_counts;
use crate::counts::{MOST_GOALS, MOST_PATHS};
use crate::rows::all_rows;
use crate::verdict::{GoalErr, Unproved, Verdict};
use crate::walk::Walk;
use rp_lang::{ProcDecl, Program};
use rp_value::{List, Memory};
use std::alloc::Global;

/// The number of the program's goals, where these and the paths of each procedure are few enough.
fn goals_within(program: &Program) -> Result<u32, GoalErr>
    ensures within { IfOk result (λ _. IsWithinLimits (program_view program.now)) }
    ensures counted { IfOk result (λ count. count ≡ length (goals (program_view program.now))) }
    ensures past { IfErr result (IsPast (program_view program.now)) }
{
    let procs = program.procs.as_slice();
    let mut goals = 0;
    for (i, proc) in procs.iter().enumerate() {
        let counts = body_counts(proc.body.as_slice());
        if counts.paths > MOST_PATHS {
            return Err(GoalErr::Paths { proc: i as u32 });
        }
        goals = (goals + counts.goals).min(MOST_GOALS + 1);
    }
    if goals > MOST_GOALS {
        return Err(GoalErr::Goals);
    }
    Ok(goals)
}

/// Adds the false goals of a procedure.
fn add_false_goals(
    walk: &mut Walk,
    alloc: Global,
    number: u32,
    proc: &ProcDecl,
) -> Result<(), Memory>
    requires at_start { walk.old.path ≡ [] }
    requires room { walk.old.next + proc_assertions (proc_view proc.now) < 2 ^ 32 }
    requires eight { length proc.now.params ≤ 8 }
    ensures { OnOk result (walk.new ≡ record walk.old {
      proc = number;
      next = walk.old.next + proc_assertions (proc_view proc.now);
      list = walk.old.list ++ unproved_from walk.old.next (proc_goals number (proc_view proc.now));
    }) }
{
    walk.proc = number;
    let rows = all_rows(alloc, proc.params.len())?;
    walk.follow_body(alloc, &proc.body, rows.as_slice())
}

/// The false goals of the program.
fn false_goals(alloc: Global, program: &Program) -> Result<List<Unproved>, Memory>
    requires first_form { IsFirstForm (program_view program.now) }
    requires few { length (goals (program_view program.now)) ≤ 2048 }
    ensures { IfOk result (λ list. list ≡ unproved (program_view program.now)) }
{
    let mut walk = Walk {
        proc: 0,
        path: List::new(alloc),
        next: 1,
        list: List::new(alloc),
    };
    let procs = program.procs.as_slice();
    for (i, proc) in procs.iter().enumerate() {
        add_false_goals(&mut walk, alloc, i as u32, proc)?;
    }
    Ok(walk.list)
}

/// Tries each goal of a program over truth values at all truth values of the parameters.
///
/// `Verified` comes only for a program that is safe in every run, and `Unproved` has exactly the goals that are false,
/// at least one. `Paths` names the first procedure with more than 1,024 paths; `Goals` says that no procedure has, and
/// that there are more than 2,048 goals.
pub fn verify(alloc: Global, program: &Program) -> Result<Verdict, GoalErr>
    requires first_form { IsFirstForm (program_view program.now) }
    ensures within { IfOk result (λ _. IsWithinLimits (program_view program.now)) }
    ensures says { IfOk result (Says (program_view program.now)) }
    ensures past { IfErr result (IsPast (program_view program.now)) }
{
    let goals = goals_within(program)?;
    let list = false_goals(alloc, program)?;
    if list.is_empty() {
        Ok(Verdict::Verified { goals })
    } else {
        Ok(Verdict::Unproved { goals, list })
    }
}
