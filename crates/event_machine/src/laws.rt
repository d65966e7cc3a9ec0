// Laws of runs and of goals, for all programs.
ghost use Rattle.std.specs.Prelude.{◌≡◌, ◌↔◌, ℕ, ◌+◌, ◌≤◌, Bool, List, All, Contains, IsTrue};
ghost use Rattle.rp_lang.specs.FirstForm.{IsFirstForm};
ghost use Rattle.rp_lang.specs.Programs.{Prog};
ghost use Rattle.event_machine.specs.Machine.{Label, What};
ghost use Rattle.event_machine.specs.Runs.{IsSafe, outcome, ViolatedAt};
ghost use Rattle.event_machine.specs.Tests.{is_false};
ghost use Rattle.event_machine.specs.Goals.{Goal, goals, Refutes, IsFalseGoal, refuting_labels};

/// A program is safe exactly where no list of labels, in no universe, ends in a violation.
pub fn safe_by_outcomes()
    ensures { (p : Prog) → IsSafe p ↔ ((universe : ℕ) (labels : List Label) (step : ℕ) (what : What) → 1 ≤ universe
        → ¬ (outcome p universe labels ≡ ViolatedAt step what)) }
{}

/// A program over truth values is safe exactly where none of its goals is false.
pub fn safe_by_goals()
    ensures { (p : Prog) → IsFirstForm p → IsSafe p ↔ All (λ goal. ¬ IsFalseGoal goal) (goals p) }
{}

/// Values that make a goal false violate an assertion on its path: after the label that invokes its procedure with
/// them and some Locals of that invocation, the last of which violates.
pub fn false_goals_violate()
    ensures { (p : Prog) (goal : Goal) (values : List Bool) (universe : ℕ)
        → IsFirstForm p → Contains (goals p) goal → Refutes values goal
        → (locals : ℕ) × (what : What) × (outcome p universe (refuting_labels goal values locals) ≡ ViolatedAt (locals + 1) what) }
{}

/// A goal is false exactly where the test of all values finds some.
pub fn false_by_trying()
    ensures { (goal : Goal) → IsTrue (is_false goal) ↔ IsFalseGoal goal }
{}
