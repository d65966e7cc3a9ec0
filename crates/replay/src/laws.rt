// What holds of schedules that are read, and of limits. Each function is a law: its body is empty.
ghost use Rattle.std.specs.Prelude.{◌≡◌, ◌≤◌, ℕ, List, None};
ghost use Rattle.rp_lang.specs.Programs.{Prog};
ghost use Rattle.rp_lang.specs.declared.limit.LimitName.{LimitName as SpecLimit};
ghost use Rattle.rp_lang.specs.declared.program.Program.{Program};
ghost use Rattle.rp_lang.specs.ProgramView.{program_view};
ghost use Rattle.event_machine.specs.States.{State, Label};
ghost use Rattle.schedule_fmt.specs.Answers.{passed};
ghost use Rattle.schedule_fmt.specs.Schedules.{IsText};
ghost use Rattle.schedule_fmt.specs.Views.{schedule_view};
ghost use Rattle.schedule_fmt.specs.declared.schedule.Schedule.{Schedule};
ghost use Rattle.replay.specs.Outcomes.{AreSteps, IsCause};
ghost use Rattle.replay.specs.declared.replayed.ReplayErr.TheVariants as err;

/// A schedule of a text, within its limits, has a universe of 1 or more, and its steps are steps of the program.
pub fn read_schedules_fit()
    ensures some { (s : Schedule) → passed (schedule_view s) ≡ None → 1 ≤ s.universe }
    ensures steps { (p : Program) (s : Schedule) (bytes : List ℕ) → IsText (program_view p) (schedule_view s) bytes
        → AreSteps p s }
{}

/// Of labels one limit is the first that is met, and one of them meets it.
pub fn first_limits_are_one()
    ensures which { (p : Prog) (start : State) (labels : List Label) (a b : SpecLimit) (n m : ℕ)
        → IsCause p start labels (err.Limit a n) → IsCause p start labels (err.Limit b m) → a ≡ b }
    ensures step { (p : Prog) (start : State) (labels : List Label) (a b : SpecLimit) (n m : ℕ)
        → IsCause p start labels (err.Limit a n) → IsCause p start labels (err.Limit b m) → n ≡ m }
{}
