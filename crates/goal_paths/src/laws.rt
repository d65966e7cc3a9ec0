// Laws of paths and of numbered goals, for all programs.
ghost use Rattle.std.specs.Prelude.{◌≡◌, ℕ, ◌+◌, ◌↔◌, IsTrue, List, [], ◌∷◌, length, filter, All};
ghost use Rattle.rp_lang.specs.Programs.{Inv, Prog};
ghost use Rattle.rp_lang.specs.WellFormed.{is_well_formed};
ghost use Rattle.event_machine.specs.Code.{Code};
ghost use Rattle.event_machine.specs.Runs.{IsSafe};
ghost use Rattle.event_machine.specs.WellFormed.{At};
ghost use Rattle.event_machine.specs.rows.Samples.{ten_ifs, eleven_ifs};
ghost use Rattle.one_invocation.specs.Trails.{Way};
ghost use Rattle.one_invocation.specs.Goals.{Goal, goals, goals_from, IsMet};
ghost use Rattle.goal_paths.specs.Paths.{paths, proc_paths};
ghost use Rattle.goal_paths.specs.Returns.{is_return};
ghost use Rattle.goal_paths.specs.means.Counts.{procs_goal_count};

/// Each path comes to one return: an invariant has as many goals of returns as there are paths.
pub fn paths_are_counted()
    ensures returns { (claim : Inv) (proc : ℕ) (path : List Way) (code : Code)
        → length (filter is_return (goals_from (claim ∷ []) proc path code)) ≡ paths code }
    ensures ten { proc_paths ten_ifs ≡ 1024 }
    ensures eleven { proc_paths eleven_ifs ≡ 1025 }
{}

/// The number of a program's goals is a sum over its procedures.
pub fn goals_are_counted()
    ensures { (p : Prog) → length (goals p) ≡ length p.invs + procs_goal_count (length p.invs) p.procs }
{}

/// All goals of a program are met exactly where the goal of each number is, and a well-formed program is safe then.
pub fn goals_by_number()
    ensures met { (p : Prog) → All (IsMet p) (goals p) ↔ ((n : ℕ) (goal : Goal) → At (goals p) n goal → IsMet p goal) }
    ensures safe { (p : Prog) → IsTrue (is_well_formed p)
        → ((n : ℕ) (goal : Goal) → At (goals p) n goal → IsMet p goal) → IsSafe p }
{}
