// What the goals of small programs are. The clauses compute, but for the last two laws.
ghost use Rattle.std.specs.Prelude.{◌≡◌, true, [], ◌∷◌, length, map, All, Some, slice_get};
ghost use Rattle.rp_lang.specs.Exprs.{Slot, Query};
ghost use Rattle.rp_lang.specs.Formulas.{Holds};
ghost use Rattle.rp_lang.specs.rows.Samples.{span, one, refs, removes_users, keeps_users};
ghost use Rattle.event_machine.specs.Runs.{IsSafe};
ghost use Rattle.event_machine.specs.LocalSafety.{StartsSafe};
ghost use Rattle.event_machine.specs.rows.Samples.{program, branches, never, ten_ifs};
ghost use Rattle.one_invocation.specs.Trails.{Operate, Take, Begin};
ghost use Rattle.one_invocation.specs.Goals.{ToCommit, goals, name_of, IsMet};
ghost use Rattle.one_invocation.specs.rows.Programs.{only_adds, claiming_pickers};
ghost use Rattle.one_invocation.specs.rows.Names.{asserted, names_of_removes_users, names_of_keeps_users, names_of_claiming_pickers};

/// The twelve goals of posts whose users may be removed. The sixth is about the commit of a post that found the user.
pub fn goals_of_removes_users()
    ensures count { length (goals removes_users) ≡ 12 }
    ensures names { map name_of (goals removes_users) ≡ names_of_removes_users }
    ensures sixth { slice_get (goals removes_users) 5
        ≡ Some (ToCommit 1 (Operate 3 (one (Slot 0)) ∷ Take (Holds (Query 0 (one (Slot 0)))) true ∷ Begin ∷ [])
        (span 226 277) 0 refs) }
{}

/// The eighteen goals where no user is removed.
pub fn goals_of_keeps_users()
    ensures count { length (goals keeps_users) ≡ 18 }
    ensures names { map name_of (goals keeps_users) ≡ names_of_keeps_users }
{}

/// Goals follow the text, depth first, first branch first. The program of nothing has none.
pub fn goals_on_paths()
    ensures empty { goals (program []) ≡ [] }
    ensures no_claim { goals (program (ten_ifs ∷ [])) ≡ [] }
    ensures choices { map name_of (goals (program (branches ∷ never ∷ [])))
        ≡ asserted 0 (1 ∷ []) (span 27 36) ∷ asserted 0 (1 ∷ []) (span 59 68)
        ∷ asserted 0 (2 ∷ []) (span 46 56) ∷ asserted 0 (2 ∷ []) (span 59 68) ∷ asserted 1 [] (span 82 95) ∷ [] }
    ensures arms { map name_of (goals claiming_pickers) ≡ names_of_claiming_pickers }
{}

/// The goals of a program that only adds are met, so it starts safe.
pub fn a_program_meets_its_goals()
    ensures met { All (IsMet only_adds) (goals only_adds) }
    ensures starts { StartsSafe only_adds }
    ensures safe { IsSafe only_adds }
{}

/// Where some run breaks an invariant, some goal isn't met.
pub fn an_unsafe_program_has_an_unmet_goal()
    ensures { ¬ All (IsMet removes_users) (goals removes_users) }
{}
