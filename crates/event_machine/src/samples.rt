// What the machine and the goals are on small programs. Each function is a law: its clauses compute.
ghost use Rattle.std.specs.Prelude.{◌≡◌, ℕ, [], ◌∷◌, ◌++◌, map, length, true, false};
ghost use Rattle.rp_value.specs.Values.{Atom, Con, no_val, also_val, true_val, false_val};
ghost use Rattle.event_machine.specs.Machine.{Invoke, Local, Return, Fail, Check, ToLocal, ToReturn};
ghost use Rattle.event_machine.specs.Machine.{Assertion, NoInvocation, NotRunning, WrongPoint, BadArgs, NotCommitted};
ghost use Rattle.event_machine.specs.Runs.{outcome, Clean, ViolatedAt, RefusedAt};
ghost use Rattle.event_machine.specs.Checks.{Done, stmts_checks, paths};
ghost use Rattle.event_machine.specs.Goals.{goals, path};
ghost use Rattle.event_machine.specs.Tests.{is_false};
ghost use Rattle.event_machine.specs.rows.Samples.{span, program, b, claims_b, tautology, ten_ifs, eleven_ifs, branches, never};

/// `assert b` violates at the Local behind the one label that invokes it with `false`.
pub fn asserted_parameter()
    ensures violated { (u : ℕ) → outcome claims_b u (Invoke 0 (false_val ∷ []) ∷ Local 0 ∷ [])
        ≡ ViolatedAt 2 (Assertion (span 18 27)) }
    ensures clean { (u : ℕ) → outcome claims_b u (Invoke 0 (true_val ∷ []) ∷ Local 0 ∷ Return 0 ∷ []) ≡ Clean 3 }
{}

/// Each refusal, with what it keeps.
pub fn refusals()
    ensures no_invocation { (u : ℕ) → outcome claims_b u (Local 0 ∷ []) ≡ RefusedAt 1 (NoInvocation 0) }
    ensures returned { (u : ℕ) → outcome claims_b u (Invoke 0 (true_val ∷ []) ∷ Local 0 ∷ Return 0 ∷ Return 0 ∷ [])
        ≡ RefusedAt 4 (NotRunning 0) }
    ensures failed { (u : ℕ) → outcome claims_b u (Invoke 0 (true_val ∷ []) ∷ Fail 0 ∷ Check [] ∷ Local 0 ∷ [])
        ≡ RefusedAt 4 (NotRunning 0) }
    ensures too_early { (u : ℕ) → outcome claims_b u (Invoke 0 (true_val ∷ []) ∷ Return 0 ∷ [])
        ≡ RefusedAt 2 (WrongPoint ToLocal) }
    ensures too_late { (u : ℕ) → outcome claims_b u (Invoke 0 (true_val ∷ []) ∷ Local 0 ∷ Local 0 ∷ [])
        ≡ RefusedAt 3 (WrongPoint ToReturn) }
    ensures no_procedure { (u : ℕ) → outcome claims_b u (Invoke 1 (true_val ∷ []) ∷ []) ≡ RefusedAt 1 BadArgs }
    ensures too_few { (u : ℕ) → outcome claims_b u (Invoke 0 [] ∷ []) ≡ RefusedAt 1 BadArgs }
    ensures too_many { (u : ℕ) → outcome claims_b u (Invoke 0 (true_val ∷ true_val ∷ []) ∷ []) ≡ RefusedAt 1 BadArgs }
    ensures other_type { (u : ℕ) → outcome claims_b u (Invoke 0 (Atom 0 0 ∷ []) ∷ []) ≡ RefusedAt 1 BadArgs }
    ensures other_constructor { (u : ℕ) → outcome claims_b u (Invoke 0 (Con 2 no_val ∷ []) ∷ []) ≡ RefusedAt 1 BadArgs }
    ensures not_committed { (u : ℕ) → outcome claims_b u (Check (3 ∷ 2 ∷ []) ∷ []) ≡ RefusedAt 1 (NotCommitted 2) }
{}

/// Invocations run side by side, in any order.
pub fn two_invocations()
    ensures { (u : ℕ) → outcome claims_b u
        (Invoke 0 (true_val ∷ []) ∷ Invoke 0 (false_val ∷ []) ∷ Local 0 ∷ Local 1 ∷ [])
        ≡ ViolatedAt 4 (Assertion (span 18 27)) }
{}

/// Ten choices in a row have 1,024 paths, and one around them has one more. Without an assertion there is no goal.
pub fn rows_of_choices()
    ensures ten { paths (stmts_checks ten_ifs.body Done) ≡ 1024 }
    ensures around { paths (stmts_checks eleven_ifs.body Done) ≡ 1025 }
    ensures none { goals (program (ten_ifs ∷ [])) ≡ [] }
{}

/// A statement behind a choice gives a goal on each path, and the first branch with all that follows comes first.
pub fn order_of_goals()
    ensures one { map (λ goal. goal.at) (goals tautology) ≡ span 18 33 ∷ [] }
    ensures places { map (λ goal. goal.at) (goals (program (branches ∷ never ∷ [])))
        ≡ span 27 36 ∷ span 59 68 ∷ span 46 56 ∷ span 59 68 ∷ span 82 95 ∷ [] }
    ensures paths { map path (goals (program (branches ∷ never ∷ []))) ≡ (1 ∷ []) ∷ (1 ∷ []) ∷ (2 ∷ []) ∷ (2 ∷ []) ∷ [] ∷ [] }
    ensures procedures { map (λ goal. goal.proc) (goals (program (branches ∷ never ∷ []))) ≡ 0 ∷ 0 ∷ 0 ∷ 0 ∷ 1 ∷ [] }
    ensures params { map (λ goal. goal.params) (goals (program (branches ∷ never ∷ []))) ≡ 1 ∷ 1 ∷ 1 ∷ 1 ∷ 0 ∷ [] }
{}

/// `b || !b` is one goal, which isn't false. Behind a choice, `b` is false where the choice took the other branch.
pub fn false_goals()
    ensures tautology { map is_false (goals tautology) ≡ false ∷ [] }
    ensures asserted_parameter { map is_false (goals claims_b) ≡ true ∷ [] }
    ensures choices { map is_false (goals (program (branches ∷ never ∷ []))) ≡ false ∷ false ∷ false ∷ true ∷ true ∷ [] }
{}
