// Laws of goals and of trails, for all programs.
ghost use Rattle.std.specs.Prelude.{◌≡◌, ℕ, ◌⊎◌, ◌||◌, ◌↔◌, IsTrue, List, [], length, All, Contains, Some};
ghost use Rattle.rp_value.specs.Values.{Val};
ghost use Rattle.rp_lang.specs.Programs.{Proc, Prog};
ghost use Rattle.rp_lang.specs.WellFormed.{is_well_formed};
ghost use Rattle.crdt_defs.specs.Calls.{Call};
ghost use Rattle.event_machine.specs.Code.{Code, proc_code};
ghost use Rattle.event_machine.specs.States.{Invocation, State, Label, Invoke};
ghost use Rattle.event_machine.specs.Machine.{own_calls, named, committed, step};
ghost use Rattle.event_machine.specs.Runs.{Leads, IsSafe};
ghost use Rattle.event_machine.specs.WellFormed.{At};
ghost use Rattle.event_machine.specs.Growth.{IsValid, Grows};
ghost use Rattle.event_machine.specs.LocalSafety.{IsRunning, StartsSafe};
ghost use Rattle.event_machine.specs.OldCalls.{old};
ghost use Rattle.one_invocation.specs.Trails.{Done, path_of};
ghost use Rattle.one_invocation.specs.Places.{Leaves};
ghost use Rattle.one_invocation.specs.CameAlong.{CameAlong, GoesOn};
ghost use Rattle.one_invocation.specs.Goals.{Goal, goals, IsMet};
ghost use Rattle.one_invocation.specs.GoalPlaces.{IsGoalOf};
ghost use Rattle.one_invocation.specs.Facts.{OthersSeen, AreMarks, AreOwn, ReadsAre, AreFirst};

/// A program whose goals are all met starts safe; one that is well-formed too is safe in every run.
pub fn goals_keep_safe()
    ensures starts { (p : Prog) → All (IsMet p) (goals p) → StartsSafe p }
    ensures safe { (p : Prog) → IsTrue (is_well_formed p) → All (IsMet p) (goals p) → IsSafe p }
{}

/// The list of goals has exactly those that the invariants and the places of the procedures have.
pub fn goals_of_places()
    ensures { (p : Prog) (goal : Goal) → Contains (goals p) goal ↔ IsGoalOf p goal }
{}

/// An accepted invocation starts with nothing done. Each further label of it that is accepted extends its trail along the
/// code of its procedure, or ends it.
pub fn trails_go_on()
    ensures starts { (p : Prog) (s : State) (proc : ℕ) (args : List Val) (new : State) → IsValid p s
        → Leads s (step p s (Invoke proc args)) new
        → (new ≡ s) ⊎ ((q : Proc) × At p.procs proc q × GoesOn p new (length s.invocations) q []) }
    ensures extends { (p : Prog) (s : State) (i : ℕ) (q : Proc) (inv : Invocation) (trail : List Done) (label : Label)
        (new : State) → IsValid p s → CameAlong p s i q inv trail → Leaves (proc_code q) (path_of trail) inv.left
        → named label ≡ Some i → Leads s (step p s label) new
        → GoesOn p new i q trail ⊎ ¬ IsRunning new i }
{}

/// Growth by others carries a trail on.
pub fn trails_grow()
    ensures { (p : Prog) (s new : State) (i : ℕ) (q : Proc) (inv : Invocation) (trail : List Done)
        → Grows p s new i → CameAlong p s i q inv trail → CameAlong p new i q inv trail }
{}

/// How the calls of an invocation that has come along a trail lie in the state.
pub fn trail_facts()
    ensures others { (p : Prog) (s : State) (i : ℕ) (q : Proc) (inv : Invocation) (trail : List Done)
        → CameAlong p s i q inv trail → OthersSeen s i trail }
    ensures marks { (p : Prog) (s : State) (i : ℕ) (q : Proc) (inv : Invocation) (trail : List Done)
        → IsValid p s → CameAlong p s i q inv trail → AreMarks s i trail }
    ensures calls { (p : Prog) (s : State) (i : ℕ) (q : Proc) (inv : Invocation) (trail : List Done)
        → IsValid p s → CameAlong p s i q inv trail → AreOwn s i trail }
    ensures places { (p : Prog) (s : State) (i : ℕ) (q : Proc) (inv : Invocation) (trail : List Done)
        → IsValid p s → CameAlong p s i q inv trail → AreFirst s trail }
    ensures reading { (calls : List Call) (trail : List Done) → ReadsAre calls trail }
    ensures commit { (p : Prog) (s : State) (i t : ℕ) (inv : Invocation) (next : Code) → IsValid p s
        → At s.invocations i inv → inv.tx ≡ Some t
        → (c : ℕ) → old (committed s i inv t next) c ≡ (old s c || own_calls s.calls (Some t) c) }
{}
