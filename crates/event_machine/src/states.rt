// Laws of states: what stays true of them, and what others may do between two actions of one invocation.
ghost use Rattle.std.specs.Prelude.{◌≡◌, ◌≢◌, ◌≤◌, ℕ, IsTrue, Some, false, length, nat_lt};
ghost use Rattle.rp_lang.specs.Programs.{Proc, Prog};
ghost use Rattle.rp_lang.specs.WellFormed.{is_well_formed};
ghost use Rattle.event_machine.specs.Code.{proc_code};
ghost use Rattle.event_machine.specs.States.{Invocation, State, Label, empty};
ghost use Rattle.event_machine.specs.Machine.{named, step};
ghost use Rattle.event_machine.specs.Runs.{Leads, IsSafe};
ghost use Rattle.event_machine.specs.WellFormed.{At, IsWellFormed, ProcsFit};
ghost use Rattle.event_machine.specs.TypedStates.{CodeTyped, IsTyped};
ghost use Rattle.event_machine.specs.Growth.{IsValid, Grows};
ghost use Rattle.event_machine.specs.LocalSafety.{SafeFor, StartsSafe};

/// The empty state is well-formed, and every accepted label keeps that.
pub fn well_formed_states()
    ensures begins { (p : Prog) (universe : ℕ) → 1 ≤ universe → IsWellFormed p (empty universe) }
    ensures kept { (p : Prog) → ProcsFit p → (s : State) (label : Label) (new : State) → IsWellFormed p s
        → Leads s (step p s label) new → IsWellFormed p new }
{}

/// A label of another invocation, or of none, is a growth. Growth is reflexive and transitive.
pub fn growth()
    ensures others { (p : Prog) → IsTrue (is_well_formed p) → (s : State) (label : Label) (new : State) (i : ℕ) → IsValid p s
        → Leads s (step p s label) new → named label ≢ Some i → Grows p s new i }
    ensures reflexive { (p : Prog) (s : State) (i : ℕ) → IsValid p s → Grows p s s i }
    ensures transitive { (p : Prog) (a b c : State) (i : ℕ) → Grows p a b i → Grows p b c i → Grows p a c i }
{}

/// The code of a well-formed program's procedures fits a place outside of atomic blocks.
pub fn programs_fit()
    ensures { (p : Prog) → IsTrue (is_well_formed p) → ProcsFit p }
{}

/// Growth by others carries the local safety of an invocation on.
pub fn local_safety()
    ensures { (p : Prog) (n : ℕ) (s new : State) (i : ℕ) (inv : Invocation) → At s.invocations i inv
        → Grows p s new i → SafeFor p n s i → SafeFor p n new i }
{}

/// A program whose invocations each start locally safe is safe in every run.
pub fn safe_by_invocations()
    ensures { (p : Prog) → IsTrue (is_well_formed p) → StartsSafe p → IsSafe p }
{}

/// The code of a well-formed program's procedures is typed where the parameters are set.
pub fn typed_code()
    ensures { (p : Prog) → IsTrue (is_well_formed p) → (n : ℕ) (q : Proc) → At p.procs n q
        → CodeTyped p q false (λ s. nat_lt s (length q.params)) (proc_code q) }
{}

/// States of a well-formed program are typed: the arguments of calls fit their operations, set slots and results fit
/// their types, and what an invocation has left reads slots that are set. Every accepted label keeps that.
pub fn typed_states()
    ensures begins { (p : Prog) (universe : ℕ) → IsTyped p (empty universe) }
    ensures kept { (p : Prog) → IsTrue (is_well_formed p) → (s : State) (label : Label) (new : State) → IsTyped p s
        → Leads s (step p s label) new → IsTyped p new }
{}
