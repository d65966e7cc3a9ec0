// Laws of valid states: how calls lie in them, which sets are consistent snapshots, and what invariants read.
ghost use Rattle.std.specs.Prelude.{◌≡◌, ◌≢◌, ℕ, ◌⊎◌, Bool, false, IsTrue, List, [], Some};
ghost use Rattle.rp_value.specs.Values.{Val};
ghost use Rattle.rp_lang.specs.Formulas.{Fo};
ghost use Rattle.rp_lang.specs.Programs.{Prog};
ghost use Rattle.crdt_defs.specs.Calls.{Call};
ghost use Rattle.crdt_defs.specs.Histories.{call_is, before};
ghost use Rattle.crdt_defs.specs.Longer.{IsLonger, Bounded};
ghost use Rattle.crdt_defs.specs.Queries.{answer_in};
ghost use Rattle.crdt_defs.specs.Snapshots.{bit, IsSnapshot};
ghost use Rattle.crdt_defs.specs.Truths.{truth};
ghost use Rattle.event_machine.specs.States.{State, Label, New, Commit};
ghost use Rattle.event_machine.specs.Machine.{at_snapshot, named, step};
ghost use Rattle.event_machine.specs.Runs.{Leads};
ghost use Rattle.event_machine.specs.WellFormed.{At, Inside, IsMarker, commits_of};
ghost use Rattle.event_machine.specs.Growth.{IsPrivate, IsValid};
ghost use Rattle.event_machine.specs.LocalSafety.{HoldsAll};
ghost use Rattle.event_machine.specs.OldCalls.{old, old_part, is_quiet};
ghost use Rattle.event_machine.specs.Beside.{beside};
ghost use Rattle.event_machine.specs.OwnCalls.{HasOneMarker, PastsGrow, PastsAreOwn, OwnAreSeen, MarkersAreSeen, ViewsAreMarked};

/// What is read at a set of calls stays the same where calls are added to the history: answers of queries, and truth of
/// what an invariant says, as long as the same calls are committed.
pub fn longer_histories()
    ensures answers { (p : Prog) (query : ℕ) (h longer_h : List Call) (visible : ℕ → Bool) (args : List Val)
        → IsLonger h longer_h → Bounded h visible → answer_in p query longer_h visible args ≡ answer_in p query h visible args }
    ensures truths { (p : Prog) (s : State) (visible : ℕ → Bool) (calls : List Call) (committed : List Bool) (f : Fo)
        → IsValid p s → Bounded s.calls visible → IsLonger s.calls calls
        → ((c : ℕ) → call_is calls (λ call. bit committed call.tx) c ≡ old s c)
        → truth (beside p s visible calls committed) [] f ≡ truth (at_snapshot p s visible) [] f }
{}

/// Consistent snapshots of a valid state: nothing, all that is committed, what a marker has before it, and the committed
/// part of a snapshot after any label. A snapshot after a label that isn't a commit is one before it.
pub fn snapshots()
    ensures nothing { (s : State) → IsSnapshot s.calls (commits_of s.txs) (λ c. false) }
    ensures all { (p : Prog) (s : State) → IsValid p s → IsSnapshot s.calls (commits_of s.txs) (old s) }
    ensures before_marker { (p : Prog) (s : State) (m : ℕ) (mark : Call) → IsValid p s → At s.calls m mark → IsMarker mark
        → IsSnapshot s.calls (commits_of s.txs) (λ c. before s.calls c m) }
    ensures old_parts { (p : Prog) (s new : State) (label : Label) (seen : ℕ → Bool) → IsValid p s → Leads s (step p s label) new
        → IsSnapshot new.calls (commits_of new.txs) seen → IsSnapshot s.calls (commits_of s.txs) (old_part s seen) }
    ensures earlier { (p : Prog) (s new : State) (label : Label) (seen : ℕ → Bool) → IsValid p s → ((i : ℕ) → label ≢ Commit i)
        → Leads s (step p s label) new → IsSnapshot new.calls (commits_of new.txs) seen
        → IsSnapshot s.calls (commits_of s.txs) seen }
{}

/// A label that neither starts an invocation nor commits nor returns keeps the invariants.
pub fn quiet_labels()
    ensures { (p : Prog) (s : State) (label : Label) (new : State) → IsValid p s → IsTrue (is_quiet label) → HoldsAll p s
        → Leads s (step p s label) new → HoldsAll p new }
{}

/// How the calls of one invocation lie in a valid state.
pub fn own_calls()
    ensures one_marker { (p : Prog) (s : State) → IsValid p s → HasOneMarker s }
    ensures growing { (p : Prog) (s : State) → IsValid p s → PastsGrow s }
    ensures pasts { (p : Prog) (s : State) → IsValid p s → PastsAreOwn s }
    ensures seen { (p : Prog) (s : State) → IsValid p s → OwnAreSeen s }
    ensures markers_seen { (p : Prog) (s : State) → IsValid p s → MarkersAreSeen s }
    ensures views { (p : Prog) (s : State) → IsValid p s → ViewsAreMarked s }
{}

/// An identifier is private to the invocation that makes it, as long as the invocation tells it to nobody: its own labels
/// keep that, but for its return, and the commit of a transaction with a call that holds it.
pub fn own_privacy()
    ensures new { (p : Prog) (s new : State) (i : ℕ) (id : Val) → IsValid p s → Leads s (step p s (New i id)) new
        → (new ≡ s) ⊎ IsPrivate new i id }
    ensures quiet { (p : Prog) (s : State) (label : Label) (new : State) (i : ℕ) (x : Val) → IsValid p s → IsTrue (is_quiet label)
        → named label ≡ Some i → Leads s (step p s label) new → IsPrivate s i x → IsPrivate new i x }
    ensures commit { (p : Prog) (s new : State) (i : ℕ) (x : Val) → IsValid p s → Leads s (step p s (Commit i)) new
        → ((c : ℕ) (call : Call) → At s.calls c call → ¬ Inside x call.args) → IsPrivate s i x → IsPrivate new i x }
{}
