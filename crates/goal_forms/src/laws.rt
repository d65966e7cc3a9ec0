//! Laws of the definitions, as functions with nothing to run.
ghost use Rattle.std.specs.Prelude.{◌≡◌, ◌≤◌, ℕ, IsTrue, List};
ghost use Rattle.rp_lang.specs.Programs.{Inv, Prog};
ghost use Rattle.rp_lang.specs.WellFormed.{is_well_formed};
ghost use Rattle.event_machine.specs.Machine.{empty};
ghost use Rattle.event_machine.specs.LocalSafety.{HoldsAll};
ghost use Rattle.event_machine.specs.WellFormed.{At};
ghost use Rattle.rp_symbols.specs.Signatures.{sig_of};
ghost use Rattle.rp_logic.specs.Truth.{IsRefuted};
ghost use Rattle.hist_struct.specs.Steps.{Step, IsStep};
ghost use Rattle.hist_struct.specs.Structure.{sig_at, meaning_of};
ghost use Rattle.one_invocation.specs.Goals.{ToInit, IsMet};
ghost use Rattle.goal_forms.specs.Given.{given_at_start};
ghost use Rattle.goal_forms.specs.Holding.{AreClaims, AreMoves, IsStartExact};

/// In the structure of every step the formulas of the invariants at a snapshot of the state before, at the calls that were
/// committed there, at the old part of the snapshot and at what the invocation sees from a begin on, are true exactly where
/// the invariants hold there; and the denied claim is true exactly where the invariant is false at the snapshot after.
pub fn claims_are_exact()
    ensures { (x : Step) (consts : List ℕ) → IsTrue (is_well_formed x.program) → IsStep x → AreClaims x (meaning_of (sig_at x consts) x) }
{}

/// In the structure of every step the formulas of what it moved are true exactly where it moved so.
pub fn moves_are_exact()
    ensures { (x : Step) (consts : List ℕ) → IsTrue (is_well_formed x.program) → IsStep x → AreMoves x (meaning_of (sig_at x consts) x) }
{}

/// In the structure of the start, with any snapshot, all given formulas of an invariant's goal are true exactly where the
/// invariant is false there.
pub fn start_is_exact()
    ensures { (p : Prog) → IsTrue (is_well_formed p) → (k : ℕ) (claim : Inv) → At p.invs k claim → IsStartExact p claim }
{}

/// Where no structure makes the given formulas of an invariant's goal at the start true, the goal is met; and where that is so
/// of each invariant, all hold in the empty state of every universe.
pub fn refuted_start_holds()
    ensures met { (p : Prog) → IsTrue (is_well_formed p) → (k : ℕ) (claim : Inv) → At p.invs k claim
        → IsRefuted (sig_of p 0) (given_at_start p claim) → IsMet p (ToInit k claim) }
    ensures begin { (p : Prog) → IsTrue (is_well_formed p)
        → ((k : ℕ) (claim : Inv) → At p.invs k claim → IsRefuted (sig_of p 0) (given_at_start p claim))
        → (universe : ℕ) → 1 ≤ universe → HoldsAll p (empty universe) }
{}
