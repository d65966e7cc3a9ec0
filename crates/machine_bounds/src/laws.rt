// Laws on the integers that a well-formed program comes to.
ghost use Rattle.std.specs.Prelude.{◌≡◌, ℕ, Bool, [], IsTrue};
ghost use Rattle.rp_lang.specs.Programs.{Inv, Prog};
ghost use Rattle.rp_lang.specs.WellFormed.{is_well_formed};
ghost use Rattle.crdt_defs.specs.Histories.{IsHistory};
ghost use Rattle.crdt_truth.specs.Within.{FoWithin};
ghost use Rattle.event_machine.specs.States.{Invocation, Running, State};
ghost use Rattle.event_machine.specs.Machine.{at_snapshot, proc_reading};
ghost use Rattle.event_machine.specs.WellFormed.{At, IsWellFormed};
ghost use Rattle.event_machine.specs.TypedStates.{IsTyped};
ghost use Rattle.machine_bounds.specs.Bounded.{HasWords};
ghost use Rattle.machine_bounds.specs.NextWithin.{NextWithin};

/// What a running invocation evaluates next stays within 128 bits, whatever calls it sees.
pub fn invocations_within()
    ensures { (p : Prog) → IsTrue (is_well_formed p) → (s : State) → IsWellFormed p s → IsTyped p s → HasWords s
        → (i : ℕ) (inv : Invocation) → At s.invocations i inv → inv.standing ≡ Running
        → (visible : ℕ → Bool) → NextWithin (proc_reading p s.universe s.calls inv.slots visible) inv.left }
{}

/// The truth of an invariant stays within 128 bits, whatever calls are visible.
pub fn invariants_within()
    ensures { (p : Prog) → IsTrue (is_well_formed p) → (s : State) → IsTyped p s → IsHistory s.calls
        → (n : ℕ) (inv : Inv) → At p.invs n inv → (visible : ℕ → Bool) → FoWithin (at_snapshot p s visible) [] inv.body }
{}
