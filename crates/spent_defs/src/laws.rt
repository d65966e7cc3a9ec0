//! Laws of the definitions, as functions with nothing to run.
ghost use Rattle.std.specs.Prelude.{◌≡◌, ◌↔◌, ℕ, List};
ghost use Rattle.rp_logic.specs.Formulas.{Fm};
ghost use Rattle.rp_logic.specs.Signatures.{Signature};
ghost use Rattle.refute_defs.specs.Uses.{Nd};
ghost use Rattle.refute_defs.specs.Verdicts.{Accepted};
ghost use Rattle.spent_defs.specs.Counted.{IsCountedTree, counted_verdict};

/// Counted trees are accepted, and no others.
pub fn verdicts_are_exact()
    ensures accepted { (S : Signature) (given : List Fm) (nodes : List Nd) (budget depth : ℕ)
        → (counted_verdict S given nodes budget depth ≡ Accepted)
        ↔ IsCountedTree S given nodes budget depth }
{}
