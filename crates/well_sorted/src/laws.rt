//! Laws of the definitions, as functions with nothing to run.
ghost use Rattle.std.specs.Prelude.{◌≡◌, ◌-◌, ◌<◌, IsTrue, ℕ, List, [], Some, length, map, slice_get};
ghost use Rattle.rp_value.specs.declared.tables.Ty.{Ty};
ghost use Rattle.rp_lang.specs.Exprs.{Ex};
ghost use Rattle.rp_lang.specs.Formulas.{Fo};
ghost use Rattle.rp_lang.specs.Typing.{Frame, in_invariant, type_of, is_typed};
ghost use Rattle.rp_lang.specs.Programs.{Prog};
ghost use Rattle.rp_lang.specs.WellFormed.{is_well_formed};
ghost use Rattle.rp_logic.specs.declared.sort.NewConst.{NewConst};
ghost use Rattle.rp_logic.specs.Terms.{Tm};
ghost use Rattle.rp_logic.specs.Signatures.{Signature, are_below};
ghost use Rattle.rp_logic.specs.Sorted.{has_sort, IsSorted, IsWellSorted};
ghost use Rattle.rp_symbols.specs.Numbers.{old_rel, snapshot_rel, part_rel, seen_rel, read_rel, added_rel};
ghost use Rattle.rp_symbols.specs.Signatures.{sort_of, sorts_of, sig_of, with_path};
ghost use Rattle.crdt_enc.specs.Places.{At};
ghost use Rattle.crdt_enc.specs.FormulaFormulas.{formula_of, term_of, nothing_around};
ghost use Rattle.refute_defs.specs.Closed.{AreWellSorted};
ghost use Rattle.hist_struct.specs.Holding.{axioms};
ghost use Rattle.hist_struct.specs.Snapshots.{before_at, after_at};
ghost use Rattle.well_sorted.specs.Symbols.{is_kept, HasSymbols, HasPlace, SlotsSorted, with_slots};

/// The signature of a program, with what a path adds, is one: it keeps what a signature keeps, where the path's constants are
/// of its sorts.
pub fn signatures_are_kept()
    ensures { (p : Prog) (views reads : ℕ) (consts : List ℕ) → IsTrue (is_well_formed p) → IsTrue (are_below (length (sorts_of p)) consts)
        → IsTrue (is_kept (with_path p consts reads (sig_of p views))) }
{}

/// The signature of a program, with what a path adds, has the symbols that formulas ask for, at each set of calls that
/// formulas take for a snapshot.
pub fn signatures_have_symbols()
    ensures symbols { (p : Prog) (views reads : ℕ) (consts : List ℕ) → HasSymbols p (with_path p consts reads (sig_of p views)) }
    ensures old { (p : Prog) (views reads : ℕ) (consts : List ℕ) → HasPlace p (with_path p consts reads (sig_of p views)) (before_at old_rel) }
    ensures part { (p : Prog) (views reads : ℕ) (consts : List ℕ) → HasPlace p (with_path p consts reads (sig_of p views)) (before_at part_rel) }
    ensures snapshot { (p : Prog) (views reads : ℕ) (consts : List ℕ)
        → HasPlace p (with_path p consts reads (sig_of p views)) (after_at snapshot_rel) }
    ensures seen { (p : Prog) (views reads : ℕ) (consts : List ℕ) (k : ℕ) → k < views - 1
        → HasPlace p (with_path p consts reads (sig_of p views)) (before_at (seen_rel p k)) }
    ensures read { (p : Prog) (views reads : ℕ) (consts : List ℕ) (k : ℕ) → k < views - 1
        → HasPlace p (with_path p consts reads (sig_of p views)) (before_at (read_rel p k)) }
    ensures added { (p : Prog) (views reads : ℕ) (consts : List ℕ) (j : ℕ) → j < reads
        → HasPlace p (with_path p consts reads (sig_of p views)) (before_at (added_rel p (views - 1) j)) }
{}

/// The formula of an invariant is well sorted; and so are, where the slots' terms have the sorts of their types, the terms of
/// expressions and the formulas of what a procedure evaluates.
pub fn encoded_formulas_are_sorted()
    ensures invariants { (p : Prog) (S : Signature) (at : At) → IsTrue (is_well_formed p) → HasSymbols p S → HasPlace p S at
        → (f : Fo) → IsTrue (is_typed p in_invariant [] f) → IsWellSorted S (formula_of p at nothing_around f) }
    ensures at_slots { (p : Prog) (S : Signature) (added : List NewConst) (at : At) → IsTrue (is_well_formed p) → HasSymbols p S → HasPlace p S at
        → (frame : Frame) (slots : List Tm) → SlotsSorted p S added frame slots → (f : Fo) → IsTrue (is_typed p frame [] f)
        → IsSorted S added [] (formula_of p at (with_slots slots) f) }
    ensures terms { (p : Prog) (S : Signature) (added : List NewConst) (at : At) → IsTrue (is_well_formed p) → HasSymbols p S → HasPlace p S at
        → (frame : Frame) (slots : List Tm) → SlotsSorted p S added frame slots → (e : Ex) (t : Ty) → type_of p frame [] e ≡ Some t
        → IsTrue (has_sort S added [] (sort_of p t) (term_of p at (with_slots slots) e)) }
{}

/// The axioms of a program, with what a path adds, are closed and well sorted over its signature.
pub fn axioms_are_sorted()
    ensures { (p : Prog) (views reads : ℕ) (consts : List ℕ) → IsTrue (is_well_formed p)
        → AreWellSorted (with_path p consts reads (sig_of p views)) (axioms p (views - 1) reads) }
{}
