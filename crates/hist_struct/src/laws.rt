//! Laws of the definitions, as functions with nothing to run.
ghost use Rattle.std.specs.Prelude.{◌≡◌, ◌≤◌, ◌<◌, ◌&&◌, nat_lt, true, IsTrue, ℕ, Bool, List, length, Option, Some};
ghost use Rattle.rp_value.specs.declared.tables.Ty.{Ty};
ghost use Rattle.rp_value.specs.Values.{Val};
ghost use Rattle.rp_lang.specs.Types.{is_ordinary};
ghost use Rattle.rp_lang.specs.Programs.{Prog};
ghost use Rattle.rp_lang.specs.WellFormed.{is_well_formed};
ghost use Rattle.crdt_defs.specs.Fitting.{fits};
ghost use Rattle.crdt_defs.specs.Snapshots.{IsSnapshot};
ghost use Rattle.event_machine.specs.Machine.{State, Label, step, plain};
ghost use Rattle.event_machine.specs.Runs.{Leads};
ghost use Rattle.event_machine.specs.WellFormed.{commits_of};
ghost use Rattle.rp_logic.specs.Elements.{Elem};
ghost use Rattle.rp_logic.specs.Formulas.{Fm};
ghost use Rattle.rp_logic.specs.Signatures.{Signature};
ghost use Rattle.rp_logic.specs.Structures.{Structure, apply, is_related, IsStructure};
ghost use Rattle.rp_logic.specs.Truth.{Meaning, AllTrue};
ghost use Rattle.rp_symbols.specs.Signatures.{sort_of};
ghost use Rattle.crdt_enc.specs.Elements.{elem_of};
ghost use Rattle.crdt_enc.specs.FitsParts.{FitsParts, Is};
ghost use Rattle.event_machine.specs.Growth.{IsValid};
ghost use Rattle.hist_struct.specs.Steps.{Step, begins, IsStep, Acts, step_of, nothing_yet};
ghost use Rattle.hist_struct.specs.Structure.{sig_at, meaning_of, structure_of, ConstsFit};
ghost use Rattle.hist_struct.specs.Conditions.{StandsAt};
ghost use Rattle.hist_struct.specs.Extension.{Extends};
ghost use Rattle.hist_struct.specs.Defaults.{default_val, most_parts};
ghost use Rattle.hist_struct.specs.Snapshots.{before_at, after_at, AreSnapshots, AreViews, AreStages};
ghost use Rattle.hist_struct.specs.Holding.{AreExact, AreMet, axioms};
ghost use Rattle.hist_struct.specs.Tables.{one_point, two_points, set_relation, pair_relation, table};

/// In every structure the formulas of the axioms are true exactly where the conditions hold.
pub fn axioms_are_exact()
    ensures { (p : Prog) (begins reads : ℕ) (M : Meaning) → AreExact p begins reads M }
{}

/// In the structure of every step the conditions hold, and so the formulas are true.
pub fn axioms_hold()
    ensures met { (x : Step) (consts : List ℕ) → IsTrue (is_well_formed x.program) → IsStep x
        → AreMet x.program (begins x) (length x.reads) (meaning_of (sig_at x consts) x) }
    ensures true_there { (x : Step) (consts : List ℕ) → IsTrue (is_well_formed x.program) → IsStep x
        → AllTrue (meaning_of (sig_at x consts) x) (axioms x.program (begins x) (length x.reads)) }
{}

/// The structure fits the state before the step, and the state after it; its sets of visible calls are those of the
/// step, its functions of queries give what the queries give there, so that formulas mean in it what they say; and what
/// invariants are assumed at are snapshots.
pub fn structures_fit()
    ensures before { (x : Step) (consts : List ℕ) → IsTrue (is_well_formed x.program) → IsStep x → (view : ℕ)
        → FitsParts x.program (meaning_of (sig_at x consts) x) (before_at view) (plain x.old) }
    ensures after { (x : Step) (consts : List ℕ) → IsTrue (is_well_formed x.program) → IsStep x → (view : ℕ)
        → FitsParts x.program (meaning_of (sig_at x consts) x) (after_at view) (plain x.new) }
    ensures views { (x : Step) (consts : List ℕ) → IsTrue (is_well_formed x.program) → IsStep x
        → AreViews x (meaning_of (sig_at x consts) x) }
    ensures stages { (x : Step) (consts : List ℕ) → IsTrue (is_well_formed x.program) → IsStep x → (slots : List (Option Val))
        → AreStages x (meaning_of (sig_at x consts) x) slots }
    ensures snapshots { (x : Step) → IsTrue (is_well_formed x.program) → IsStep x → AreSnapshots x }
{}

/// The start is a step, and so is each accepted label of a valid state, with each snapshot of the new state.
pub fn labels_are_steps()
    ensures start { (p : Prog) (universe : ℕ) → 1 ≤ universe → IsStep (nothing_yet p universe) }
    ensures label { (p : Prog) → IsTrue (is_well_formed p) → (s : State) (label : Label) (new : State) (i : ℕ) → IsValid p s
        → Leads s (step p s label) new → Acts s label i → (v : ℕ → Bool) → IsSnapshot new.calls (commits_of new.txs) v
        → (views : ℕ) (vals : List Elem) (reads : List (ℕ → Bool)) → IsStep (step_of p s new i v views vals reads) }
{}

/// Tables hold what they are made of.
pub fn tables_hold()
    ensures sets { (f : ℕ → Bool) (n c : ℕ) → is_related (Some (set_relation f n)) (one_point c) ≡ (f c && nat_lt c n) }
    ensures pairs { (f : ℕ → ℕ → Bool) (n c d : ℕ) → c < n → d < n → is_related (Some (pair_relation f n)) (two_points c d) ≡ f c d }
    ensures functions { (f : ℕ → Elem) (n c : ℕ) → c < n → apply (Some (table f n)) (one_point c) ≡ f c }
{}

/// Each element of a type's sort is that of a value of the type.
pub fn elements_are_values()
    ensures { (x : Step) (consts : List ℕ) → IsTrue (is_well_formed x.program) → (t : Ty) → IsTrue (is_ordinary x.program.types t)
        → (e : Elem) → Is (meaning_of (sig_at x consts) x) (sort_of x.program t) e
        → (v : Val) × (fits x.program t v ≡ true) × (elem_of v ≡ e) }
{}

/// The structure of a step is one of its signature: functions give elements of their sorts, and defaults are elements.
pub fn steps_are_structures()
    ensures { (x : Step) (consts : List ℕ) → IsTrue (is_well_formed x.program) → IsStep x → ConstsFit x consts
        → IsStructure (sig_at x consts) (structure_of x) }
{}

/// The default of each type of data is a value of the type.
pub fn defaults_are_values()
    ensures { (p : Prog) → IsTrue (is_well_formed p) → (t : Ty) → IsTrue (is_ordinary p.types t) → fits p t (default_val p t) ≡ true }
{}

/// An identifier that stands in an element of a type at some depth stands there within the depth that the axiom of places has.
pub fn no_value_is_deeper()
    ensures { (p : Prog) → IsTrue (is_well_formed p) → (n : ℕ) (t : Ty) → IsTrue (is_ordinary p.types t) → (e : Elem) (k : ℕ) (y : Elem)
        → StandsAt p n t e k y → StandsAt p most_parts t e k y }
{}

/// A structure extends to itself, and what it extends to may extend further.
pub fn extensions_go_on()
    ensures itself { (p : Prog) (begins reads : ℕ) (S : Signature) (privacy : List Fm) (M : Structure) → Extends p begins reads S privacy M M }
    ensures further { (p : Prog) (begins reads : ℕ) (S : Signature) (privacy : List Fm) (M N O : Structure)
        → Extends p begins reads S privacy M N → Extends p begins reads S privacy N O → Extends p begins reads S privacy M O }
{}
