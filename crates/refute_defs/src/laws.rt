//! Laws of the definitions, as functions with nothing to run.
ghost use Rattle.std.specs.Prelude.{◌≡◌, ◌↔◌, ℕ, Bool, true, slice_get, Some, List, [], ◌∷◌, ◌++◌};
ghost use Rattle.rp_logic.specs.declared.sort.Sort.TheVariants.{Plain};
ghost use Rattle.rp_logic.specs.Terms.{At};
ghost use Rattle.rp_logic.specs.Formulas.{Fm, Or, Ex, Lit, Fms};
ghost use Rattle.rp_logic.specs.Signatures.{Signature};
ghost use Rattle.rp_logic.specs.Elements.{Elem};
ghost use Rattle.rp_logic.specs.Structures.{Structure, Fits, IsStructure};
ghost use Rattle.rp_logic.specs.Truth.{Meaning, meaning, meaning_with, Holds, AllTrue, IsRefuted};
ghost use Rattle.rp_logic.specs.Dual.{dual};
ghost use Rattle.refute_defs.specs.Uses.{Use, Nd};
ghost use Rattle.refute_defs.specs.Additions.{Addition};
ghost use Rattle.refute_defs.specs.Branches.{Branch};
ghost use Rattle.refute_defs.specs.Children.{children};
ghost use Rattle.refute_defs.specs.Rules.{Step};
ghost use Rattle.refute_defs.specs.Closed.{IsClosedTree, IsFirstBad, AreWellSorted, IsSignature};
ghost use Rattle.refute_defs.specs.Conclusions.{IsDecided, AreDecided, SomeHolds, IsDecidedOver, HasWitness};
ghost use Rattle.refute_defs.specs.Verdicts.{Accepted, Bad, verdict};

/// A closed tree refutes its given formulas: no structure of the signature makes all of them true.
pub fn no_structure()
    ensures refuted { (S : Signature) (given : List Fm) (nodes : List Nd) → IsSignature S
        → AreWellSorted S given → IsClosedTree S given nodes → IsRefuted S given }
    ensures meanings { (S : Signature) (given : List Fm) (nodes : List Nd) → IsSignature S
        → AreWellSorted S given → IsClosedTree S given nodes
        → (M : Structure) (consts : ℕ → Elem) → Fits S M consts []
        → AllTrue (meaning_with S M consts) given → ⊥ }
{}

/// The function of children is the relation of the rules.
pub fn children_are_steps()
    ensures { (S : Signature) → IsSignature S → (b : Branch) (u : Use) (adds : List Addition)
        → (children S b u ≡ Some adds) ↔ Step S b u adds }
{}

/// What is accepted is a closed tree, and what is refused has a first node that doesn't meet its
/// rule.
pub fn verdicts_are_exact()
    ensures accepted { (S : Signature) → IsSignature S → (given : List Fm) (nodes : List Nd)
        → (verdict S given nodes ≡ Accepted) ↔ IsClosedTree S given nodes }
    ensures bad { (S : Signature) → IsSignature S → (given : List Fm) (nodes : List Nd)
        → (node rule : ℕ)
        → (verdict S given nodes ≡ Bad node rule) ↔ IsFirstBad S given nodes node rule }
{}

/// What follows from a refutation. A claim is true wherever the given formulas are, if they are
/// refuted together with its negation. Of a true disjunction of decided parts one part is true, and
/// a true "some" over a plain sort has an element, where its body is decided. Literals are decided.
pub fn refutations_conclude()
    ensures claim { (S : Signature) (given : List Fm) (claim : Fm)
        → IsRefuted S (given ++ dual claim ∷ [])
        → (M : Structure) → IsStructure S M → AllTrue (meaning S M) given
        → Holds (meaning S M) [] claim }
    ensures disjunct { (M : Meaning) (vars : List Elem) (parts : Fms) → AreDecided M vars parts
        → Holds M vars (Or parts) → SomeHolds M vars parts }
    ensures witness { (M : Meaning) → IsSignature M.sig → (vars : List Elem) (sort : ℕ) (body : Fm)
        → slice_get M.sig.sorts sort ≡ Some Plain → IsDecidedOver M vars sort body
        → Holds M vars (Ex sort body) → HasWitness M vars sort body }
    ensures literal { (M : Meaning) (vars : List Elem) (sign : Bool) (atom : At)
        → IsDecided M vars (Lit sign atom) }
{}
