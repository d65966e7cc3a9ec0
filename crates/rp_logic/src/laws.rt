//! Laws of the definitions, as functions with nothing to run.
ghost use Rattle.std.specs.Prelude.{◌≡◌, ◌↔◌, IsTrue, ℕ, true, List, [], ◌∷◌, ◌++◌};
ghost use Rattle.rp_logic.specs.Terms.{Tm, is_closed};
ghost use Rattle.rp_logic.specs.Formulas.{Fm, Or, no_fm, also_fm};
ghost use Rattle.rp_logic.specs.Signatures.{Signature};
ghost use Rattle.rp_logic.specs.Sorted.{has_sort, IsSorted};
ghost use Rattle.rp_logic.specs.Elements.{Elem, same_elem};
ghost use Rattle.rp_logic.specs.Constants.{formula_lacks, with_value};
ghost use Rattle.rp_logic.specs.Structures.{Structure, Fits, Is};
ghost use Rattle.rp_logic.specs.Instance.{instance};
ghost use Rattle.rp_logic.specs.Dual.{dual};
ghost use Rattle.rp_logic.specs.Filling.{filled_in, Gives, AreIn, Suits};
ghost use Rattle.rp_logic.specs.Truth.{Meaning, meaning_with, value, Holds, IsInstance, IsDenial};

use crate::sort::NewConst;

/// A formula that isn't untrue is true, and of a formula and its dual one is.
pub fn truth_is_classical()
    ensures stable { (M : Meaning) (vars : List Elem) (f : Fm) → ¬ ¬ Holds M vars f → Holds M vars f }
    ensures excluded_middle { (M : Meaning) (vars : List Elem) (f : Fm) → Holds M vars (Or (also_fm f (also_fm (dual f) no_fm))) }
{}

/// The dual of a formula is true exactly where the formula isn't.
pub fn dual_is_the_denial()
    ensures { (f : Fm) → IsDenial (dual f) f }
{}

/// An instance is true exactly where the body is, with the term's value for its outer variable.
pub fn instance_means_its_body()
    ensures { (t : Tm) (f : Fm) → IsTrue (is_closed t) → IsInstance (instance t f) t f }
{}

/// A term that has a sort with no variable open is closed, and its value is an element of the sort.
pub fn closed_terms_have_values()
    ensures closed { (S : Signature) (added : List NewConst) (s : ℕ) (t : Tm) → IsTrue (has_sort S added [] s t) → IsTrue (is_closed t) }
    ensures value { (S : Signature) (M : Structure) (consts : ℕ → Elem) (added : List NewConst) (s : ℕ) (t : Tm)
        → Fits S M consts added → IsTrue (has_sort S added [] s t) → Is S M s (value (meaning_with S M consts) [] t) }
{}

/// The test for equal elements is exact.
pub fn equal_elements_pass()
    ensures { (x y : Elem) → (same_elem x y ≡ true) ↔ (x ≡ y) }
{}

/// An instance by a closed term of the variable's sort is well sorted where the quantifier's body is.
pub fn instances_are_sorted()
    ensures { (S : Signature) (added : List NewConst) (scope : List ℕ) (sort : ℕ) (t : Tm) (body : Fm)
        → IsTrue (has_sort S added [] sort t) → IsSorted S added (sort ∷ scope) body → IsSorted S added scope (instance t body) }
{}

/// A constant that stands nowhere in a formula may have any value and any sort.
pub fn unused_constants_are_free()
    ensures value { (S : Signature) (M : Structure) (consts : ℕ → Elem) (c : ℕ) (v : Elem) (vars : List Elem) (f : Fm) → formula_lacks c f ≡ true
        → Holds (meaning_with S M (with_value consts c v)) vars f ↔ Holds (meaning_with S M consts) vars f }
    ensures sort { (S : Signature) (added : List NewConst) (new : NewConst) (scope : List ℕ) (f : Fm) → formula_lacks new.number f ≡ true
        → IsSorted S added scope f → IsSorted S (added ++ new ∷ []) scope f }
{}

/// A term that has a sort under a scope has an element of the sort for its value, where the variables' elements are of the scope's sorts.
pub fn open_terms_have_values()
    ensures { (S : Signature) (M : Structure) (consts : ℕ → Elem) (added : List NewConst) (scope : List ℕ) (vars : List Elem) (s : ℕ) (t : Tm)
        → Fits S M consts added → AreIn S M scope vars → IsTrue (has_sort S added scope s t) → Is S M s (value (meaning_with S M consts) vars t) }
{}

/// With terms in place of variables a formula means what it means at the terms' values, and is as well sorted as it was.
pub fn filling_means_its_values()
    ensures meaning { (f : Fm) (M : Meaning) (s : ℕ → Tm) (vars others : List Elem) → Gives M s vars others → Holds M vars (filled_in s f) ↔ Holds M others f }
    ensures sorted { (f : Fm) (S : Signature) (added : List NewConst) (scope old : List ℕ) (s : ℕ → Tm)
        → Suits S added scope old s → IsSorted S added old f → IsSorted S added scope (filled_in s f) }
{}

/// The dual of a formula's dual is the formula, and a dual is as well sorted.
pub fn duals_are_mutual()
    ensures twice { (f : Fm) → dual (dual f) ≡ f }
    ensures sorted { (f : Fm) (S : Signature) (added : List NewConst) (scope : List ℕ) → IsSorted S added scope f → IsSorted S added scope (dual f) }
{}
