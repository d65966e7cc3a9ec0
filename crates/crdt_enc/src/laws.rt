//! Laws of the definitions, as functions with nothing to run.
ghost use Rattle.std.specs.Prelude.{◌≡◌, ◌↔◌, ℕ, false, IsTrue, List, [], map, Some, slice_get};
ghost use Rattle.rp_value.specs.Values.{Val};
ghost use Rattle.rp_lang.specs.declared.query.QueryDecl.{QueryDecl};
ghost use Rattle.rp_lang.specs.Formulas.{Fo};
ghost use Rattle.rp_lang.specs.Typing.{in_invariant, is_typed, is_get};
ghost use Rattle.crdt_defs.specs.Fitting.{all_fit};
ghost use Rattle.crdt_defs.specs.Queries.{answer_in, is_true};
ghost use Rattle.crdt_defs.specs.Truths.{Reading, truth};
ghost use Rattle.rp_logic.specs.Terms.{Tm};
ghost use Rattle.rp_logic.specs.Elements.{Elem};
ghost use Rattle.rp_logic.specs.Truth.{Meaning, Holds, value};
ghost use Rattle.crdt_enc.specs.Elements.{elem_of};
ghost use Rattle.crdt_enc.specs.Places.{At};
ghost use Rattle.crdt_enc.specs.QueryFormulas.{query_formula};
ghost use Rattle.crdt_enc.specs.FormulaFormulas.{formula_of, nothing_around};
ghost use Rattle.crdt_enc.specs.Stages.{Stage};

/// The formula of a query that holds or not is true exactly where the query holds, at any terms whose values are its
/// arguments: for all replicated types, along any path.
pub fn queries_mean_answers()
    ensures { (r : Reading) (M : Meaning) (at : At) → Stage r M at
        → (n : ℕ) (query : QueryDecl) → slice_get r.program.queries n ≡ Some query → is_get query.kind ≡ false
        → (vars : List Elem) (ts : List Tm) (vs : List Val) → map (value M vars) ts ≡ map elem_of vs → IsTrue (all_fit r.program query.args vs)
        → Holds M vars (query_formula r.program at.view n ts) ↔ IsTrue (is_true (answer_in r.program n r.parts.calls r.visible vs)) }
{}

/// The formula of an invariant is true exactly where the invariant is.
pub fn formulas_mean_truth()
    ensures { (r : Reading) (M : Meaning) (at : At) → Stage r M at → (f : Fo) → IsTrue (is_typed r.program in_invariant [] f)
        → (vars : List Elem) → Holds M vars (formula_of r.program at nothing_around f) ↔ IsTrue (truth r [] f) }
{}
