//! What is made over so many parameters is the same without further arguments. The functions do
//! nothing; what they ensure is proved.

ghost use Rattle.std.specs.Prelude.{◌≡◌, ◌<◌, ℕ, ℤ, List, Some, length};
ghost use Rattle.rp_value.specs.declared.tables.Ty.{Ty};
ghost use Rattle.rp_grammar.specs.Trees.{ParamTree, PatternTree};
ghost use Rattle.type_rules.specs.declared.kind.Kind.{Kind};
ghost use Rattle.type_rules.specs.Names.{Name};
ghost use Rattle.desugaring.specs.Tables.{Tables};
ghost use Rattle.desugaring.specs.Callees.{Stand, stand_named};
ghost use Rattle.query_bodies.specs.Terms as te;
ghost use Rattle.query_bodies.specs.Terms.{Cl, ClArms, Cls, Said, Te, Tes, also_cl, also_cl_arm, no_cl, no_cl_arm, said_claim, said_term};
ghost use Rattle.query_bodies.specs.Expanded.{IsUse, Saids, Uses, all_uses};
ghost use Rattle.query_laws.specs.Sight.{AreFew, Known, Seen, Sight, in_body, said_of, under, under_pattern};
ghost use Rattle.query_laws.specs.Told.{ArmsOver, ClaimOver, ClaimsOver, IsOver, TermOver, TermsOver};

/// Terms.
pub fn terms_are_over()
    ensures slot { (uses : Uses) (n : ℕ) (s : ℕ) → TermOver uses n (te.Slot s) }
    ensures param { (uses : Uses) (n : ℕ) (p : ℕ) → p < n → TermOver uses n (te.Param p) }
    ensures level { (uses : Uses) (n : ℕ) (m : ℕ) → TermOver uses n (te.Level m) }
    ensures int { (uses : Uses) (n : ℕ) (i : ℤ) → TermOver uses n (te.Int i) }
    ensures str { (uses : Uses) (n : ℕ) (bytes : List ℕ) → TermOver uses n (te.Str bytes) }
    ensures result_term { (uses : Uses) (n : ℕ) (proc : ℕ) → TermOver uses n (te.ResultTerm proc) }
    ensures unreturned { (uses : Uses) (n : ℕ) → TermOver uses n te.Unreturned }
    ensures con { (uses : Uses) (n : ℕ) (k : ℕ) (es : Tes) → TermsOver uses n es → TermOver uses n (te.Con k es) }
    ensures query { (uses : Uses) (n : ℕ) (k : ℕ) (es : Tes) → TermsOver uses n es → TermOver uses n (te.Query k es) }
    ensures op_term { (uses : Uses) (n : ℕ) (k : ℕ) (es : Tes) → TermsOver uses n es
        → TermOver uses n (te.OpTerm k es) }
    ensures info_term { (uses : Uses) (n : ℕ) (k : ℕ) (es : Tes) → TermsOver uses n es
        → TermOver uses n (te.InfoTerm k es) }
    ensures op_of { (uses : Uses) (n : ℕ) (e : Te) → TermOver uses n e → TermOver uses n (te.OpOf e) }
    ensures origin_of { (uses : Uses) (n : ℕ) (e : Te) → TermOver uses n e → TermOver uses n (te.OriginOf e) }
    ensures info_of { (uses : Uses) (n : ℕ) (e : Te) → TermOver uses n e → TermOver uses n (te.InfoOf e) }
    ensures result_of { (uses : Uses) (n : ℕ) (e : Te) → TermOver uses n e → TermOver uses n (te.ResultOf e) }
    ensures result_with { (uses : Uses) (n : ℕ) (proc : ℕ) (e : Te) → TermOver uses n e
        → TermOver uses n (te.ResultWith proc e) }
    ensures sum { (uses : Uses) (n : ℕ) (a b : Te) → TermOver uses n a → TermOver uses n b
        → TermOver uses n (te.Sum a b) }
    ensures difference { (uses : Uses) (n : ℕ) (a b : Te) → TermOver uses n a → TermOver uses n b
        → TermOver uses n (te.Difference a b) }
{}

/// Formulas.
pub fn claims_are_over()
    ensures and { (uses : Uses) (n : ℕ) (fs : Cls) → ClaimsOver uses n fs → ClaimOver uses n (te.And fs) }
    ensures or { (uses : Uses) (n : ℕ) (fs : Cls) → ClaimsOver uses n fs → ClaimOver uses n (te.Or fs) }
    ensures not { (uses : Uses) (n : ℕ) (f : Cl) → ClaimOver uses n f → ClaimOver uses n (te.Not f) }
    ensures implies { (uses : Uses) (n : ℕ) (f h : Cl) → ClaimOver uses n f → ClaimOver uses n h
        → ClaimOver uses n (te.Implies f h) }
    ensures all { (uses : Uses) (n : ℕ) (ty : Ty) (f : Cl) → ClaimOver uses n f → ClaimOver uses n (te.All ty f) }
    ensures any { (uses : Uses) (n : ℕ) (ty : Ty) (f : Cl) → ClaimOver uses n f → ClaimOver uses n (te.Any ty f) }
    ensures holds { (uses : Uses) (n : ℕ) (e : Te) → TermOver uses n e → ClaimOver uses n (te.Holds e) }
    ensures visible { (uses : Uses) (n : ℕ) (e : Te) → TermOver uses n e → ClaimOver uses n (te.Visible e) }
    ensures equal { (uses : Uses) (n : ℕ) (a b : Te) → TermOver uses n a → TermOver uses n b
        → ClaimOver uses n (te.Equal a b) }
    ensures less { (uses : Uses) (n : ℕ) (a b : Te) → TermOver uses n a → TermOver uses n b
        → ClaimOver uses n (te.Less a b) }
    ensures at_most { (uses : Uses) (n : ℕ) (a b : Te) → TermOver uses n a → TermOver uses n b
        → ClaimOver uses n (te.AtMost a b) }
    ensures before { (uses : Uses) (n : ℕ) (a b : Te) → TermOver uses n a → TermOver uses n b
        → ClaimOver uses n (te.Before a b) }
    ensures same { (uses : Uses) (n : ℕ) (a b : Te) → TermOver uses n a → TermOver uses n b
        → ClaimOver uses n (te.Same a b) }
    ensures match_is { (uses : Uses) (n : ℕ) (e : Te) (arms : ClArms) → TermOver uses n e
        → ArmsOver uses n arms → ClaimOver uses n (te.Match e arms) }
{}

/// Lists of formulas and arms, one after another.
pub fn lists_are_over()
    ensures no_claims { (uses : Uses) (n : ℕ) → ClaimsOver uses n no_cl }
    ensures more_claims { (uses : Uses) (n : ℕ) (f : Cl) (fs : Cls) → ClaimOver uses n f → ClaimsOver uses n fs
        → ClaimsOver uses n (also_cl f fs) }
    ensures no_arms { (uses : Uses) (n : ℕ) → ArmsOver uses n no_cl_arm }
    ensures more_arms { (uses : Uses) (n con binds : ℕ) (body : Cl) (rest : ClArms) → ClaimOver uses n body
        → ArmsOver uses n rest → ArmsOver uses n (also_cl_arm con binds body rest) }
{}

/// What is said either way, and what was made in the place of a use.
pub fn uses_are_over()
    ensures term { (uses : Uses) (n : ℕ) (e : Te) → TermOver uses n e → IsOver uses n (said_term e) }
    ensures claim { (uses : Uses) (n : ℕ) (f : Cl) → ClaimOver uses n f → IsOver uses n (said_claim f) }
    ensures use_is { (bodies : Saids) (n : ℕ) (made : Said) (decl : ℕ) (es : Tes) → IsUse bodies made decl es
        → TermsOver (all_uses bodies) n es → IsOver (all_uses bodies) n made }
{}

/// The parameters in sight in the body of a query are its own, under binders too.
pub fn parameters_are_few()
    ensures body { (t : Tables) (uses : Uses) (params : List ParamTree)
        → AreFew (length params) (in_body t uses params).vars }
    ensures under { (n : ℕ) (s : Sight) (x : Name) (k : Kind) → AreFew n s.vars → AreFew n (under s x k).vars }
    ensures pattern { (n : ℕ) (s : Sight) (k : Kind) (p : PatternTree) → AreFew n s.vars
        → AreFew n (under_pattern s k p).vars }
    ensures variable { (uses : Uses) (n : ℕ) (vars : Seen) (x : Name) (s : Stand Known) → AreFew n vars
        → stand_named vars x ≡ Some s → TermOver uses n (said_of s.known) }
{}
