//! Laws of the definitions. The functions do nothing; what they ensure is proved.

ghost use Rattle.std.specs.Prelude.{◌≡◌, ◌+◌, ◌++◌, ◌∷◌, [], ℕ, List, Option, Some, length, option_map};
ghost use Rattle.rp_grammar.specs.Trees.{DeclTree, ParamTree, PatternTree, QueryTree};
ghost use Rattle.rp_lang.specs.Exprs.{Ex, Exs};
ghost use Rattle.type_rules.specs.declared.kind.Kind.{Kind};
ghost use Rattle.type_rules.specs.Names.{Name};
ghost use Rattle.type_rules.specs.Accesses.{Var};
ghost use Rattle.type_rules.specs.Queries.{names_of};
ghost use Rattle.desugaring.specs.Tables.{Tables};
ghost use Rattle.desugaring.specs.Values.{difference, lifted, sum};
ghost use Rattle.desugaring.specs.Callees.{stand, vars_of};
ghost use Rattle.desugaring.specs.Expressions as spec;
ghost use Rattle.desugaring.specs.Programs.{InvTree, ProcDecl, inv_for, proc_for};
ghost use Rattle.query_bodies.specs.Terms.{Said, Te, Tes};
ghost use Rattle.query_bodies.specs.Expanded.{Given, Saids, Uses, all_uses, arguments, given_of, term, terms};
ghost use Rattle.query_laws.specs.Sight.{AreClosed, AreUnder, Follows, Known, LevelsIn, Sight, Stands, in_body, seen, under, under_pattern, vars_in};
ghost use Rattle.query_laws.specs.Whole.{AreBodiesOf, AreOf, IsBodyOf, IsNext, IsSaidBody, inv_by, proc_by};

/// Where all arguments of a use are terms, they are given by name as they are by value.
pub fn arguments_are_given()
    ensures { (uses : Uses) (given : Given) (bound : ℕ) (args : Tes) (es : Exs)
        → terms uses given bound args ≡ Some es → arguments uses given bound args ≡ given_of es }
{}

/// A sum and a difference under a binder more are those of their operands there, and what is made
/// with all uses put in is what is made there.
pub fn terms_are_lifted()
    ensures sum { (a b : Ex) → lifted (sum a b) ≡ sum (lifted a) (lifted b) }
    ensures difference { (a b : Ex) → lifted (difference a b) ≡ difference (lifted a) (lifted b) }
    ensures put_in { (bodies : Saids) → AreClosed bodies → (given : Given) (bound : ℕ) (e : Te) → LevelsIn bound e
        → option_map lifted (term (all_uses bodies) given bound e)
        ≡ term (all_uses bodies) given (bound + 1) e }
{}

/// The variable of a binder is kept by the binders around it, and lifted at its use: so all
/// variables stand for the same as where each is lifted under a binder.
pub fn variables_are_lifted()
    ensures under { (s : Sight) (given : Given) (x : Name) (k : Kind) → AreUnder s.binders s.vars
        → vars_in (under s x k) given ≡ spec.under (vars_in s given) x k }
    ensures stand_under { (s : Sight) (given : Given) (x : Name) (k : Kind) → Stands s given
        → Stands (under s x k) given }
    ensures pattern { (s : Sight) (given : Given) (k : Kind) (p : PatternTree) → AreUnder s.binders s.vars
        → vars_in (under_pattern s k p) given ≡ spec.under_pattern s.tables.names (vars_in s given) k p }
    ensures stand_in_pattern { (s : Sight) (given : Given) (k : Kind) (p : PatternTree) → Stands s given
        → Stands (under_pattern s k p) given }
    ensures rules { (s : Sight) (given : Given) → vars_of (vars_in s given) ≡ vars_of s.vars }
    ensures one_more { (vs : List Var) (ks : List Known) (v : Var) (k : Known) → length vs ≡ length ks
        → seen (vs ++ v ∷ []) (ks ++ k ∷ []) ≡ seen vs ks ++ stand v.name v.kind k ∷ [] }
{}

/// The parameters of a query stand for the arguments, of which there are as many.
pub fn parameters_are_given()
    ensures vars { (t : Tables) (uses : Uses) (params : List ParamTree) (es : Exs)
        → length (given_of es) ≡ length params
        → vars_in (in_body t uses params) (given_of es) ≡ spec.with_args t.names params es }
    ensures stand { (t : Tables) (uses : Uses) (params : List ParamTree) (es : Exs)
        → length (given_of es) ≡ length params → Stands (in_body t uses params) (given_of es) }
    ensures body { (t : Tables) (uses : Uses) (q : QueryTree) (s : Said) → IsSaidBody t uses q s
        → IsBodyOf t uses q s }
{}

/// Uses of queries by their bodies become what they become by the definitions.
pub fn bodies_are_uses()
    ensures none { (t : Tables) (tree : List DeclTree) → AreBodiesOf t tree [] }
    ensures next { (t : Tables) (tree : List DeclTree) (bodies : Saids) (o : Option Said) → AreOf t.names tree
        → AreBodiesOf t tree bodies → IsNext t tree bodies o → AreBodiesOf t tree (bodies ++ o ∷ []) }
{}

/// The queries that names of a text stand for are declared there.
pub fn names_are_told()
    ensures { (tree : List DeclTree) → AreOf (names_of tree) tree }
{}

/// By the bodies of all queries, an invariant and a procedure become what they become by those of
/// the queries before them.
pub fn uses_tell_all()
    ensures invariants { (t : Tables) (tree : List DeclTree) (bodies : Saids) → AreOf t.names tree
        → AreBodiesOf t tree bodies → length bodies ≡ length tree
        → (d : InvTree) → Follows (inv_for t d) (inv_by t bodies d) }
    ensures procedures { (t : Tables) (tree : List DeclTree) (bodies : Saids) → AreOf t.names tree
        → AreBodiesOf t tree bodies → length bodies ≡ length tree
        → (d : ProcDecl) → Follows (proc_for t d) (proc_by t bodies d) }
{}
