//! What is said of each form of expression, from what is said of its parts. The functions do
//! nothing; what they ensure is proved.

ghost use Rattle.std.specs.Prelude.{◌≡◌, ◌∷◌, [], ℕ, ℤ, Bool, List, None, Option, Some, if◌then◌else◌, length};
ghost use Rattle.rp_span.specs.declared.Span.{Span};
ghost use Rattle.rp_value.specs.declared.tables.Ty.{Ty};
ghost use Rattle.rp_grammar.specs.declared.operator.CompareOp.{CompareOp};
ghost use Rattle.rp_grammar.specs.declared.operator.CallWord.{CallWord};
ghost use Rattle.rp_grammar.specs.Trees.{AccessTree, ArgTrees, ExprArmTree, ExprArmTrees, ExprForm, ExprTree, ExprTrees, Ident, ParamTree, PatternTree, StepTree, StepTrees};
ghost use Rattle.type_rules.specs.declared.kind.Kind.{Kind};
ghost use Rattle.type_rules.specs.Names.{param_type};
ghost use Rattle.type_rules.specs.Kinds.{bool_kind, int_kind, kind_of};
ghost use Rattle.type_rules.specs.Typing.{asked_inside, form_type, none_kind, type_of};
ghost use Rattle.type_rules.specs.ExprSites.{left_want, right_want, word_args};
ghost use Rattle.type_rules.specs.Matches.{pattern_vars};
ghost use Rattle.desugaring.specs.Tables.{arm_number, con_number};
ghost use Rattle.desugaring.specs.Callees.{Called, called, vars_of};
ghost use Rattle.desugaring.specs.Expressions.{word_none, word_some};
ghost use Rattle.query_bodies.specs.Terms as te;
ghost use Rattle.query_bodies.specs.Terms.{Cl, ClArms, Cls, Said, Te, Tes, also_cl, also_cl_arm, also_te, no_cl, no_cl_arm, no_te, said_claim, said_term};
ghost use Rattle.query_laws.specs.Sight.{IsCall, IsNumber, IsTyOf, Known, Says, SaysArgs, SaysArms, SaysClaim, SaysClaims, SaysKeys, SaysTerm, SaysTerms, Sight, append, compared, under_pattern, under_quantifier, word_of};

/// `==>`, `||`, `&&` and `!`, and what is a formula.
pub fn connectives_are_said()
    ensures formula { (s : Sight) (e : ExprTree) (made : Cl) → Says s (Some bool_kind) e (said_claim made)
        → SaysClaim s e made }
    ensures truth { (s : Sight) (e : ExprTree) (made : Te) → SaysTerm s (Some bool_kind) e made
        → SaysClaim s e (te.Holds made) }
    ensures implies { (s : Sight) (asked : Option Kind) (at : Span) (a b : ExprTree) (x y : Cl)
        → SaysClaim s a x → SaysClaim s b y
        → Says s asked (ExprTree.node at (ExprForm.implies a b)) (said_claim (te.Implies x y)) }
    ensures not { (s : Sight) (asked : Option Kind) (at : Span) (a : ExprTree) (x : Cl) → SaysClaim s a x
        → Says s asked (ExprTree.node at (ExprForm.not a)) (said_claim (te.Not x)) }
    ensures or { (s : Sight) (asked : Option Kind) (at : Span) (es : ExprTrees) (xs : Cls) → SaysClaims s es xs
        → Says s asked (ExprTree.node at (ExprForm.or es)) (said_claim (te.Or xs)) }
    ensures and { (s : Sight) (asked : Option Kind) (at : Span) (es : ExprTrees) (xs : Cls) → SaysClaims s es xs
        → Says s asked (ExprTree.node at (ExprForm.and es)) (said_claim (te.And xs)) }
    ensures none { (s : Sight) → SaysClaims s ExprTrees.no_exprs no_cl }
    ensures more { (s : Sight) (a : ExprTree) (es : ExprTrees) (x : Cl) (xs : Cls) → SaysClaim s a x
        → SaysClaims s es xs → SaysClaims s (ExprTrees.more_exprs a es) (also_cl x xs) }
{}

/// Quantifiers.
pub fn quantifiers_are_said()
    ensures forall { (s : Sight) (asked : Option Kind) (at : Span) (p : ParamTree) (e : ExprTree) (ty : Ty) (y : Cl)
        → IsTyOf s.tables (kind_of s.tables.names (param_type p)) ty → SaysClaim (under_quantifier s p) e y
        → Says s asked (ExprTree.node at (ExprForm.forall p e)) (said_claim (te.All ty y)) }
    ensures exists { (s : Sight) (asked : Option Kind) (at : Span) (p : ParamTree) (e : ExprTree) (ty : Ty) (y : Cl)
        → IsTyOf s.tables (kind_of s.tables.names (param_type p)) ty → SaysClaim (under_quantifier s p) e y
        → Says s asked (ExprTree.node at (ExprForm.exists p e)) (said_claim (te.Any ty y)) }
{}

/// Comparisons.
pub fn comparisons_are_said()
    ensures { (s : Sight) (asked : Option Kind) (at : Span) (c : CompareOp) (a b : ExprTree) (x y : Te)
        → SaysTerm s (left_want s.tables.names (vars_of s.vars) c a b).asked a x
        → SaysTerm s (right_want s.tables.names (vars_of s.vars) c a b).asked b y
        → Says s asked (ExprTree.node at (ExprForm.compare c a b)) (said_claim (compared c x y)) }
{}

/// Sums and differences.
pub fn numbers_are_said()
    ensures plus { (s : Sight) (asked : Option Kind) (at : Span) (a b : ExprTree) (x y : Te)
        → SaysTerm s (Some int_kind) a x → SaysTerm s (Some int_kind) b y
        → SaysTerm s asked (ExprTree.node at (ExprForm.plus a b)) (te.Sum x y) }
    ensures minus { (s : Sight) (asked : Option Kind) (at : Span) (a b : ExprTree) (x y : Te)
        → SaysTerm s (Some int_kind) a x → SaysTerm s (Some int_kind) b y
        → SaysTerm s asked (ExprTree.node at (ExprForm.minus a b)) (te.Difference x y) }
{}

/// What has no parts but one at most.
pub fn atoms_are_said()
    ensures int { (s : Sight) (asked : Option Kind) (at : Span) (n : ℤ)
        → SaysTerm s asked (ExprTree.node at (ExprForm.int n)) (te.Int n) }
    ensures str { (s : Sight) (asked : Option Kind) (at : Span) (bytes : List ℕ)
        → SaysTerm s asked (ExprTree.node at (ExprForm.str bytes)) (te.Str bytes) }
    ensures truth { (s : Sight) (asked : Option Kind) (at : Span) (b : Bool)
        → SaysTerm s asked (ExprTree.node at (ExprForm.truth b)) (te.Con (if b then 1 else 0) no_te) }
    ensures unreturned { (s : Sight) (asked : Option Kind) (at : Span)
        → SaysTerm s asked (ExprTree.node at ExprForm.unreturned) te.Unreturned }
    ensures tx { (s : Sight) (asked : Option Kind) (at : Span)
        → SaysTerm s asked (ExprTree.node at ExprForm.tx) (te.OpTerm 0 no_te) }
    ensures none { (s : Sight) (asked : Option Kind) (at : Span) (con : ℕ)
        → IsNumber (con_number s.tables (none_kind asked) word_none) con
        → SaysTerm s asked (ExprTree.node at ExprForm.none_word) (te.Con con no_te) }
    ensures some { (s : Sight) (asked : Option Kind) (at : Span) (a : ExprTree) (con : ℕ) (x : Te)
        → IsNumber (con_number s.tables
        (form_type s.tables.names (vars_of s.vars) asked (ExprForm.some_of a)) word_some) con
        → SaysTerm s (asked_inside asked) a x
        → SaysTerm s asked (ExprTree.node at (ExprForm.some_of a)) (te.Con con (also_te x no_te)) }
{}

/// Plain terms one after another.
pub fn terms_are_said()
    ensures none { (s : Sight) (ks : List Kind) → SaysTerms s ks ExprTrees.no_exprs no_te }
    ensures more { (s : Sight) (k : Kind) (ks : List Kind) (a : ExprTree) (es : ExprTrees) (x : Te) (xs : Tes)
        → SaysTerm s (Some k) a x → SaysTerms s ks es xs
        → SaysTerms s (k ∷ ks) (ExprTrees.more_exprs a es) (also_te x xs) }
    ensures further { (s : Sight) (a : ExprTree) (es : ExprTrees) (made : Tes)
        → SaysTerms s [] (ExprTrees.more_exprs a es) made }
{}

/// Words on calls and invocations.
pub fn words_are_said()
    ensures { (s : Sight) (asked : Option Kind) (at : Span) (w : CallWord) (es : ExprTrees) (xs : Tes) (made : Said)
        → SaysTerms s (word_args s.tables.names (vars_of s.vars) w es) es xs → word_of w xs ≡ Some made
        → Says s asked (ExprTree.node at (ExprForm.call w es)) made }
{}

/// Matches, and arms one after another.
pub fn matches_are_said()
    ensures match_is { (s : Sight) (asked : Option Kind) (at : Span) (a : ExprTree) (arms : ExprArmTrees) (x : Te) (made : ClArms)
        → SaysTerm s None a x → SaysArms s (type_of s.tables.names (vars_of s.vars) None a) arms made
        → Says s asked (ExprTree.node at (ExprForm.match a arms)) (said_claim (te.Match x made)) }
    ensures none { (s : Sight) (k : Kind) → SaysArms s k ExprArmTrees.no_expr_arms no_cl_arm }
    ensures more { (s : Sight) (k : Kind) (p : PatternTree) (e : ExprTree) (arms : ExprArmTrees) (con binds : ℕ)
        (body : Cl) (rest : ClArms) → IsNumber (arm_number s.tables k p) con → binds ≡ length (pattern_vars p)
        → SaysClaim (under_pattern s k p) e body → SaysArms s k arms rest
        → SaysArms s k (ExprArmTrees.more_expr_arms (ExprArmTree.arm p e) arms)
        (also_cl_arm con binds body rest) }
{}

/// The keys on a path, and the arguments in parentheses.
pub fn paths_are_said()
    ensures none { (s : Sight) (ks : List Kind) → SaysKeys s ks StepTrees.no_steps no_te }
    ensures further { (s : Sight) (a : ExprTree) (steps : StepTrees) (made : Tes)
        → SaysKeys s [] (StepTrees.more_steps (StepTree.key a) steps) made }
    ensures key { (s : Sight) (k : Kind) (ks : List Kind) (a : ExprTree) (steps : StepTrees) (x : Te) (xs : Tes)
        → SaysTerm s (Some k) a x → SaysKeys s ks steps xs
        → SaysKeys s (k ∷ ks) (StepTrees.more_steps (StepTree.key a) steps) (also_te x xs) }
    ensures dot { (s : Sight) (ks : List Kind) (x : Ident) (steps : StepTrees) (xs : Tes) → SaysKeys s ks steps xs
        → SaysKeys s ks (StepTrees.more_steps (StepTree.dot x) steps) xs }
    ensures returned { (s : Sight) (ks : List Kind) (at : Span) (steps : StepTrees) (xs : Tes)
        → SaysKeys s ks steps xs
        → SaysKeys s ks (StepTrees.more_steps (StepTree.returned at) steps) xs }
    ensures absent { (s : Sight) (ks : List Kind) → SaysArgs s ks ArgTrees.absent no_te }
    ensures given { (s : Sight) (ks : List Kind) (es : ExprTrees) (xs : Tes) → SaysTerms s ks es xs
        → SaysArgs s ks (ArgTrees.given es) xs }
{}

/// Accesses, by what they call.
pub fn accesses_are_said()
    ensures call { (s : Sight) (asked : Option Kind) (at : Span) (x : Ident) (steps : StepTrees) (args : ArgTrees)
        (c : Called Known) (keys made : Tes) (said : Said)
        → called s.tables s.vars (AccessTree.path x steps args) ≡ Some c → SaysKeys s c.keys steps keys
        → SaysArgs s c.args args made → IsCall s.uses c.what (append keys made) said
        → Says s asked (ExprTree.node at (ExprForm.access (AccessTree.path x steps args))) said }
    ensures nothing { (s : Sight) (asked : Option Kind) (at : Span) (x : Ident) (steps : StepTrees) (args : ArgTrees)
        (said : Said) → called s.tables s.vars (AccessTree.path x steps args) ≡ None
        → Says s asked (ExprTree.node at (ExprForm.access (AccessTree.path x steps args))) said }
{}
