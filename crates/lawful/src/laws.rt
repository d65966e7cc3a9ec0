//! Laws of the definitions. The functions do nothing; what they ensure is proved.

ghost use Rattle.std.specs.Prelude.{◌≡◌, ℕ, Bool, true, false, nat_eq, nat_lt, List, [], length, map, Option, Some, is_some, slice_get};
ghost use Rattle.std.specs.List.{AllByRecursion, IsDistinct, list_all};
ghost use Rattle.rp_span.specs.declared.Span.{Span};
ghost use Rattle.rp_value.specs.declared.tables.Ty.{Ty};
ghost use Rattle.rp_grammar.specs.Trees.{Ident, PatternTree, StepTrees, ExprTree, ExprArmTrees, DeclTree};
ghost use Rattle.rp_grammar.specs.Texts.{IsText};
ghost use Rattle.rp_lang.specs.Exprs.{Ex};
ghost use Rattle.rp_lang.specs.Formulas.{Arms};
ghost use Rattle.rp_lang.specs.Programs.{Inv, Prog};
ghost use Rattle.rp_lang.specs.WellFormed.{is_well_formed, returns_a_value};
ghost use Rattle.rp_lang.specs.Types.{are_numbered, are_ordinary_fields, bool_ty, datatype_of, fields_of, has_bool};
ghost use Rattle.rp_lang.specs.Typing.{Frame, are_cases, arm_cons, in_invariant, is_range, is_typed, op_args};
ghost use Rattle.type_rules.specs.declared.kind.Kind.{Kind as TheKind};
ghost use Rattle.type_rules.specs.Names.{Name, Entry, same_name, text_of, type_named, type_number, entry_named};
ghost use Rattle.type_rules.specs.Kinds.{bool_kind, named_kind};
ghost use Rattle.type_rules.specs.Accesses.{of_entry};
ghost use Rattle.type_rules.specs.Typing.{type_of};
ghost use Rattle.type_rules.specs.Queries.{names_of};
ghost use Rattle.type_rules.specs.DeclSites.{proc_sites};
ghost use Rattle.type_rules.specs.Sites.{Scope, Want, Site};
ghost use Rattle.type_rules.specs.Matches.{pattern_name, pattern_vars, pattern_kinds};
ghost use Rattle.type_rules.specs.ExprSites.{expr_sites, arm_names, arm_sites};
ghost use Rattle.type_rules.specs.Rules.{is_datatype, is_datatype_kind, is_query};
ghost use Rattle.type_rules.specs.Faults.{IsLawful};
ghost use Rattle.desugaring.specs.Tables.{Tables, tables_of, con_table, con_number, arm_number, ty_of};
ghost use Rattle.desugaring.specs.Values.{Value};
ghost use Rattle.desugaring.specs.Callees.{Vars, vars_of, Called, of_access};
ghost use Rattle.desugaring.specs.Meanings.{Means, ArmsMean};
ghost use Rattle.desugaring.specs.Limits.{HasProgram};
ghost use Rattle.desugaring.specs.Parts.{Pointwise};
ghost use Rattle.desugaring.specs.Programs.{IsProgramOf, ProcDecl, procs_from};
ghost use Rattle.lawful.specs.Kept.{Kept, AllKept, may_speak};
ghost use Rattle.lawful.specs.Slots.{FlowsThrough};
ghost use Rattle.lawful.specs.Typed.{Tied, Stands, Good, IsCon, IsCall};

/// What an expression of a lawful place becomes is typed in the program, where the program has the
/// tables of the text.
pub fn expressions_are_typed()
    ensures { (t : Tables) (p : Prog) (words : ℕ → Bool) → Tied t p words → (f : Frame) → f.reads ≡ true
        → (bs : List Ty) (b : ℕ) (vs : Vars) (asked : Option TheKind) (e : ExprTree) (v : Value)
        → Means t b vs asked e v → (sc : Scope) (w : Want) → w.asked ≡ asked
        → Stands t p words f bs vs sc → AllKept t.names words (expr_sites t.names sc w e)
        → Good t p f bs (is_some w.across) (type_of t.names (vars_of vs) asked e) v }
{}

/// The numbers of constructors, in terms and in arms, are those of their types' constructors.
pub fn constructors_are_typed()
    ensures terms { (t : Tables) (p : Prog) → con_table t ≡ Some p.cons → (k : TheKind) (x : Name) (con : ℕ)
        → con_number t k x ≡ Some con → IsCon t p k x con }
    ensures arms { (t : Tables) (p : Prog) → con_table t ≡ Some p.cons → (k : TheKind) (q : PatternTree) (con : ℕ)
        → arm_number t k q ≡ Some con → IsCon t p k (pattern_name q) con }
    ensures variables { (t : Tables) (p : Prog) → con_table t ≡ Some p.cons → (k : TheKind) (q : PatternTree) (con : ℕ)
        → arm_number t k q ≡ Some con
        → nat_eq (length (pattern_kinds t.names k (pattern_name q))) (length (pattern_vars q)) ≡ true }
{}

/// The arms of a lawful `match` are those of the matched datatype, each once.
pub fn arms_are_complete()
    ensures { (tree : List DeclTree) (p : Prog) → IsProgramOf tree p → (words : ℕ → Bool) (b : ℕ) (vs : Vars)
        (k : TheKind) (of : Ty) (arms : ExprArmTrees) (made : Arms) (at : Span) (sc : Scope)
        → ty_of (tables_of tree) k ≡ Some of → is_datatype_kind (names_of tree) k ≡ true
        → ArmsMean (tables_of tree) b vs k arms made → Kept (names_of tree) words (Site.arms at k (arm_names arms))
        → AllKept (names_of tree) words (arm_sites (names_of tree) sc k [] arms)
        → are_cases p (Some of) (arm_cons made) ≡ true }
{}

/// Datatype 0 is `Bool`, constructors 0 and 1 are its own, and operation 0 is `tx`.
pub fn first_entries()
    ensures bools { (tree : List DeclTree) (p : Prog) → IsProgramOf tree p → ty_of (tables_of tree) bool_kind ≡ Some bool_ty }
    ensures no { (tree : List DeclTree) (p : Prog) → IsProgramOf tree p
        → (datatype_of p.cons 0 ≡ Some bool_ty) × (fields_of p.cons 0 ≡ []) }
    ensures yes { (tree : List DeclTree) (p : Prog) → IsProgramOf tree p
        → (datatype_of p.cons 1 ≡ Some bool_ty) × (fields_of p.cons 1 ≡ []) }
    ensures truths { (tree : List DeclTree) (p : Prog) → IsProgramOf tree p → has_bool p.types p.cons ≡ true }
    ensures markers { (tree : List DeclTree) (p : Prog) → IsProgramOf tree p
        → (nat_lt 0 (length p.ops) ≡ true) × (op_args (slice_get p.ops 0) ≡ []) }
{}

/// A type that is named and is no datatype has a number in the program's table, wherever it is asked.
pub fn named_types_are_ranges()
    ensures { (tree : List DeclTree) (p : Prog) → IsProgramOf tree p → (x : Name) (of : Ty)
        → is_datatype (type_named (names_of tree) x) ≡ false
        → ty_of (tables_of tree) (named_kind (type_number (names_of tree) x)) ≡ Some of
        → (f : Frame) → is_range p f of ≡ true }
{}

/// The names of a lawful tree's roots, queries, procedures and constructors differ.
pub fn names_differ()
    ensures { (tree : List DeclTree) → IsLawful tree
        → IsDistinct (λ x y. same_name y x) (map (λ (e : Entry). e.name) (names_of tree).entries) }
{}

/// What an access calls takes arguments of the types that the rules ask for and gives what they
/// say: a constructor, a procedure, what it returned, an operation and a query of the store.
pub fn calls_are_typed()
    ensures { (tree : List DeclTree) (p : Prog) → IsProgramOf tree p → (words : ℕ → Bool) (vs : Vars) (x : Ident)
        (steps : StepTrees) (c : Called Ex)
        → of_access (tables_of tree) vs x steps (of_entry (names_of tree) x steps (entry_named (names_of tree) (text_of x))) ≡ Some c
        → ((e : Entry) → entry_named (names_of tree) (text_of x) ≡ Some e → is_query e.what ≡ false)
        → IsCall (tables_of tree) p words (entry_named (names_of tree) (text_of x)) x steps c }
{}

/// The program of a lawful text has the tables of the text: what an access calls is typed as the
/// rules ask for it, uses of the text's own queries too.
pub fn tables_are_tied()
    ensures { (bytes : List ℕ) (tree : List DeclTree) → IsText bytes tree → (p : Prog) → IsProgramOf tree p
        → Tied (tables_of tree) p (may_speak tree) }
{}

/// In the program of a lawful text every procedure with a result returns on every path.
pub fn results_are_returned()
    ensures { (tree : List DeclTree) (p : Prog) → IsProgramOf tree p → list_all returns_a_value p.procs ≡ true }
{}

/// Where a variable has a value on every path through a procedure, its slot is set on every path.
pub fn values_flow_alike()
    ensures { (bytes : List ℕ) (tree : List DeclTree) → IsText bytes tree → (p : Prog) → IsProgramOf tree p
        → Pointwise (FlowsThrough (names_of tree)) (procs_from 0 tree) p.procs }
{}

/// The invariants of a lawful text are typed in its program.
pub fn invariants_are_typed()
    ensures { (bytes : List ℕ) (tree : List DeclTree) → IsText bytes tree → (p : Prog) → IsProgramOf tree p
        → list_all (λ (inv : Inv). is_typed p in_invariant [] inv.body) p.invs ≡ true }
{}

/// The constructors of each datatype of a lawful text's program are the next ones, in order, one or more.
pub fn constructors_are_numbered()
    ensures { (bytes : List ℕ) (tree : List DeclTree) → IsText bytes tree → (p : Prog) → IsProgramOf tree p
        → are_numbered p.cons 0 0 p.types.datatypes ≡ true }
{}

/// The program of a lawful text, where it passes no limit, is well formed.
pub fn programs_are_well_formed()
    ensures { (bytes : List ℕ) (tree : List DeclTree) → IsText bytes tree → (p : Prog) → HasProgram tree p
        → is_well_formed p ≡ true }
{}

/// The fields of the constructors of a lawful text's program are of types of data.
pub fn fields_are_ordinary()
    ensures { (tree : List DeclTree) (p : Prog) → IsProgramOf tree p → are_ordinary_fields p.types p.cons ≡ true }
{}

/// At each place of a procedure of a lawful text no rule is broken, its number fits, and a use is of
/// a query that doesn't speak of calls.
pub fn places_are_kept()
    ensures { (bytes : List ℕ) (tree : List DeclTree) → IsText bytes tree → IsLawful tree
        → AllByRecursion
        (λ (d : ProcDecl). AllKept (names_of tree) (may_speak tree) (proc_sites (names_of tree) d.decl d.tree)) (procs_from 0 tree) }
{}
