//! Which programs small trees have. Each function is a law: its clauses compute.

ghost use Rattle.std.specs.Prelude.{◌≡◌, true, Some, None, [], ◌∷◌, codes, pos, negsuc};
ghost use Rattle.rp_grammar.specs.declared.operator.CompareOp.TheVariants as compare;
ghost use Rattle.rp_grammar.specs.declared.operator.CallWord.TheVariants as called;
ghost use Rattle.rp_grammar.specs.Trees.{ExprForm, exprs};
ghost use Rattle.rp_lang.specs.Exprs.{Slot, Bound, Int, Con, Plus, Add, Sub, Query, OpOf, OpTerm, OriginOf, InfoOf, InfoTerm, ResultOf, ResultTerm, ResultWith, Unreturned, no_ex};
ghost use Rattle.rp_lang.specs.Formulas.{And, Or, Not, Implies, All, Any, Holds, Equal, Less, AtMost, Visible, Before, Same, Match, no_fo, also_fo, no_arm, also_arm};
ghost use Rattle.rp_value.specs.declared.tables.Ty.TheVariants as ty;
ghost use Rattle.rp_lang.specs.declared.op.OpKind.TheVariants as kind;
ghost use Rattle.rp_lang.specs.declared.query.QueryKind.TheVariants as asked;
ghost use Rattle.type_rules.specs.Kinds.{bool_kind, int_kind, maybe_of};
ghost use Rattle.desugaring.specs.Tables.{type_table, con_table, op_table, query_table};
ghost use Rattle.desugaring.specs.rows.Rows.{tables, data_kind, con, op, asks, hits, seen};
ghost use Rattle.desugaring.specs.rows.Rows.{means, ex, var, number, call, comparison, word, plus, minus, some, none, true_word, for_ids, for_calls, for_invocations, match_d, use_of, at_hits, at_seen, returned, last_get, users_contains, both_ex, u, n, b, o, c, i};
ghost use Rattle.desugaring.specs.Values.{term, formula, one_ex};
ghost use Rattle.rp_lang.specs.rows.Samples as sample;
ghost use Rattle.desugaring.specs.rows.SetTrees as tree;
ghost use Rattle.rp_grammar.specs.rows.Rows.{tautology_tree};
ghost use Rattle.rp_lang.specs.FirstForm.{over_truth_values};
ghost use Rattle.type_rules.specs.Faults.{first_fault};
ghost use Rattle.desugaring.specs.Programs.{program_of};
ghost use Rattle.desugaring.specs.Limits.{first_limit};
ghost use Rattle.desugaring.specs.rows.Rows as row;

/// A procedure over a truth value, and the two programs over sets of ids: lawful trees, and their
/// programs, which pass no limit.
pub fn whole_programs()
    ensures tautology { program_of tautology_tree ≡ Some (over_truth_values (row.tautology ∷ [])) }
    ensures removes { program_of tree.removes_users ≡ Some sample.removes_users }
    ensures keeps { program_of tree.keeps_users ≡ Some sample.keeps_users }
    ensures tautology_lawful { first_fault tautology_tree ≡ None }
    ensures removes_lawful { first_fault tree.removes_users ≡ None }
    ensures keeps_lawful { first_fault tree.keeps_users ≡ None }
    ensures removes_within { first_limit sample.removes_users ≡ None }
    ensures keeps_within { first_limit sample.keeps_users ≡ None }
{}

/// The numbers of a text: datatypes with `Bool` first and the `Maybe` type of a register where that
/// stands, operations behind `tx`, and queries, a type's own before those inside it.
pub fn numbers()
    ensures datatypes { tables.datatypes ≡ bool_kind ∷ data_kind ∷ maybe_of int_kind ∷ [] }
    ensures types { type_table tables ≡ record { atoms = record { name = codes "U"; is_id = true } ∷ []; datatypes = record { name = codes "Bool"; cons = 0 ∷ 1 ∷ [] } ∷ record { name = codes "D"; cons = 2 ∷ 3 ∷ [] } ∷ record { name = codes "Maybe[Int]"; cons = 4 ∷ 5 ∷ [] } ∷ [] } }
    ensures constructors { con_table tables ≡ Some (record { cons = con (codes "false") 0 [] ∷ con (codes "true") 0 [] ∷ con (codes "nothing") 1 [] ∷ con (codes "both") 1 (ty.Int ∷ ty.Datatype 0 ∷ []) ∷ con (codes "none") 2 [] ∷ con (codes "some") 2 (ty.Int ∷ []) ∷ [] }) }
    ensures operations { op_table tables ≡ Some (op 0 [] kind.Tx [] ∷ op 0 [] kind.Add (ty.Atom 0 ∷ []) ∷ op 0 [] kind.Remove (ty.Atom 0 ∷ []) ∷ op 1 [] kind.Assign (ty.Int ∷ []) ∷ op 2 [] kind.Delete (ty.Atom 0 ∷ []) ∷ op 2 hits kind.Increment (ty.Atom 0 ∷ ty.Int ∷ []) ∷ op 2 seen kind.Add (ty.Atom 0 ∷ ty.Int ∷ []) ∷ op 2 seen kind.Remove (ty.Atom 0 ∷ ty.Int ∷ []) ∷ []) }
    ensures queries { query_table tables ≡ Some (asks 0 [] asked.Contains (ty.Atom 0 ∷ []) (ty.Datatype 0) ∷ asks 1 [] asked.GetReg [] (ty.Datatype 2) ∷ asks 2 [] asked.HasKey (ty.Atom 0 ∷ []) (ty.Datatype 0) ∷ asks 2 hits asked.GetSum (ty.Atom 0 ∷ []) ty.Int ∷ asks 2 seen asked.Contains (ty.Atom 0 ∷ ty.Int ∷ []) (ty.Datatype 0) ∷ []) }
{}

/// `e + 3` and `e - 3` are `Plus`, and so is `3 + e` where e is no literal.
pub fn sums()
    ensures literal_behind { means (Some int_kind) (plus n (number (pos 3))) ≡ Some (term (Plus (Slot 1) (pos 3))) }
    ensures literal_taken { means (Some int_kind) (minus n (number (pos 3))) ≡ Some (term (Plus (Slot 1) (negsuc 2))) }
    ensures literal_in_front { means (Some int_kind) (plus (number (pos 3)) n) ≡ Some (term (Plus (Slot 1) (pos 3))) }
    ensures two_literals { means (Some int_kind) (plus (number (pos 3)) (number (pos 4))) ≡ Some (term (Plus (Int (pos 3)) (pos 4))) }
    ensures no_literal { means (Some int_kind) (plus n n) ≡ Some (term (Add (Slot 1) (Slot 1))) }
    ensures taken_from_a_literal { means (Some int_kind) (minus (number (pos 3)) n) ≡ Some (term (Sub (Int (pos 3)) (Slot 1))) }
{}

/// `!=` is a negation, and `>` and `>=` are turned round.
pub fn comparisons()
    ensures equal { means None (comparison compare.Equal n (number (pos 3))) ≡ Some (formula (Equal (Slot 1) (Int (pos 3)))) }
    ensures not_equal { means None (comparison compare.NotEqual n (number (pos 3))) ≡ Some (formula (Not (Equal (Slot 1) (Int (pos 3))))) }
    ensures less { means None (comparison compare.Less n (number (pos 3))) ≡ Some (formula (Less (Slot 1) (Int (pos 3)))) }
    ensures at_most { means None (comparison compare.AtMost n (number (pos 3))) ≡ Some (formula (AtMost (Slot 1) (Int (pos 3)))) }
    ensures greater { means None (comparison compare.Greater n (number (pos 3))) ≡ Some (formula (Less (Int (pos 3)) (Slot 1))) }
    ensures at_least { means None (comparison compare.AtLeast n (number (pos 3))) ≡ Some (formula (AtMost (Int (pos 3)) (Slot 1))) }
    ensures none_behind { means None (comparison compare.Equal o none) ≡ Some (formula (Equal (Slot 4) (Con 4 no_ex))) }
    ensures none_in_front { means None (comparison compare.Equal none o) ≡ Some (formula (Equal (Con 4 no_ex) (Slot 4))) }
    ensures some_of_a_term { means None (comparison compare.Equal (some n) o) ≡ Some (formula (Equal (Con 5 (one_ex (Slot 1))) (Slot 4))) }
    ensures unasked { means None none ≡ None }
{}

/// Connectives, quantifiers and arms; a term of type `Bool` is a formula where one is asked.
pub fn formulas()
    ensures implication { means None (ex (ExprForm.implies b b)) ≡ Some (formula (Implies (Holds (Slot 2)) (Holds (Slot 2)))) }
    ensures disjunction { means None (ex (ExprForm.or (exprs (b ∷ true_word ∷ [])))) ≡ Some (formula (Or (also_fo (Holds (Slot 2)) (also_fo (Holds (Con 1 no_ex)) no_fo)))) }
    ensures conjunction { means None (ex (ExprForm.and (exprs (b ∷ b ∷ [])))) ≡ Some (formula (And (also_fo (Holds (Slot 2)) (also_fo (Holds (Slot 2)) no_fo)))) }
    ensures negation { means None (ex (ExprForm.not b)) ≡ Some (formula (Not (Holds (Slot 2)))) }
    ensures variable { means (Some bool_kind) b ≡ Some (term (Slot 2)) }
    ensures quantifiers { means None (for_ids (codes "x") (for_ids (codes "y") (comparison compare.Equal (var (codes "x")) (var (codes "y"))))) ≡ Some (formula (All (ty.Atom 0) (All (ty.Atom 0) (Equal (Bound 1) (Bound 0))))) }
    ensures last_field { means None (match_d (var (codes "y"))) ≡ Some (formula (Match (Slot 3) (also_arm 2 (Holds (Con 1 no_ex)) (also_arm 3 (Holds (Bound 0)) no_arm)))) }
    ensures first_field { means None (match_d (comparison compare.Less (var (codes "x")) n)) ≡ Some (formula (Match (Slot 3) (also_arm 2 (Holds (Con 1 no_ex)) (also_arm 3 (Less (Bound 1) (Slot 1)) no_arm)))) }
    ensures constructor { means None (call (codes "both") [] (n ∷ b ∷ [])) ≡ Some (term (Con 3 (both_ex (Slot 1) (Slot 2)))) }
    ensures without_fields { means None (var (codes "nothing")) ≡ Some (term (Con 2 no_ex)) }
{}

/// Queries of the store, and operations, procedures and outcomes beside those of calls and
/// invocations. Keys come before arguments.
pub fn records()
    ensures contains { means None (users_contains u) ≡ Some (formula (Holds (Query 0 (one_ex (Slot 0))))) }
    ensures get { means None last_get ≡ Some (term (Query 1 no_ex)) }
    ensures key { means None (at_seen (codes "contains") (n ∷ [])) ≡ Some (formula (Holds (Query 4 (both_ex (Slot 0) (Slot 1))))) }
    ensures sum { means None (at_hits (codes "get") []) ≡ Some (term (Query 3 (one_ex (Slot 0)))) }
    ensures visible { means None (for_calls (word called.Visible (c ∷ []))) ≡ Some (formula (All ty.Call (Visible (Bound 0)))) }
    ensures before { means None (for_calls (word called.Before (c ∷ c ∷ []))) ≡ Some (formula (All ty.Call (Before (Bound 0) (Bound 0)))) }
    ensures same { means None (for_calls (word called.Same (c ∷ c ∷ []))) ≡ Some (formula (All ty.Call (Same (Bound 0) (Bound 0)))) }
    ensures operation { means None (for_calls (comparison compare.Equal (word called.Op (c ∷ [])) (at_hits (codes "increment") (n ∷ [])))) ≡ Some (formula (All ty.Call (Equal (OpOf (Bound 0)) (OpTerm 5 (both_ex (Slot 0) (Slot 1)))))) }
    ensures marker { means None (for_calls (comparison compare.Equal (word called.Op (c ∷ [])) (ex ExprForm.tx))) ≡ Some (formula (All ty.Call (Equal (OpOf (Bound 0)) (OpTerm 0 no_ex)))) }
    ensures origin { means None (for_calls (comparison compare.Equal (word called.Origin (c ∷ [])) (word called.Origin (c ∷ [])))) ≡ Some (formula (All ty.Call (Equal (OriginOf (Bound 0)) (OriginOf (Bound 0))))) }
    ensures info { means None (for_invocations (comparison compare.Equal (word called.Info (i ∷ [])) (call (codes "p") [] (u ∷ [])))) ≡ Some (formula (All ty.Inv (Equal (InfoOf (Bound 0)) (InfoTerm 0 (one_ex (Slot 0)))))) }
    ensures outcome { means None (for_invocations (comparison compare.Equal (word called.Result (i ∷ [])) (returned (codes "p") (none ∷ [])))) ≡ Some (formula (All ty.Inv (Equal (ResultOf (Bound 0)) (ResultWith 0 (Con 4 no_ex))))) }
    ensures without_result { means None (for_invocations (comparison compare.Equal (word called.Result (i ∷ [])) (returned (codes "q") []))) ≡ Some (formula (All ty.Inv (Equal (ResultOf (Bound 0)) (ResultTerm 1)))) }
    ensures unreturned { means None (for_invocations (comparison compare.Equal (word called.Result (i ∷ [])) (ex ExprForm.unreturned))) ≡ Some (formula (All ty.Inv (Equal (ResultOf (Bound 0)) Unreturned))) }
{}

/// A use of a query is its body with the arguments in place of its parameters. What is a literal is
/// seen behind that, and arguments that come under a quantifier are lifted.
pub fn uses_of_queries()
    ensures term { means None (use_of (codes "inc") n) ≡ Some (term (Plus (Slot 1) (pos 3))) }
    ensures of_a_literal { means None (use_of (codes "inc") (number (pos 4))) ≡ Some (term (Plus (Int (pos 3)) (pos 4))) }
    ensures of_a_use { means None (use_of (codes "more") n) ≡ Some (term (Add (Plus (Slot 1) (pos 3)) (Slot 1))) }
    ensures of_a_use_of_a_literal { means None (use_of (codes "more") (number (pos 4))) ≡ Some (term (Plus (Plus (Int (pos 3)) (pos 4)) (pos 4))) }
    ensures formula { means None (use_of (codes "has") u) ≡ Some (formula (Holds (Query 0 (one_ex (Slot 0))))) }
    ensures slot_under_a_quantifier { means None (use_of (codes "other") u) ≡ Some (formula (Any (ty.Atom 0) (Not (Equal (Bound 0) (Slot 0))))) }
    ensures lifted { means None (for_ids (codes "x") (use_of (codes "other") (var (codes "x")))) ≡ Some (formula (All (ty.Atom 0) (Any (ty.Atom 0) (Not (Equal (Bound 0) (Bound 1)))))) }
    ensures dropped { means None (use_of (codes "drops") (at_hits (codes "get") [])) ≡ Some (term (Int (pos 0))) }
{}
