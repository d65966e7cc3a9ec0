//! What small statements become, a function for each row of the table. Each function is a law: its
//! clauses compute. The statements stand in slots from 5 on; statement k has the span from k to k + 1.

ghost use Rattle.std.specs.Prelude.{◌≡◌, [], ◌∷◌, codes, pos, Some, None};
ghost use Rattle.rp_grammar.specs.declared.operator.CompareOp.TheVariants as compare;
ghost use Rattle.rp_grammar.specs.Trees.{StmtForm, ElseTree};
ghost use Rattle.rp_lang.specs.Exprs.{Slot, Int, Con, Plus, Query, no_ex};
ghost use Rattle.rp_lang.specs.Formulas.{Holds, Less};
ghost use Rattle.rp_lang.specs.Stmts.{Put, Decide, New, Operate, If, Match, Atomic, Assert, Return, ReturnWith, no_st, also_st, no_st_arm, also_st_arm};
ghost use Rattle.type_rules.specs.Kinds.{bool_kind, int_kind, maybe_of};
ghost use Rattle.desugaring.specs.Values.{one_ex};
ghost use Rattle.desugaring.specs.Statements.{made, one_st};
ghost use Rattle.desugaring.specs.rows.Rows.{becomes, id, int, bool, maybe, type_of_ids, var, number, comparison, plus, last_get, users_contains, u, n, b, id_kind, st, body, declared, declared_as, assigned, asserted, atomic, users_add, branch, match_maybe, returns, from, block_of, two};

/// A declaration is no statement, and one with a value is the assignment of it. It is `Put` for a
/// plain term and `Decide` elsewhere, and stands in an atomic block of its own where it reads the
/// store outside one.
pub fn declarations()
    ensures alone { becomes None (declared 0 (codes "x") int ∷ []) ≡ Some (made no_st (int_kind ∷ [])) }
    ensures term { becomes None (declared_as 0 (codes "x") int (plus n (number (pos 3))) ∷ []) ≡ Some (made (one_st (Put (from 0) 5 (Plus (Slot 1) (pos 3)))) (int_kind ∷ [])) }
    ensures formula { becomes None (declared_as 0 (codes "x") bool (comparison compare.Less n n) ∷ []) ≡ Some (made (one_st (Decide (from 0) 5 (Less (Slot 1) (Slot 1)))) (bool_kind ∷ [])) }
    ensures reading_term { becomes None (declared_as 0 (codes "x") (maybe int) last_get ∷ []) ≡ Some (made (one_st (block_of 0 (Put (from 0) 5 (Query 1 no_ex)))) (maybe_of int_kind ∷ [])) }
    ensures reading_formula { becomes None (declared_as 0 (codes "x") bool (users_contains u) ∷ []) ≡ Some (made (one_st (block_of 0 (Decide (from 0) 5 (Holds (Query 0 (one_ex (Slot 0))))))) (bool_kind ∷ [])) }
    ensures two_slots { becomes None (declared 0 (codes "x") int ∷ declared_as 1 (codes "y") int (var (codes "n")) ∷ assigned 2 (codes "x") (var (codes "y")) ∷ []) ≡ Some (made (two (Put (from 1) 6 (Slot 1)) (Put (from 2) 5 (Slot 6))) (int_kind ∷ int_kind ∷ [])) }
{}

/// What stands inside `atomic` reads the store in place.
pub fn atomic_blocks()
    ensures assignment { becomes None (declared 0 (codes "x") bool ∷ atomic 1 (assigned 2 (codes "x") (users_contains u) ∷ []) ∷ []) ≡ Some (made (one_st (block_of 1 (Decide (from 2) 5 (Holds (Query 0 (one_ex (Slot 0))))))) (bool_kind ∷ [])) }
    ensures operation { becomes None (atomic 0 (users_add 1 ∷ []) ∷ []) ≡ Some (made (one_st (block_of 0 (Operate (from 1) 1 (one_ex (Slot 0))))) []) }
    ensures condition { becomes None (atomic 0 (branch 1 (users_contains u) (users_add 2 ∷ []) [] ∷ []) ∷ []) ≡ Some (made (one_st (block_of 0 (If (from 1) (Holds (Query 0 (one_ex (Slot 0)))) (one_st (Operate (from 2) 1 (one_ex (Slot 0)))) no_st))) []) }
{}

/// An operation outside `atomic` is an atomic block of its own; `new` isn't.
pub fn operations()
    ensures outside { becomes None (users_add 0 ∷ []) ≡ Some (made (one_st (block_of 0 (Operate (from 0) 1 (one_ex (Slot 0))))) []) }
    ensures new_id { becomes None (declared 0 (codes "x") type_of_ids ∷ st 1 (StmtForm.new (id (codes "x")) (id (codes "U"))) ∷ []) ≡ Some (made (one_st (New (from 1) 5 0)) (id_kind ∷ [])) }
{}

/// An assertion that reads the store outside `atomic` is an atomic block of its own.
pub fn assertions()
    ensures plain { becomes None (asserted 0 b ∷ []) ≡ Some (made (one_st (Assert (from 0) (Holds (Slot 2)))) []) }
    ensures reading { becomes None (asserted 0 (users_contains u) ∷ []) ≡ Some (made (one_st (block_of 0 (Assert (from 0) (Holds (Query 0 (one_ex (Slot 0))))))) []) }
{}

/// A condition that reads the store outside `atomic` is put into a hidden slot first, which comes
/// before the slots inside.
pub fn conditions()
    ensures plain { becomes None (branch 0 b (declared 1 (codes "x") int ∷ []) (declared 2 (codes "y") bool ∷ []) ∷ []) ≡ Some (made (one_st (If (from 0) (Holds (Slot 2)) no_st no_st)) (int_kind ∷ bool_kind ∷ [])) }
    ensures reading { becomes None (branch 0 (users_contains u) (declared_as 1 (codes "x") int n ∷ []) (declared_as 2 (codes "y") int n ∷ []) ∷ [])
        ≡ Some (made (two (block_of 0 (Decide (from 0) 5 (Holds (Query 0 (one_ex (Slot 0)))))) (If (from 0) (Holds (Slot 5)) (one_st (Put (from 1) 6 (Slot 1))) (one_st (Put (from 2) 7 (Slot 1))))) (bool_kind ∷ int_kind ∷ int_kind ∷ [])) }
    ensures else_if { becomes None (st 0 (StmtForm.if_ b (body []) (ElseTree.else_if (branch 1 (users_contains u) [] []))) ∷ [])
        ≡ Some (made (one_st (If (from 0) (Holds (Slot 2)) no_st (two (block_of 1 (Decide (from 1) 5 (Holds (Query 0 (one_ex (Slot 0)))))) (If (from 1) (Holds (Slot 5)) no_st no_st)))) (bool_kind ∷ [])) }
    ensures match_on_a_variable { becomes None (match_maybe 0 (var (codes "o")) (asserted 1 (comparison compare.Less (var (codes "x")) n) ∷ []) ∷ [])
        ≡ Some (made (one_st (Match (from 0) (Slot 4) (also_st_arm 4 [] no_st (also_st_arm 5 (5 ∷ []) (one_st (Assert (from 1) (Less (Slot 5) (Slot 1)))) no_st_arm)))) (int_kind ∷ [])) }
    ensures reading_match { becomes None (match_maybe 0 last_get (declared 1 (codes "y") int ∷ []) ∷ [])
        ≡ Some (made (two (block_of 0 (Put (from 0) 5 (Query 1 no_ex))) (Match (from 0) (Slot 5) (also_st_arm 4 [] no_st (also_st_arm 5 (6 ∷ []) no_st no_st_arm)))) (maybe_of int_kind ∷ int_kind ∷ int_kind ∷ [])) }
{}

/// A returned value that reads the store, or that is no plain term, goes through a hidden slot.
pub fn returned_values()
    ensures nothing { becomes None (st 0 (StmtForm.return None) ∷ []) ≡ Some (made (one_st (Return (from 0))) []) }
    ensures term { becomes (Some int_kind) (returns 0 n ∷ []) ≡ Some (made (one_st (ReturnWith (from 0) (Slot 1))) []) }
    ensures reading_term { becomes (Some (maybe_of int_kind)) (returns 0 last_get ∷ []) ≡ Some (made (two (block_of 0 (Put (from 0) 5 (Query 1 no_ex))) (ReturnWith (from 0) (Slot 5))) (maybe_of int_kind ∷ [])) }
    ensures formula { becomes (Some bool_kind) (returns 0 (comparison compare.Less n n) ∷ []) ≡ Some (made (two (Decide (from 0) 5 (Less (Slot 1) (Slot 1))) (ReturnWith (from 0) (Slot 5))) (bool_kind ∷ [])) }
    ensures reading_formula { becomes (Some bool_kind) (returns 0 (users_contains u) ∷ []) ≡ Some (made (two (block_of 0 (Decide (from 0) 5 (Holds (Query 0 (one_ex (Slot 0)))))) (ReturnWith (from 0) (Slot 5))) (bool_kind ∷ [])) }
    ensures variable { becomes (Some bool_kind) (returns 0 b ∷ []) ≡ Some (made (one_st (ReturnWith (from 0) (Slot 2))) []) }
{}
