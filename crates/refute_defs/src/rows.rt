//! Worked rows of the definitions, as functions with nothing to run.
ghost use Rattle.std.specs.Prelude.{◌≡◌, ◌^◌, ◌-◌, true, false, Some, None, [], ◌∷◌, pos, negsuc};
ghost use Rattle.rp_logic.specs.Terms.{Const, Int, Plus, Le};
ghost use Rattle.rp_logic.specs.Formulas.{Lit};
ghost use Rattle.refute_defs.specs.Uses.{Unvisited, Current};
ghost use Rattle.refute_defs.specs.Parts.{equal, at_most};
ghost use Rattle.refute_defs.specs.Additions.{formula_alone, one_child};
ghost use Rattle.refute_defs.specs.Verdicts.{Accepted, Bad};
ghost use Rattle.refute_defs.specs.rows.SmallTrees.{on, of_cycle, of_difference, of_naming, of_naming_twice, of_instances, of_clash, apply, of_arguments, of_instance, of_selector, of_constructors, of_number, use_of, added, has_it, equal_both_ways, ordered_both_ways, two_conjuncts, the_atom, build, was_built, of_no_disjunct, of_two_disjuncts};

/// A cycle closes where its sum is negative.
pub fn cycle_rows()
    ensures zero { of_cycle (pos 0) ≡ Bad 0 17 }
    ensures negative { of_cycle (negsuc 0) ≡ Accepted }
{}

/// A constant of the signature isn't new, nor is one that stands on the branch.
pub fn constant_rows()
    ensures declared { of_naming 0 ≡ Bad 0 4 }
    ensures new { of_naming 1 ≡ Bad 1 6 }
    ensures used { of_naming_twice ≡ Bad 1 4 }
{}

/// An instance needs a term of the sort.
pub fn instance_rows()
    ensures unknown { of_instances [] 7 ≡ Bad 0 3 }
    ensures known { of_instances (0 ∷ []) 0 ≡ Accepted }
{}

/// A literal clashes with its own negation, in either order, and with no other.
pub fn clash_rows()
    ensures same { of_clash true 0 ≡ Accepted }
    ensures other_order { of_clash false 0 ≡ Accepted }
    ensures two_atoms { of_clash true 1 ≡ Bad 0 6 }
{}

/// Congruence needs an equality for each argument, which begins with it.
pub fn congruence_rows()
    ensures each { of_arguments (0 ∷ 0 ∷ []) (apply (Const 0) (Const 0)) ≡ Bad 1 0 }
    ensures one_missing { of_arguments (0 ∷ []) (apply (Const 0) (Const 0)) ≡ Bad 0 10 }
    ensures other_side { of_arguments (0 ∷ 0 ∷ []) (apply (Const 0) (Const 1)) ≡ Bad 0 10 }
    ensures no_argument { of_arguments [] (Const 0) ≡ Bad 0 10 }
{}

/// Sorts, constructors and literals: what fits, and what doesn't.
pub fn sort_rows()
    ensures instance { of_instance (Const 1) ≡ Bad 1 0 }
    ensures instance_of_another_sort { of_instance (Int (pos 3)) ≡ Bad 0 3 }
    ensures selector { of_selector 1 1 ≡ Bad 1 0 }
    ensures selector_of_another_constructor { of_selector 0 1 ≡ Bad 0 15 }
    ensures different_constructors { of_constructors 1 ≡ Accepted }
    ensures one_constructor { of_constructors 0 ≡ Bad 0 12 }
    ensures different_numbers { of_number (pos 2) ≡ Accepted }
    ensures one_number { of_number (pos 1) ≡ Bad 0 16 }
{}

/// What a node adds by a rule of propositions and of equality.
pub fn equality_rule_rows()
    ensures part { added two_conjuncts (use_of 1 (0 ∷ []) [] [] 1)
        ≡ Some (one_child (has_it false (Const 1))) }
    ensures cut { added [] (use_of 5 [] [] (the_atom ∷ []) 0)
        ≡ Some (formula_alone (Lit true the_atom) ∷ formula_alone (Lit false the_atom) ∷ []) }
    ensures reflexive { added [] (use_of 7 [] (Const 1 ∷ []) [] 0)
        ≡ Some (one_child (equal (Const 1) (Const 1))) }
    ensures symmetric { added equal_both_ways (use_of 8 (0 ∷ []) [] [] 0)
        ≡ Some (one_child (equal (Const 1) (Const 0))) }
    ensures transitive { added equal_both_ways (use_of 9 (0 ∷ 1 ∷ []) [] [] 0)
        ≡ Some (one_child (equal (Const 0) (Const 0))) }
    ensures congruent_literal { added (has_it false (Const 0) ∷ equal_both_ways)
        (use_of 11 (0 ∷ 1 ∷ []) [] [] 0)
        ≡ Some (one_child (has_it false (Const 1))) }
    ensures injective { added (equal (build 0 (Const 0)) (build 0 (Const 1)) ∷ [])
        (use_of 13 (0 ∷ []) [] [] 0)
        ≡ Some (one_child (equal (Const 0) (Const 1))) }
    ensures cases { added [] (use_of 14 [] (Const 2 ∷ []) [] 0)
        ≡ Some (was_built 0 ∷ was_built 1 ∷ []) }
{}

/// What a node adds by a rule of order.
pub fn order_rule_rows()
    ensures turned { added (Lit false (Le (Int (pos 1)) (Int (pos 2)) (pos 3)) ∷ [])
        (use_of 18 (0 ∷ []) [] [] 0)
        ≡ Some (one_child (at_most (Int (pos 2)) (Int (pos 1)) (negsuc 3))) }
    ensures of_equals { added (equal (Int (pos 1)) (Int (pos 2)) ∷ []) (use_of 19 (0 ∷ []) [] [] 0)
        ≡ Some (one_child (at_most (Int (pos 1)) (Int (pos 2)) (pos 0))) }
    ensures not_of_a_plain_sort { added equal_both_ways (use_of 19 (0 ∷ []) [] [] 0) ≡ None }
    ensures equals { added ordered_both_ways (use_of 20 (0 ∷ 1 ∷ []) [] [] 0)
        ≡ Some (one_child (equal (Int (pos 1)) (Int (pos 2)))) }
    ensures above { added [] (use_of 21 [] (Plus (Int (pos 1)) (pos 5) ∷ []) [] 0)
        ≡ Some (one_child (at_most (Plus (Int (pos 1)) (pos 5)) (Int (pos 1)) (pos 5))) }
    ensures below { added [] (use_of 21 [] (Plus (Int (pos 1)) (pos 5) ∷ []) [] 1)
        ≡ Some (one_child (at_most (Int (pos 1)) (Plus (Int (pos 1)) (pos 5)) (negsuc 4))) }
    ensures numbers { added [] (use_of 22 [] (Int (pos 7) ∷ Int (pos 4) ∷ []) [] 0)
        ≡ Some (one_child (at_most (Int (pos 7)) (Int (pos 4)) (pos 3))) }
{}

/// A number past 128 bits.
pub fn difference_rows()
    ensures past { of_difference (pos (2 ^ 127 - 1)) (negsuc 0) ≡ Bad 0 22 }
    ensures within { of_difference (pos (2 ^ 127 - 2)) (negsuc 0) ≡ Bad 1 0 }
{}

/// Leaves that close nothing, nodes that are missing, and one too many.
pub fn leaf_rows()
    ensures closed { of_no_disjunct (on 2 (0 ∷ []) ∷ []) ≡ Accepted }
    ensures unvisited { of_no_disjunct (Unvisited ∷ []) ≡ Bad 0 0 }
    ensures current { of_no_disjunct (Current ∷ []) ≡ Bad 0 0 }
    ensures missing { of_no_disjunct [] ≡ Bad 0 0 }
    ensures too_many { of_no_disjunct (on 2 (0 ∷ []) ∷ on 2 (0 ∷ []) ∷ []) ≡ Bad 1 0 }
    ensures two { of_two_disjuncts (on 2 (0 ∷ []) ∷ on 2 (1 ∷ []) ∷ on 2 (1 ∷ []) ∷ []) ≡ Accepted }
    ensures one_of_two { of_two_disjuncts (on 2 (0 ∷ []) ∷ on 2 (1 ∷ []) ∷ []) ≡ Bad 2 0 }
{}
