//! Worked rows of the definitions, as functions with nothing to run.
ghost use Rattle.std.specs.Prelude.{◌≡◌, pos, negsuc, [], ◌∷◌};
ghost use Rattle.rp_logic.specs.Terms.{Const, Con, Equal, no_tm};
ghost use Rattle.refute_defs.specs.Uses.{Unvisited, Current};
ghost use Rattle.refute_defs.specs.Verdicts.{Accepted, Bad};
ghost use Rattle.spent_defs.specs.rows.SearchTrees.{on, instance_by, naming, split_at, cut_by, c, d, f, r_of, q_of, yes, nay, every, some, of_constant, of_constants, of_function, one_instance, clash_put_off, c_matches, brought_by_equality, f_matches, either, of_one_part, of_cut_number, of_cases};

/// An instance by the one constant: the budget, the depth, the same once more, and a clash that was
/// put off.
pub fn instance_rows()
    ensures accepted { of_constant (every ∷ []) one_instance 1 1 ≡ Accepted }
    ensures too_few { of_constant (every ∷ []) one_instance 2 1 ≡ Bad 1 0 }
    ensures too_deep { of_constant (every ∷ []) one_instance 1 0 ≡ Bad 0 3 }
    ensures again { of_constant (every ∷ []) (instance_by 0 c ∷ one_instance) 2 1 ≡ Bad 1 3 }
    ensures clash { of_constant (every ∷ clash_put_off ∷ []) one_instance 1 1 ≡ Bad 0 3 }
{}

/// Terms that match plainly come before the others of their rank, and terms that stand nowhere
/// don't come at all.
pub fn matching_rows()
    ensures other_first { of_constants c_matches (instance_by 0 d ∷ Current ∷ []) 1 1 ≡ Bad 0 3 }
    ensures plain_first { of_constants c_matches one_instance 1 1 ≡ Accepted }
    ensures unknown { of_function (every ∷ []) brought_by_equality 1 1 ≡ Bad 0 7 }
    ensures inside { of_function f_matches (instance_by 0 c ∷ Current ∷ []) 1 2 ≡ Bad 0 3 }
    ensures inside_first { of_function f_matches (instance_by 0 (f c) ∷ instance_by 0 c ∷ Current ∷ []) 2 2
        ≡ Bad 1 3 }
{}

/// What is named first: rules, conditions, leaves, and then how many nodes are counted.
pub fn order_rows()
    ensures rule { of_constant (every ∷ []) (instance_by 0 c ∷ instance_by 0 c ∷ on 6 (0 ∷ 1 ∷ []) [] [] ∷ []) 2 1
        ≡ Bad 2 6 }
    ensures missing { of_constant (every ∷ []) (instance_by 0 c ∷ []) 1 1 ≡ Bad 1 0 }
    ensures too_many { of_constant (every ∷ []) (Current ∷ Current ∷ []) 0 1 ≡ Bad 1 0 }
    ensures condition { of_constant (every ∷ []) (instance_by 0 c ∷ Unvisited ∷ []) 1 0 ≡ Bad 0 3 }
    ensures no_leaf { of_constant (every ∷ []) (instance_by 0 c ∷ Unvisited ∷ []) 5 1 ≡ Bad 2 0 }
    ensures two_leaves { of_constant (either ∷ []) (split_at 0 ∷ Current ∷ Current ∷ []) 5 0 ≡ Bad 2 0 }
{}

/// Splits are counted where they have two parts, none of which is there.
pub fn split_rows()
    ensures split { of_constant (either ∷ []) (split_at 0 ∷ Current ∷ Unvisited ∷ []) 1 0 ≡ Accepted }
    ensures second { of_constant (either ∷ []) (split_at 0 ∷ Unvisited ∷ Current ∷ []) 1 0 ≡ Accepted }
    ensures part_there { of_constant (either ∷ yes (r_of c) ∷ []) (split_at 0 ∷ Current ∷ Unvisited ∷ []) 1 0
        ≡ Bad 0 2 }
    ensures one_part { of_one_part 0 ≡ Accepted }
    ensures one_part_counted { of_one_part 1 ≡ Bad 1 0 }
{}

/// An existential has one constant.
pub fn constant_rows()
    ensures first { of_constant (some ∷ []) (naming 0 1 ∷ Current ∷ []) 1 0 ≡ Accepted }
    ensures again { of_constant (some ∷ []) (naming 0 1 ∷ naming 0 2 ∷ Current ∷ []) 2 0 ≡ Bad 1 4 }
    ensures there { of_constant (some ∷ yes (r_of c) ∷ []) (naming 0 1 ∷ Current ∷ []) 1 0 ≡ Bad 0 4 }
{}

/// Cuts and cases come where every instance is there, cases also at a constructor that is denied.
pub fn late_rows()
    ensures early_cut { of_constants (every ∷ yes (q_of c) ∷ []) (cut_by (q_of d) ∷ Current ∷ Unvisited ∷ []) 1 1
        ≡ Bad 0 5 }
    ensures cut { of_constants (every ∷ yes (q_of c) ∷ [])
        (instance_by 0 c ∷ cut_by (q_of d) ∷ Current ∷ Unvisited ∷ []) 2 1
        ≡ Accepted }
    ensures negative { of_cut_number (negsuc 0) ≡ Accepted }
    ensures number { of_cut_number (pos 1) ≡ Bad 0 5 }
    ensures early_cases { of_cases (yes (Equal d d)) ≡ Bad 0 14 }
    ensures denied { of_cases (nay (Equal d (Con 0 no_tm))) ≡ Accepted }
    ensures denied_turned { of_cases (nay (Equal (Con 0 no_tm) d)) ≡ Accepted }
{}
