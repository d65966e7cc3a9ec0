//! Worked rows on the meaning of queries and on truth at a snapshot: each is a contract that computes.
ghost use Rattle.std.specs.Prelude.{◌≡◌, true, false, [], ◌∷◌, pos, negsuc};
ghost use Rattle.rp_value.specs.declared.tables.Ty.TheVariants as ty;
ghost use Rattle.rp_lang.specs.Crdts as cr;
ghost use Rattle.rp_lang.specs.declared.query.QueryKind.TheVariants.{Contains, GetReg};
ghost use Rattle.crdt_defs.specs.declared.asked.Answer.TheVariants.{Truth, Value};
ghost use Rattle.crdt_defs.specs.declared.asked.Found.TheVariants.{Sum, At, Nothing};
ghost use Rattle.crdt_defs.specs.rows.Rows.{ids, id, int, side_by_side, in_order, first, last_two, added_beside_removed, value_at_key, has_key, last_of, keeps, total, in_struct, nested_value};
ghost use Rattle.rp_lang.specs.Exprs as ex;
ghost use Rattle.rp_lang.specs.Formulas.{Not, Holds, Equal, Less, AtMost, Visible, Before, Same};
ghost use Rattle.crdt_defs.specs.rows.TruthRows.{holds, each_id, each_call, some_call, some_inv, x, one, is_user, last, some_of, by_last, both, add, greatest};

/// An add beside a remove of the same element.
pub fn add_beside_remove()
    ensures add_wins { added_beside_removed (cr.SetAw ids) (first 4) ≡ Truth true }
    ensures remove_wins { added_beside_removed (cr.SetRw ids) (first 4) ≡ Truth false }
    ensures add_wins_two { added_beside_removed (cr.SetAw ids) last_two ≡ Truth false }
    ensures remove_wins_two { added_beside_removed (cr.SetRw ids) last_two ≡ Truth false }
    ensures add_wins_none { added_beside_removed (cr.SetAw ids) (first 0) ≡ Truth false }
    ensures remove_wins_none { added_beside_removed (cr.SetRw ids) (first 0) ≡ Truth false }
{}

/// An assignment under a key beside a delete of the key.
pub fn update_beside_delete()
    ensures update_wins { value_at_key (cr.MapUw ids (cr.Reg ty.Int)) ≡ Value (At 1) }
    ensures update_wins_has { has_key (cr.MapUw ids (cr.Reg ty.Int)) ≡ Truth true }
    ensures delete_wins { value_at_key (cr.MapDw ids (cr.Reg ty.Int)) ≡ Value Nothing }
    ensures delete_wins_has { has_key (cr.MapDw ids (cr.Reg ty.Int)) ≡ Truth false }
{}

/// Two assignments side by side: the greater stamp decides.
pub fn greater_stamp_decides()
    ensures second { last_of 5 6 ≡ Value (At 3) }
    ensures first { last_of 6 5 ≡ Value (At 1) }
{}

/// A register of many values keeps both of two assignments side by side, and the later one of two in order.
pub fn many_values()
    ensures one { keeps (side_by_side (int 1 ∷ []) (int 2 ∷ [])) 1 ≡ Truth true }
    ensures two { keeps (side_by_side (int 1 ∷ []) (int 2 ∷ [])) 2 ≡ Truth true }
    ensures earlier { keeps (in_order (int 1 ∷ []) (int 2 ∷ [])) 1 ≡ Truth false }
    ensures later { keeps (in_order (int 1 ∷ []) (int 2 ∷ [])) 2 ≡ Truth true }
{}

/// A counter adds amounts of both signs.
pub fn amounts_of_both_signs()
    ensures { total ≡ Value (Sum (negsuc 2)) }
{}

/// Each field of a struct has its own calls.
pub fn fields_apart()
    ensures set { in_struct 0 Contains (id 0 ∷ []) ≡ Truth true }
    ensures register { in_struct 1 GetReg [] ≡ Value (At 3) }
{}

/// A delete that an outer delete hides doesn't count.
pub fn hidden_delete()
    ensures not_hidden { nested_value (first 4) ≡ Value Nothing }
    ensures hidden { nested_value (first 6) ≡ Value (At 1) }
{}

/// Identifiers go up to the universe. A set has what was added, where the add is visible.
pub fn identifiers_below_the_universe()
    ensures one { holds 1 4 (each_id (is_user (x 0))) ≡ true }
    ensures two { holds 2 4 (each_id (is_user (x 0))) ≡ false }
    ensures hidden { holds 1 1 (each_id (is_user (x 0))) ≡ false }
{}

/// A quantifier over calls ranges over the committed ones, whether they are visible or not.
pub fn committed_calls()
    ensures all_visible { holds 1 4 (each_call (Visible (x 0))) ≡ true }
    ensures one_hidden { holds 1 3 (some_call (Not (Visible (x 0)))) ≡ true }
    ensures open_is_none { holds 1 0 (some_call (Equal (ex.OriginOf (x 0)) (ex.OriginOf (x 0)))) ≡ true }
    ensures none_of_the_third { holds 1 4 (some_inv (both (Equal (ex.ResultOf (x 0)) ex.Unreturned) (some_call (Equal (ex.OriginOf (x 0)) (x 1))))) ≡ false }
{}

/// A quantifier over invocations ranges over all of them, failed ones too. Each has its procedure and arguments, and a
/// result where it has returned.
pub fn all_invocations()
    ensures unreturned { holds 1 4 (some_inv (Equal (ex.ResultOf (x 0)) ex.Unreturned)) ≡ true }
    ensures returned { holds 1 4 (some_inv (Equal (ex.ResultOf (x 0)) (ex.ResultTerm 0))) ≡ true }
    ensures returned_with { holds 1 4 (each_id (some_inv (Equal (ex.ResultOf (x 0)) (ex.ResultWith 0 (x 1))))) ≡ true }
    ensures of_another { holds 2 4 (each_id (some_inv (Equal (ex.ResultOf (x 0)) (ex.ResultWith 0 (x 1))))) ≡ false }
    ensures invoked { holds 1 4 (each_id (some_inv (Equal (ex.InfoOf (x 0)) (ex.InfoTerm 0 (one (x 1)))))) ≡ true }
{}

/// A call has its operation with the arguments, and its invocation.
pub fn calls_have_operations()
    ensures added { holds 1 0 (each_id (some_call (Equal (ex.OpOf (x 0)) (add (x 1))))) ≡ true }
    ensures not_added { holds 2 0 (each_id (some_call (Equal (ex.OpOf (x 0)) (add (x 1))))) ≡ false }
{}

/// Before and one transaction, of calls. An invocation is before another where both have committed calls, and each of
/// the one is before each of the other.
pub fn orders()
    ensures calls_before { holds 1 4 (some_call (some_call (both (Before (x 0) (x 1)) (Same (x 0) (x 1))))) ≡ true }
    ensures none_of_itself { holds 1 4 (some_call (Before (x 0) (x 0))) ≡ false }
    ensures invs_before { holds 1 4 (some_inv (some_inv (Before (x 0) (x 1)))) ≡ true }
    ensures not_both_ways { holds 1 4 (some_inv (some_inv (both (Before (x 0) (x 1)) (Before (x 1) (x 0))))) ≡ false }
    ensures without_committed_call { holds 1 4 (some_inv (some_inv (both (Before (x 0) (x 1)) (Equal (ex.ResultOf (x 1)) ex.Unreturned)))) ≡ false }
{}

/// A register is `some` of what was assigned last, or `none`. A match takes the arm of the constructor, with a variable
/// for each field.
pub fn registers_and_matches()
    ensures assigned { holds 1 4 (each_id (Equal last (some_of (x 0)))) ≡ true }
    ensures of_another { holds 2 4 (each_id (Equal last (some_of (x 0)))) ≡ false }
    ensures not_visible { holds 1 3 (Equal last (ex.Con 2 ex.no_ex)) ≡ true }
    ensures some_arm { holds 2 4 (by_last (is_user last) (is_user (x 0))) ≡ true }
    ensures none_arm { holds 1 3 (by_last (each_id (is_user (x 0))) (is_user last)) ≡ true }
{}

/// Numbers have no range.
pub fn numbers_without_a_range()
    ensures more { holds 1 0 (Less greatest (ex.Plus greatest (pos 1))) ≡ true }
    ensures sum { holds 1 0 (AtMost (ex.Add greatest greatest) greatest) ≡ false }
    ensures difference { holds 1 0 (Equal (ex.Sub (ex.Add greatest greatest) greatest) greatest) ≡ true }
    ensures truth_values { holds 1 0 (Holds (ex.Con 1 ex.no_ex)) ≡ true }
{}
