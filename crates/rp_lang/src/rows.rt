//! Which programs are well formed, on small ones. Each function is a law: its clauses compute.
ghost use Rattle.std.specs.Prelude.{◌≡◌, true, false, [], ◌∷◌, pos, negsuc, replicate, codes, ◌++◌, Some, None};
ghost use Rattle.rp_value.specs.declared.tables.Ty.TheVariants.{Int, Str, Atom, Datatype, Call, Inv};
ghost use Rattle.rp_lang.specs.declared.op.PathStep.TheVariants.{Field, Key};
ghost use Rattle.rp_lang.specs.declared.op.OpKind.TheVariants.{Tx, Add, Increment, Delete};
ghost use Rattle.rp_lang.specs.declared.query.QueryKind.TheVariants.{Contains, GetReg};
ghost use Rattle.rp_lang.specs.Exprs as ex;
ghost use Rattle.rp_lang.specs.Exprs.{Slot, Bound, Con, Plus, Query, OpOf, OpTerm, no_ex};
ghost use Rattle.rp_lang.specs.Formulas as fo;
ghost use Rattle.rp_lang.specs.Formulas.{All, Equal, Holds, no_arm, also_arm};
ghost use Rattle.rp_lang.specs.Stmts.{Put, Decide, New, Operate, If, Match, Atomic, Assert, Return, ReturnWith, no_st_arm, also_st_arm};
ghost use Rattle.rp_lang.specs.rows.Samples as sample;
ghost use Rattle.rp_lang.specs.rows.Samples.{one, id, on_set};
ghost use Rattle.rp_lang.specs.Types.{bool_ty};
ghost use Rattle.rp_lang.specs.rows.Variants.{here, block, id_expr, procedure, with_result, makes, adds, claims, yes, quantified, negated, with_procs, with_types, data_of, con, with_maps, with_op, with_query};
ghost use Rattle.rp_lang.specs.WellFormed.{is_well_formed};

/// The two programs over sets of ids are well formed.
pub fn programs_over_sets()
    ensures removes { is_well_formed sample.removes_users ≡ true }
    ensures keeps { is_well_formed sample.keeps_users ≡ true }
{}

/// A slot is read where it has a value on every path.
pub fn slots_have_values()
    ensures set { is_well_formed (procedure [] (id ∷ []) (Atomic here (block (makes ∷ adds ∷ [])) ∷ [])) ≡ true }
    ensures unset { is_well_formed (procedure [] (id ∷ []) (Atomic here (block (adds ∷ makes ∷ [])) ∷ [])) ≡ false }
    ensures one_branch { is_well_formed (procedure [] (id ∷ []) (If here yes (block (makes ∷ [])) (block []) ∷ Atomic here (block (adds ∷ [])) ∷ [])) ≡ false }
    ensures both_branches { is_well_formed (procedure [] (id ∷ []) (If here yes (block (makes ∷ [])) (block (makes ∷ [])) ∷ Atomic here (block (adds ∷ [])) ∷ [])) ≡ true }
    ensures other_returns { is_well_formed (procedure [] (id ∷ []) (If here yes (block (makes ∷ [])) (block (Return here ∷ [])) ∷ Atomic here (block (adds ∷ [])) ∷ [])) ≡ true }
    ensures in_itself { is_well_formed (procedure [] (Int ∷ []) (Put here 0 (Plus (Slot 0) (pos 1)) ∷ [])) ≡ false }
{}

/// Parameters and variables of patterns aren't assigned, and a value has the type of its slot.
pub fn assignments()
    ensures fits { is_well_formed (procedure [] (Int ∷ []) (Put here 0 (ex.Int (pos 3)) ∷ [])) ≡ true }
    ensures other_type { is_well_formed (procedure [] (Str ∷ []) (Put here 0 (ex.Int (pos 3)) ∷ [])) ≡ false }
    ensures no_slot { is_well_formed (procedure [] (Int ∷ []) (Put here 1 (ex.Int (pos 3)) ∷ [])) ≡ false }
    ensures parameter { is_well_formed (procedure (Int ∷ []) (Int ∷ []) (Put here 0 (ex.Int (pos 3)) ∷ [])) ≡ false }
    ensures decided { is_well_formed (procedure [] (bool_ty ∷ []) (Decide here 0 yes ∷ [])) ≡ true }
    ensures decided_int { is_well_formed (procedure [] (Int ∷ []) (Decide here 0 yes ∷ [])) ≡ false }
    ensures no_id_type { is_well_formed (procedure [] (Atom 1 ∷ []) (New here 0 1 ∷ [])) ≡ false }
{}

/// Integers are at most 2^63 - 1 in absolute value.
pub fn integers()
    ensures greatest { is_well_formed (procedure [] (Int ∷ []) (Put here 0 (ex.Int (pos 9223372036854775807)) ∷ [])) ≡ true }
    ensures too_great { is_well_formed (procedure [] (Int ∷ []) (Put here 0 (ex.Int (pos 9223372036854775808)) ∷ [])) ≡ false }
    ensures least { is_well_formed (procedure [] (Int ∷ []) (Put here 0 (ex.Int (negsuc 9223372036854775806)) ∷ [])) ≡ true }
    ensures too_small { is_well_formed (procedure [] (Int ∷ []) (Put here 0 (ex.Int (negsuc 9223372036854775807)) ∷ [])) ≡ false }
    ensures plus { is_well_formed (procedure [] (Int ∷ []) (Put here 0 (Plus (ex.Int (pos 1)) (pos 9223372036854775807)) ∷ [])) ≡ true }
    ensures plus_too_great { is_well_formed (procedure [] (Int ∷ []) (Put here 0 (Plus (ex.Int (pos 1)) (pos 9223372036854775808)) ∷ [])) ≡ false }
{}

/// Operations stand inside atomic blocks, with arguments of their types, and `tx` is none.
pub fn operations()
    ensures outside { is_well_formed (procedure (id ∷ []) (id ∷ []) (adds ∷ [])) ≡ false }
    ensures other_type { is_well_formed (procedure (Int ∷ []) (Int ∷ []) (Atomic here (block (adds ∷ [])) ∷ [])) ≡ false }
    ensures no_argument { is_well_formed (procedure [] [] (Atomic here (block (Operate here 1 no_ex ∷ [])) ∷ [])) ≡ false }
    ensures out_of_range { is_well_formed (procedure (id ∷ []) (id ∷ []) (Atomic here (block (Operate here 5 (one id_expr) ∷ [])) ∷ [])) ≡ false }
    ensures tx { is_well_formed (procedure [] [] (Atomic here (block (Operate here 0 no_ex ∷ [])) ∷ [])) ≡ false }
    ensures reads_outside { is_well_formed (procedure (id ∷ []) (id ∷ []) (Assert here (Holds (Query 0 (one id_expr))) ∷ [])) ≡ false }
    ensures reads_inside { is_well_formed (procedure (id ∷ []) (id ∷ []) (Atomic here (block (Assert here (Holds (Query 0 (one id_expr))) ∷ [])) ∷ [])) ≡ true }
    ensures nested { is_well_formed (procedure [] [] (Atomic here (block (Atomic here (block []) ∷ [])) ∷ [])) ≡ false }
{}

/// A `return` stands outside atomic blocks and last, with a value exactly where there is a result.
pub fn returning()
    ensures value { is_well_formed (with_result (Some Int) [] [] (ReturnWith here (ex.Int (pos 3)) ∷ [])) ≡ true }
    ensures other_type { is_well_formed (with_result (Some Str) [] [] (ReturnWith here (ex.Int (pos 3)) ∷ [])) ≡ false }
    ensures no_value { is_well_formed (with_result (Some Int) [] [] (Return here ∷ [])) ≡ false }
    ensures no_return { is_well_formed (with_result (Some Int) [] [] []) ≡ false }
    ensures one_branch { is_well_formed (with_result (Some Int) [] [] (If here yes (block (ReturnWith here (ex.Int (pos 3)) ∷ [])) (block []) ∷ [])) ≡ false }
    ensures no_result { is_well_formed (with_result None [] [] (ReturnWith here (ex.Int (pos 3)) ∷ [])) ≡ false }
    ensures not_last { is_well_formed (procedure [] [] (Return here ∷ Return here ∷ [])) ≡ false }
    ensures inside { is_well_formed (procedure [] [] (Atomic here (block (Return here ∷ [])) ∷ [])) ≡ false }
{}

/// A `match` has one arm for each constructor, with a variable for each field.
pub fn matches()
    ensures each { is_well_formed (claims (fo.Match (Con 0 no_ex) (also_arm 1 yes (also_arm 0 yes no_arm)))) ≡ true }
    ensures missing { is_well_formed (claims (fo.Match (Con 0 no_ex) (also_arm 0 yes no_arm))) ≡ false }
    ensures twice { is_well_formed (claims (fo.Match (Con 0 no_ex) (also_arm 0 yes (also_arm 0 yes no_arm)))) ≡ false }
    ensures no_datatype { is_well_formed (claims (fo.Match (ex.Int (pos 3)) no_arm)) ≡ false }
    ensures statement { is_well_formed (procedure [] [] (Match here (Con 0 no_ex) (also_st_arm 0 [] (block []) (also_st_arm 1 [] (block []) no_st_arm)) ∷ [])) ≡ true }
    ensures slot_without_field { is_well_formed (procedure [] (Int ∷ []) (Match here (Con 0 no_ex) (also_st_arm 0 (0 ∷ []) (block []) (also_st_arm 1 [] (block []) no_st_arm)) ∷ [])) ≡ false }
{}

/// Quantifiers are over ids and opaque values, and in invariants over calls and invocations.
pub fn quantifiers()
    ensures calls { is_well_formed (claims (All Call (fo.Visible (Bound 0)))) ≡ true }
    ensures calls_in_a_procedure { is_well_formed (procedure [] [] (Atomic here (block (Assert here (All Call yes) ∷ [])) ∷ [])) ≡ false }
    ensures ids_in_a_procedure { is_well_formed (procedure [] [] (Assert here (All id yes) ∷ [])) ≡ true }
    ensures integers { is_well_formed (claims (All Int yes)) ≡ false }
    ensures out_of_range { is_well_formed (claims (All (Atom 1) yes)) ≡ false }
    ensures no_binder { is_well_formed (claims (All Call (fo.Visible (Bound 1)))) ≡ false }
    ensures an_id { is_well_formed (claims (All id (fo.Visible (Bound 0)))) ≡ false }
    ensures two_terms { is_well_formed (claims (Equal (OpTerm 0 no_ex) (OpTerm 0 no_ex))) ≡ false }
    ensures call_and_term { is_well_formed (claims (All Call (Equal (OpTerm 0 no_ex) (OpOf (Bound 0))))) ≡ true }
    ensures sixteen { is_well_formed (claims (quantified 16)) ≡ true }
    ensures seventeen { is_well_formed (claims (quantified 17)) ≡ false }
    ensures depth { is_well_formed (claims (negated 62 yes)) ≡ true }
    ensures deeper { is_well_formed (claims (negated 63 yes)) ≡ false }
{}

/// Datatypes list exactly their constructors, have one, and aren't recursive.
pub fn datatypes()
    ensures fields { is_well_formed (with_types (data_of (2 ∷ []) ∷ []) (con 1 (id ∷ Int ∷ bool_ty ∷ []) ∷ [])) ≡ true }
    ensures recursive { is_well_formed (with_types (data_of (2 ∷ []) ∷ []) (con 1 (Datatype 1 ∷ []) ∷ [])) ≡ false }
    ensures in_a_circle { is_well_formed (with_types (data_of (2 ∷ []) ∷ data_of (3 ∷ []) ∷ []) (con 1 (Datatype 2 ∷ []) ∷ con 2 (Datatype 1 ∷ []) ∷ [])) ≡ false }
    ensures later { is_well_formed (with_types (data_of (2 ∷ []) ∷ data_of (3 ∷ []) ∷ []) (con 1 (Datatype 2 ∷ []) ∷ con 2 [] ∷ [])) ≡ true }
    ensures no_constructor { is_well_formed (with_types (data_of [] ∷ []) []) ≡ false }
    ensures of_another { is_well_formed (with_types (data_of (2 ∷ []) ∷ []) (con 0 [] ∷ [])) ≡ false }
    ensures twice { is_well_formed (with_types (data_of (2 ∷ 2 ∷ []) ∷ []) (con 1 [] ∷ [])) ≡ false }
    ensures not_listed { is_well_formed (with_types (data_of (2 ∷ []) ∷ []) (con 1 [] ∷ con 1 [] ∷ [])) ≡ false }
    ensures field_out_of_range { is_well_formed (with_types (data_of (2 ∷ []) ∷ []) (con 1 (Atom 1 ∷ []) ∷ [])) ≡ false }
    ensures field_of_calls { is_well_formed (with_types (data_of (2 ∷ []) ∷ []) (con 1 (Call ∷ []) ∷ [])) ≡ false }
{}

/// An operation or query is one of its root at its path, which has at most 6 steps.
pub fn steps_on_paths()
    ensures on_a_root { is_well_formed (with_op (on_set 1 Add)) ≡ true }
    ensures no_root { is_well_formed (with_op (on_set 2 Add)) ≡ false }
    ensures not_of_sets { is_well_formed (with_op (on_set 1 Increment)) ≡ false }
    ensures second_tx { is_well_formed (with_op (on_set 1 Tx)) ≡ false }
    ensures six { is_well_formed (with_maps 6 (replicate 6 (Key id)) (replicate 6 id ++ Int ∷ [])) ≡ true }
    ensures seven { is_well_formed (with_maps 7 (replicate 7 (Key id)) (replicate 7 id ++ Int ∷ [])) ≡ false }
    ensures no_key { is_well_formed (with_maps 1 (Key id ∷ []) (Int ∷ [])) ≡ false }
    ensures other_key { is_well_formed (with_maps 1 (Key Int ∷ []) (Int ∷ Int ∷ [])) ≡ false }
    ensures no_field { is_well_formed (with_maps 1 (Field 0 ∷ []) (Int ∷ [])) ≡ false }
    ensures query_of_sets { is_well_formed (with_query (record { root = 0; path = []; kind = Contains; args = id ∷ []; result = Int })) ≡ false }
{}

/// Roots, procedures and constructors together have different names.
pub fn different_names()
    ensures different { is_well_formed (with_procs (codes "p" ∷ codes "q" ∷ [])) ≡ true }
    ensures twice { is_well_formed (with_procs (codes "p" ∷ codes "p" ∷ [])) ≡ false }
    ensures of_a_root { is_well_formed (with_procs (codes "users" ∷ [])) ≡ false }
    ensures of_an_id_type { is_well_formed (with_types (record { name = codes "U"; cons = 2 ∷ [] } ∷ []) (con 1 [] ∷ [])) ≡ false }
    ensures constructors { is_well_formed (with_types (data_of (2 ∷ 3 ∷ []) ∷ []) (con 1 [] ∷ con 1 [] ∷ [])) ≡ false }
{}
