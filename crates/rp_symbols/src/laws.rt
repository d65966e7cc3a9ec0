//! Laws of the definitions, as functions with nothing to run.
ghost use Rattle.std.specs.Prelude.{◌≡◌, ◌<◌, ◌+◌, ◌-◌, ℕ, true, List, [], ◌∷◌, length, map, Some, slice_get};
ghost use Rattle.rp_value.specs.declared.tables.AtomType.{AtomType};
ghost use Rattle.rp_value.specs.declared.tables.ConDecl.{ConDecl};
ghost use Rattle.rp_value.specs.declared.tables.DataDecl.{DataDecl};
ghost use Rattle.rp_lang.specs.declared.op.OpDecl.{OpDecl};
ghost use Rattle.rp_lang.specs.declared.query.QueryDecl.{QueryDecl};
ghost use Rattle.rp_lang.specs.Typing.{is_get};
ghost use Rattle.rp_lang.specs.Programs.{Prog, Proc};
ghost use Rattle.rp_logic.specs.declared.sort.Sort.TheVariants.{Plain, Int, Str, Datatype};
ghost use Rattle.rp_symbols.specs.Numbers.{call_sort, inv_sort, atom_sort, int_sort, str_sort, data_sort, op_sort, info_sort, outcome_sort};
ghost use Rattle.rp_symbols.specs.Numbers.{op_con, info_con, unreturned_con, outcome_con};
ghost use Rattle.rp_symbols.specs.Numbers.{old_rel, new_rel, was_rel, there_rel, before_rel, stamp_rel, same_rel, snapshot_rel, part_rel, id_rel, seen_rel, read_rel, added_rel};
ghost use Rattle.rp_symbols.specs.Numbers.{op_fn, origin_fn, info_fn, old_result_fn, new_result_fn, add_fn, sub_fn, view_place, val_fn};
ghost use Rattle.rp_symbols.specs.Signatures.{sort_of, from, con_of, result_list, fn_of, sig_of, with_path};

/// Each sort stands at its number, and the datatypes of records have their constructors.
pub fn sorts_stand_at_their_numbers()
    ensures atoms { (p : Prog) (views ty : ℕ) → ty < length p.types.atoms → slice_get (sig_of p views).sorts (atom_sort ty) ≡ Some Plain }
    ensures ints { (p : Prog) (views : ℕ) → slice_get (sig_of p views).sorts (int_sort p) ≡ Some Int }
    ensures strings { (p : Prog) (views : ℕ) → slice_get (sig_of p views).sorts (str_sort p) ≡ Some Str }
    ensures datatypes { (p : Prog) (views d : ℕ) (decl : DataDecl) → slice_get p.types.datatypes d ≡ Some decl
        → slice_get (sig_of p views).sorts (data_sort p d) ≡ Some (Datatype decl.cons) }
    ensures operations { (p : Prog) (views : ℕ)
        → slice_get (sig_of p views).sorts (op_sort p) ≡ Some (Datatype (from (op_con p 0) (length p.ops))) }
    ensures records { (p : Prog) (views : ℕ)
        → slice_get (sig_of p views).sorts (info_sort p) ≡ Some (Datatype (from (info_con p 0) (length p.procs))) }
    ensures outcomes { (p : Prog) (views : ℕ)
        → slice_get (sig_of p views).sorts (outcome_sort p) ≡ Some (Datatype (unreturned_con p ∷ from (outcome_con p 0) (length p.procs))) }
{}

/// Each constructor stands at its number, with its sort and the sorts of its arguments.
pub fn constructors_stand_at_their_numbers()
    ensures own { (p : Prog) (views con : ℕ) (decl : ConDecl) → slice_get p.cons.cons con ≡ Some decl
        → slice_get (sig_of p views).cons con ≡ Some (con_of (data_sort p decl.of) (map (sort_of p) decl.fields)) }
    ensures operations { (p : Prog) (views op : ℕ) (decl : OpDecl) → slice_get p.ops op ≡ Some decl
        → slice_get (sig_of p views).cons (op_con p op) ≡ Some (con_of (op_sort p) (map (sort_of p) decl.args)) }
    ensures records { (p : Prog) (views proc : ℕ) (q : Proc) → slice_get p.procs proc ≡ Some q
        → slice_get (sig_of p views).cons (info_con p proc) ≡ Some (con_of (info_sort p) (map (sort_of p) q.params)) }
    ensures unreturned { (p : Prog) (views : ℕ) → slice_get (sig_of p views).cons (unreturned_con p) ≡ Some (con_of (outcome_sort p) []) }
    ensures outcomes { (p : Prog) (views proc : ℕ) (q : Proc) → slice_get p.procs proc ≡ Some q
        → slice_get (sig_of p views).cons (outcome_con p proc) ≡ Some (con_of (outcome_sort p) (map (sort_of p) (result_list q.result))) }
{}

/// Each relation stands at its number, with the sorts of its arguments.
pub fn relations_stand_at_their_numbers()
    ensures sets { (p : Prog) (views : ℕ)
        → (slice_get (sig_of p views).rels old_rel ≡ Some (call_sort ∷ [])) × (slice_get (sig_of p views).rels new_rel ≡ Some (call_sort ∷ []))
        × (slice_get (sig_of p views).rels snapshot_rel ≡ Some (call_sort ∷ [])) × (slice_get (sig_of p views).rels part_rel ≡ Some (call_sort ∷ [])) }
    ensures invocations { (p : Prog) (views : ℕ)
        → (slice_get (sig_of p views).rels was_rel ≡ Some (inv_sort ∷ [])) × (slice_get (sig_of p views).rels there_rel ≡ Some (inv_sort ∷ [])) }
    ensures pairs { (p : Prog) (views : ℕ)
        → (slice_get (sig_of p views).rels before_rel ≡ Some (call_sort ∷ call_sort ∷ []))
        × (slice_get (sig_of p views).rels stamp_rel ≡ Some (call_sort ∷ call_sort ∷ []))
        × (slice_get (sig_of p views).rels same_rel ≡ Some (call_sort ∷ call_sort ∷ [])) }
    ensures in_operations { (p : Prog) (views ty : ℕ) (atom : AtomType) → slice_get p.types.atoms ty ≡ Some atom → atom.is_id ≡ true
        → slice_get (sig_of p views).rels (id_rel p ty 0) ≡ Some (call_sort ∷ atom_sort ty ∷ []) }
    ensures in_arguments { (p : Prog) (views ty : ℕ) (atom : AtomType) → slice_get p.types.atoms ty ≡ Some atom → atom.is_id ≡ true
        → slice_get (sig_of p views).rels (id_rel p ty 1) ≡ Some (inv_sort ∷ atom_sort ty ∷ []) }
    ensures in_results { (p : Prog) (views ty : ℕ) (atom : AtomType) → slice_get p.types.atoms ty ≡ Some atom → atom.is_id ≡ true
        → slice_get (sig_of p views).rels (id_rel p ty 2) ≡ Some (inv_sort ∷ atom_sort ty ∷ []) }
    ensures seen { (p : Prog) (views k : ℕ) → k < views - 1 → slice_get (sig_of p views).rels (seen_rel p k) ≡ Some (call_sort ∷ []) }
    ensures read { (p : Prog) (views k : ℕ) → k < views - 1 → slice_get (sig_of p views).rels (read_rel p k) ≡ Some (call_sort ∷ []) }
{}

/// Each function stands at its number, with the sorts of its arguments and of its result; that of a query at each relation
/// that is a view.
pub fn functions_stand_at_their_numbers()
    ensures calls { (p : Prog) (views : ℕ)
        → (slice_get (sig_of p views).fns op_fn ≡ Some (fn_of (call_sort ∷ []) (op_sort p)))
        × (slice_get (sig_of p views).fns origin_fn ≡ Some (fn_of (call_sort ∷ []) inv_sort)) }
    ensures invocations { (p : Prog) (views : ℕ)
        → (slice_get (sig_of p views).fns info_fn ≡ Some (fn_of (inv_sort ∷ []) (info_sort p)))
        × (slice_get (sig_of p views).fns old_result_fn ≡ Some (fn_of (inv_sort ∷ []) (outcome_sort p)))
        × (slice_get (sig_of p views).fns new_result_fn ≡ Some (fn_of (inv_sort ∷ []) (outcome_sort p))) }
    ensures numbers { (p : Prog) (views : ℕ)
        → (slice_get (sig_of p views).fns add_fn ≡ Some (fn_of (int_sort p ∷ int_sort p ∷ []) (int_sort p)))
        × (slice_get (sig_of p views).fns sub_fn ≡ Some (fn_of (int_sort p ∷ int_sort p ∷ []) (int_sort p))) }
    ensures values { (p : Prog) (views view n : ℕ) (query : QueryDecl) → slice_get p.queries n ≡ Some query → is_get query.kind ≡ true
        → view_place p view < 3 + (views - 1 + (views - 1))
        → slice_get (sig_of p views).fns (val_fn p view n) ≡ Some (fn_of (map (sort_of p) query.args) (sort_of p query.result)) }
{}

/// What a path adds stands behind: its reading sets, and at each view and reading set the functions of queries.
pub fn what_a_path_adds_stands()
    ensures sets { (p : Prog) (views reads j : ℕ) (consts : List ℕ) → j < reads
        → slice_get (with_path p consts reads (sig_of p views)).rels (added_rel p (views - 1) j) ≡ Some (call_sort ∷ []) }
    ensures values { (p : Prog) (views reads view n : ℕ) (consts : List ℕ) (query : QueryDecl) → slice_get p.queries n ≡ Some query
        → is_get query.kind ≡ true → view_place p view < 3 + (views - 1 + (views - 1)) + reads
        → slice_get (with_path p consts reads (sig_of p views)).fns (val_fn p view n) ≡ Some (fn_of (map (sort_of p) query.args) (sort_of p query.result)) }
    ensures places { (p : Prog) (begins k : ℕ) → (view_place p (seen_rel p k) ≡ 3 + (k + k)) × (view_place p (read_rel p k) ≡ 4 + (k + k))
        × (view_place p (added_rel p begins k) ≡ 3 + (begins + begins + k)) }
{}
