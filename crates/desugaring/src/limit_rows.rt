//! The numbers of datatypes and invariants, and limits, on small texts. Each function is a law: its
//! clauses compute.

ghost use Rattle.std.specs.Prelude.{◌≡◌, [], ◌∷◌, codes, Some, None, option_map};
ghost use Rattle.rp_lang.specs.declared.limit.LimitName.TheVariants.{ValueParts, Invariants};
ghost use Rattle.type_rules.specs.Kinds.{bool_kind, int_kind, maybe_of, plain_kind};
ghost use Rattle.type_rules.specs.declared.kind.Base.TheVariants as base;
ghost use Rattle.desugaring.specs.Tables.{tables_of};
ghost use Rattle.desugaring.specs.Programs.{program_of};
ghost use Rattle.desugaring.specs.rows.Rows.{many_types, declared_kind, two_invariants, names_of_invs, claims, doubled, bool, limit_of};

/// Inner datatypes come first, a register and a `some(..)` bring a `Maybe` type, also in a query
/// that is not used, and a datatype counts from where a `some(..)` of it stands.
pub fn numbers_of_datatypes()
    ensures { let id = declared_kind 0 in
        let e = declared_kind 1 in
        let l = declared_kind 2 in
        (tables_of many_types).datatypes
        ≡ bool_kind ∷ maybe_of id ∷ maybe_of (maybe_of id) ∷ e ∷ maybe_of e ∷ maybe_of int_kind ∷ l ∷ maybe_of l ∷ maybe_of (plain_kind base.Text) ∷ [] }
{}

/// An invariant without a name has its number, from 1.
pub fn names_of_invariants()
    ensures { option_map names_of_invs (program_of two_invariants) ≡ Some (codes "a" ∷ codes "#2" ∷ []) }
{}

/// 64 invariants are within the limit, and 1,000 parts of a type: the eighth datatype of those that
/// double has 511, the ninth 1,023.
pub fn numbers_at_limits()
    ensures invariants { limit_of (claims 64) ≡ None }
    ensures one_more { limit_of (claims 65) ≡ Some Invariants }
    ensures parts { limit_of (doubled 8 1 bool) ≡ None }
    ensures more_parts { limit_of (doubled 9 1 bool) ≡ Some ValueParts }
{}
