//! Laws of the definitions. The functions do nothing; what they ensure is proved.

ghost use Rattle.std.specs.Prelude.{◌≡◌, ℕ, List, Option, Some};
ghost use Rattle.rp_grammar.specs.Trees.{DeclTree, ExprTree};
ghost use Rattle.rp_lang.specs.declared.op.OpDecl.{OpDecl};
ghost use Rattle.rp_lang.specs.declared.query.QueryDecl.{QueryDecl};
ghost use Rattle.rp_lang.specs.Programs.{Inv, Prog, Rt};
ghost use Rattle.type_rules.specs.Typing.{type_of, is_plain};
ghost use Rattle.type_rules.specs.Sites.{Scope, Want};
ghost use Rattle.type_rules.specs.ExprSites.{expr_sites};
ghost use Rattle.type_rules.specs.Faults.{IsLawful};
ghost use Rattle.desugaring.specs.Tables.{Tables, op_table, query_table, root_table, tables_of};
ghost use Rattle.desugaring.specs.Callees.{Vars};
ghost use Rattle.desugaring.specs.Expressions.{Uses, uses_before, value};
ghost use Rattle.desugaring.specs.Parts.{each};
ghost use Rattle.desugaring.specs.Programs.{IsProgramOf, inv_for, invs_from};
ghost use Rattle.lawful_programs.specs.Valued.{AllSound, AskedWhole, VarsWhole, Ready, Seen, Valued};

/// An expression at a lawful place becomes something, where the tables of the text are ready: a
/// plain term, where it is one or is no truth.
pub fn expressions_have_values()
    ensures { (t : Tables) (b : ℕ) (uses : Uses) → Ready t b uses → (vs : Vars) (sc : Scope) (w : Want) (e : ExprTree)
        → sc.decl ≡ b → Seen sc.vars vs → VarsWhole t sc.vars → AskedWhole t w.asked
        → AllSound t (expr_sites t.names sc w e)
        → Valued (type_of t.names sc.vars w.asked e) (is_plain t.names sc.vars e) (value t uses vs w.asked e) }
{}

/// The tables of a lawful text are ready for each of its declarations: a type has a number with all
/// its fields, and constructors, operations, queries and procedures that are called are there.
pub fn texts_are_ready()
    ensures { (tree : List DeclTree) → IsLawful tree → (b : ℕ)
        → Ready (tables_of tree) b (uses_before (tables_of tree) b) }
{}

/// The invariants of a lawful text become formulas.
pub fn invariants_have_values()
    ensures { (tree : List DeclTree) → IsLawful tree
        → (invs : List Inv) × (each (inv_for (tables_of tree)) (invs_from 0 1 tree) ≡ Some invs) }
{}

/// The roots, operations and queries of the store of a lawful text's program are there.
pub fn roots_are_there()
    ensures roots { (tree : List DeclTree) → IsLawful tree → (roots : List Rt) × (root_table (tables_of tree) ≡ Some roots) }
    ensures operations { (tree : List DeclTree) → IsLawful tree → (ops : List OpDecl) × (op_table (tables_of tree) ≡ Some ops) }
    ensures queries { (tree : List DeclTree) → IsLawful tree
        → (queries : List QueryDecl) × (query_table (tables_of tree) ≡ Some queries) }
{}

/// A lawful text has a program.
pub fn texts_have_programs()
    ensures { (tree : List DeclTree) → IsLawful tree → (p : Prog) × IsProgramOf tree p }
{}
