//! Laws of the definitions. The functions do nothing; what they ensure is proved.

ghost use Rattle.std.specs.Prelude.{◌≡◌, ◌↔◌, ℕ, List, Option, Some, option_map};
ghost use Rattle.rp_value.specs.declared.tables.ConTable.{ConTable};
ghost use Rattle.rp_grammar.specs.Trees.{DeclTree, ExprTree, BlockTree};
ghost use Rattle.rp_lang.specs.Programs.{Prog};
ghost use Rattle.type_rules.specs.declared.kind.Kind.{Kind};
ghost use Rattle.desugaring.specs.Tables.{Tables, con_table};
ghost use Rattle.desugaring.specs.Depths.{depths_of, depths, depths_before, shades};
ghost use Rattle.desugaring.specs.Values.{Value};
ghost use Rattle.desugaring.specs.Callees.{Vars};
ghost use Rattle.desugaring.specs.Expressions.{value, uses_before};
ghost use Rattle.desugaring.specs.Meanings.{Means};
ghost use Rattle.desugaring.specs.Statements.{Place, Made, block};
ghost use Rattle.desugaring.specs.Runs.{BlockRuns};
ghost use Rattle.desugaring.specs.Programs.{IsProgram, IsProgramOf, program_of};

/// What is computed of an expression, of a block and of a whole tree is what it becomes.
pub fn computed_programs()
    ensures expressions { (t : Tables) (b : ℕ) (vs : Vars) (asked : Option Kind) (e : ExprTree) (v : Value)
        → (value t (uses_before t b) vs asked e ≡ Some v) ↔ Means t b vs asked e v }
    ensures blocks { (t : Tables) (b : ℕ) (p : Place) (vs : Vars) (next : ℕ) (x : BlockTree) (m : Made)
        → (block t (uses_before t b) p vs next x ≡ Some m) ↔ BlockRuns t b p vs next x m.body m.slots }
    ensures programs { (tree : List DeclTree) (p : Prog) → (program_of tree ≡ Some p) ↔ IsProgram tree p }
{}

/// A tree has at most one program.
pub fn one_program()
    ensures { (tree : List DeclTree) (p q : Prog) → IsProgramOf tree p → IsProgramOf tree q → p ≡ q }
{}

/// How deep that is what an expression becomes, and how many variables it binds inside one another,
/// is told by its tree and by the depths of what its variables stand for.
pub fn depths_are_told()
    ensures { (t : Tables) (table : ConTable) (b : ℕ) (vs : Vars) (asked : Option Kind) (e : ExprTree)
        → con_table t ≡ Some table
        → option_map (depths_of table) (value t (uses_before t b) vs asked e)
        ≡ depths t (depths_before t b) (shades vs) asked e }
{}
