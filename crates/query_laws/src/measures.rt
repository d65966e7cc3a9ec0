//! Measures against what is made. The function does nothing; what it ensures is proved.

ghost use Rattle.std.specs.Prelude.{◌≡◌, ◌<◌, ◌++◌, ◌∷◌, [], false, ℕ, List, Option, Some, length};
ghost use Rattle.rp_value.specs.declared.tables.ConTable.{ConTable};
ghost use Rattle.rp_grammar.specs.Trees.{DeclTree};
ghost use Rattle.rp_lang.specs.Exprs.{Ex};
ghost use Rattle.rp_lang.specs.Formulas.{Fo};
ghost use Rattle.rp_lang.specs.Bounds.{is_small_ex, is_small_fo};
ghost use Rattle.desugaring.specs.Values.{Value, formula, term as plain};
ghost use Rattle.query_bodies.specs.declared.bodies.Facts.{Facts};
ghost use Rattle.query_bodies.specs.Terms.{Said};
ghost use Rattle.query_bodies.specs.Expanded.{Saids, all_uses, said_at, said_under, uses_in};
ghost use Rattle.query_bodies.specs.Measures.{Known, measured, params_in};
ghost use Rattle.query_laws.specs.Told.{AreAdded, AreMeasured, AreTold, Fits, IsNextAdded, IsOver};

/// How deep an expression becomes, how many variables it binds inside one another, how many nodes it
/// has and whether it reads the store is told of what it says before uses of queries are put in.
pub fn measures_are_told()
    ensures { (cons : ConTable) (bodies : Saids) (k : Known) → AreMeasured cons bodies k → (s : Said)
        → Fits cons bodies s → (v : Value) → said_under (all_uses bodies) [] 0 s ≡ Some v
        → AreTold cons v (measured k 0 s).facts }
{}

/// The bodies of a text are added one declaration after another. They are measured, where each fits
/// and is over the parameters that it was added with.
pub fn bodies_are_measured()
    ensures none { (tree : List DeclTree) (k : Known) → AreAdded tree [] k }
    ensures next { (tree : List DeclTree) (bodies : Saids) (k later : Known) (o : Option Said)
        → AreAdded tree bodies k → ((d : ℕ) → d < length bodies → later d ≡ k d)
        → ((s : Said) → o ≡ Some s → IsNextAdded tree bodies k later s)
        → AreAdded tree (bodies ++ o ∷ []) later }
    ensures whole { (cons : ConTable) (tree : List DeclTree) (bodies : Saids) (k : Known) → AreAdded tree bodies k
        → ((decl : ℕ) (s : Said) → said_at bodies decl ≡ Some s → Fits cons bodies s)
        → ((decl : ℕ) (s : Said) → said_at bodies decl ≡ Some s
        → IsOver (uses_in bodies decl) (params_in (k decl)) s)
        → AreMeasured cons bodies k }
{}

/// What is counted past twice the limit on nodes is past it.
pub fn large_values_are_past()
    ensures term { (cons : ConTable) (e : Ex) (told : Facts) → AreTold cons (plain e) told → 200000 < told.nodes
        → is_small_ex e ≡ false }
    ensures formula { (cons : ConTable) (f : Fo) (told : Facts) → AreTold cons (formula f) told
        → 200000 < told.nodes → is_small_fo cons f ≡ false }
{}
