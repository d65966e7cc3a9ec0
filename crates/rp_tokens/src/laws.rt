//! Laws of the machine and of the grammar. The functions do nothing; what they ensure is proved.

ghost use Rattle.std.specs.Prelude.{◌≡◌, ◌⊎◌, ◌≤◌, ◌-◌, ℕ, List, [], length, drop};
ghost use Rattle.rp_grammar.specs.Terminals.{Tok};
ghost use Rattle.rp_grammar.specs.Trees.{DeclTree};
ghost use Rattle.rp_grammar.specs.Begins.{IsTree, IsTreeWithin, IsFirstBad, IsTooDeep, EndsInEnd};
ghost use Rattle.rp_tokens.specs.MachineStates.{in_decls};
ghost use Rattle.rp_tokens.specs.Machine.{done, stuck, whole, deep, bounded};

/// Tokens have one tree at most.
pub fn one_tree()
    ensures { (ts : List Tok) (t u : List DeclTree) → IsTree ts t → IsTree ts u → t ≡ u }
{}

/// The tokens of a text have, within a bound on their nestings, their tree, or a first bad token, or
/// a first one that is too deep: one of these, at one place.
pub fn one_answer()
    ensures some { (m : ℕ) (ts : List Tok) → EndsInEnd ts → ((t : List DeclTree) × IsTreeWithin m ts t) ⊎ (((k : ℕ) × IsFirstBad m ts k) ⊎ ((k : ℕ) × IsTooDeep m ts k)) }
    ensures one_bad { (m : ℕ) (ts : List Tok) (j k : ℕ) → IsFirstBad m ts j → IsFirstBad m ts k → j ≡ k }
    ensures one_too_deep { (m : ℕ) (ts : List Tok) (j k : ℕ) → IsTooDeep m ts j → IsTooDeep m ts k → j ≡ k }
    ensures tree_not_bad { (m : ℕ) (ts : List Tok) (t : List DeclTree) (k : ℕ) → IsTreeWithin m ts t → IsFirstBad m ts k → ⊥ }
    ensures tree_not_too_deep { (m : ℕ) (ts : List Tok) (t : List DeclTree) (k : ℕ) → IsTreeWithin m ts t → IsTooDeep m ts k → ⊥ }
    ensures bad_not_too_deep { (m : ℕ) (ts : List Tok) (j k : ℕ) → IsFirstBad m ts j → IsTooDeep m ts k → ⊥ }
{}

/// What the machine answers of the tokens of a text, within a bound on their nestings, is what the
/// grammar says of them.
pub fn machine_reads_the_grammar()
    // A tree that it comes to is the tokens' tree.
    ensures found { (m : ℕ) (ts : List Tok) (t : List DeclTree) → bounded m (in_decls []) ts ≡ whole (done t) → IsTreeWithin m ts t }
    // The token that it refuses is the first bad one.
    ensures bad { (m : ℕ) (ts r : List Tok) → EndsInEnd ts → bounded m (in_decls []) ts ≡ whole (stuck r) → (length r ≤ length ts) × IsFirstBad m ts (length ts - length r) }
    // The token that it finds too deep is the first one.
    ensures too_deep { (m : ℕ) (ts r : List Tok) → bounded m (in_decls []) ts ≡ deep r → (length r ≤ length ts) × IsTooDeep m ts (length ts - length r) }
    // It comes to the tokens' tree, where they have one.
    ensures only { (m : ℕ) (ts : List Tok) (t : List DeclTree) → IsTreeWithin m ts t → bounded m (in_decls []) ts ≡ whole (done t) }
    // It refuses the first bad token.
    ensures only_bad { (m : ℕ) (ts : List Tok) (k : ℕ) → IsFirstBad m ts k → bounded m (in_decls []) ts ≡ whole (stuck (drop k ts)) }
    // It finds the first token that is too deep.
    ensures only_too_deep { (m : ℕ) (ts : List Tok) (k : ℕ) → IsTooDeep m ts k → bounded m (in_decls []) ts ≡ deep (drop k ts) }
{}
