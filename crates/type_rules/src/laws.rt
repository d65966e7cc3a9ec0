//! Laws of the definitions. The functions do nothing; what they ensure is proved.

ghost use Rattle.std.specs.Prelude.{◌≡◌, ◌↔◌, List, Option, Some, None};
ghost use Rattle.rp_grammar.specs.Trees.{DeclTree};
ghost use Rattle.type_rules.specs.declared.fault.Fault.{Fault as TheFault};
ghost use Rattle.type_rules.specs.Faults.{IsFirstFault, IsLawful, first_fault};

/// What is computed is the first fault: no rule is broken, or this one is and none comes before it.
pub fn first_is_least()
    ensures first { (tree : List DeclTree) → IsFirstFault tree (first_fault tree) }
    ensures none { (tree : List DeclTree) → (first_fault tree ≡ None) ↔ IsLawful tree }
{}

/// A text has one first fault at most.
pub fn one_least()
    ensures { (tree : List DeclTree) (f g : Option TheFault)
        → IsFirstFault tree f → IsFirstFault tree g → f ≡ g }
{}
