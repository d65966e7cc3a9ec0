//! Laws of the printed form. The functions do nothing; what they ensure is proved.

ghost use Rattle.std.specs.Prelude.{ℕ, List};
ghost use Rattle.rp_grammar.specs.Trees.{DeclTree};
ghost use Rattle.rp_grammar.specs.Texts.{IsText};
ghost use Rattle.rp_print.specs.Printed.{printed};
ghost use Rattle.rp_print.specs.Alike.{Alike};
ghost use Rattle.rp_print.specs.rows.Rows as rows;

/// The printed form of a text's tree is a text of a tree that is the same, spans aside.
pub fn printed_form_reads_back()
    ensures { (bytes : List ℕ) (tree : List DeclTree) → IsText bytes tree
        → (other : List DeclTree) × IsText (printed tree) other × Alike tree other }
{}

/// What some programs print as.
pub fn worked_rows()
    ensures tautology { rows.Tautology }
    ensures numbers { rows.Numbers }
    ensures strings { rows.Strings }
    ensures quantifiers { rows.Quantifiers }
    ensures matches { rows.Matches }
    ensures branches { rows.Branches }
    ensures datatypes { rows.Datatypes }
    ensures replicated_types { rows.ReplicatedTypes }
{}
