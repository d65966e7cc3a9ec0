ghost use Rattle.std.specs.Prelude.{◌≡◌, ◌↔◌, IsTrue, OnOk};
ghost use Rattle.rp_logic.specs.SigView.{sig_view};
ghost use Rattle.rp_logic.specs.Truth.{IsRefuted};
ghost use Rattle.refute_defs.specs.Closed.{IsClosedTree, IsFirstBad, AreWellSorted};
ghost use Rattle.refute_defs.specs.Verdicts.{verdict};
ghost use Rattle.refute_defs.specs.Views.{nodes_view, given_view};
ghost use Rattle.refute_check.specs.Answers.{IsVerdict, IfBad};

use crate::error::CheckErr;
use crate::walk::walk;
use refute_defs::Tree;
use rp_logic::{Fml, Sig, well_sorted};
use rp_value::List;
use std::alloc::Global;

/// Whether the formulas are closed ones over the signature. It takes no memory.
pub fn are_well_sorted(sig: &Sig, given: &List<Fml>) -> bool
    ensures { IsTrue result ↔ AreWellSorted (sig_view sig.now) (given_view given.now) }
{
    for f in given.as_slice() {
        if !well_sorted(sig, f) {
            return false;
        }
    }
    true
}

/// Checks that the tree is a closed tree of the given formulas. If it is, no structure of the
/// signature makes all of them true.
pub fn check(alloc: Global, sig: &Sig, given: &List<Fml>, tree: &Tree) -> Result<(), CheckErr>
    requires sorted { AreWellSorted (sig_view sig.now) (given_view given.now) }
    ensures closed { OnOk result
        (IsClosedTree (sig_view sig.now) (given_view given.now) (nodes_view tree.now)) }
    ensures first_bad { IfBad result
        (λ node rule. IsFirstBad (sig_view sig.now) (given_view given.now) (nodes_view tree.now)
        node rule) }
    ensures verdict { IsVerdict result
        (verdict (sig_view sig.now) (given_view given.now) (nodes_view tree.now)) }
    ensures refuted { OnOk result (IsRefuted (sig_view sig.now) (given_view given.now)) }
{
    walk(alloc, sig, given, &tree.nodes)
}
