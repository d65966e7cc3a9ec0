//! Rules of equality that need no equal arguments.
ghost use Rattle.std.specs.Prelude.{◌≡◌, option_map};
ghost use Rattle.rp_logic.specs.SigView.{sig_view};
ghost use Rattle.refute_defs.specs.Views.{use_view};
ghost use Rattle.refute_defs.specs.Children as spec;
ghost use Rattle.refute_branch.specs.Views.{branch_view};
ghost use Rattle.refute_rules.specs.means.Conclusions.{concluded};

use crate::conclusion::Conclusion;
use refute_branch::{OpenBranch, equality_at, is_same, is_term, the_place, the_term, two_places};
use refute_defs::RuleUse;
use rp_logic::Sig;

/// Of a term t = t.
pub(crate) fn reflexive<'a>(sig: &Sig, b: &OpenBranch, u: &'a RuleUse) -> Option<Conclusion<'a>>
    ensures { option_map concluded result
        ≡ spec.reflexive (sig_view sig.now) (branch_view b.now) (use_view u.now) }
{
    let t = the_term(u)?;
    if is_term(sig, b, t) {
        Some(Conclusion::Equal(t, t))
    } else {
        None
    }
}

/// Of a = b the equality b = a.
pub(crate) fn symmetric<'a>(b: &'a OpenBranch, u: &RuleUse) -> Option<Conclusion<'a>>
    ensures { option_map concluded result ≡ spec.symmetric (branch_view b.now) (use_view u.now) }
{
    let p = the_place(u)?;
    let e = equality_at(b, p)?;
    Some(Conclusion::Equal(e.right, e.left))
}

/// Of a = b and b = c the equality a = c.
pub(crate) fn transitive<'a>(b: &'a OpenBranch, u: &RuleUse) -> Option<Conclusion<'a>>
    ensures { option_map concluded result ≡ spec.transitive (branch_view b.now) (use_view u.now) }
{
    let (p, q) = two_places(u)?;
    let e = equality_at(b, p)?;
    let d = equality_at(b, q)?;
    if is_same(e.right, d.left) {
        Some(Conclusion::Equal(e.left, d.right))
    } else {
        None
    }
}
