//! Rules of quantifiers.
ghost use Rattle.std.specs.Prelude.{◌≡◌, option_map};
ghost use Rattle.rp_logic.specs.SigView.{sig_view};
ghost use Rattle.rp_logic.specs.Views.{term_view};
ghost use Rattle.refute_defs.specs.Views.{use_view};
ghost use Rattle.refute_defs.specs.Children as spec;
ghost use Rattle.refute_branch.specs.Views.{branch_view};
ghost use Rattle.refute_rules.specs.means.Conclusions.{concluded};
ghost use Rattle.refute_branch.specs.Marks.{HasMarks};

use crate::conclusion::Conclusion;
use refute_branch::{OpenBranch, existential_at, is_new, is_of_sort, place_and_term, universal_at};
use refute_defs::RuleUse;
use rp_logic::{Sig, Term};

/// Of an `All` and a term of its sort the instance.
pub(crate) fn instantiate<'a>(
    sig: &Sig,
    b: &'a OpenBranch,
    u: &'a RuleUse,
) -> Option<Conclusion<'a>>
    ensures { option_map concluded result
        ≡ spec.instantiate (sig_view sig.now) (branch_view b.now) (use_view u.now) }
{
    let (p, t) = place_and_term(u)?;
    let (sort, body) = universal_at(b, p)?;
    if is_of_sort(sig, b, sort, t) {
        Some(Conclusion::Instance { body, t })
    } else {
        None
    }
}

#[tactic(auto, using(rp_logic::proofs::TermViews::term_views))]
fn constant(t: &Term) -> Option<u32>
    ensures { result ≡ spec.constant (term_view t.now) }
{
    match t {
        Term::Var(_) => None,
        Term::Const(c) => Some(*c),
        Term::Fn(_, _) => None,
        Term::Int(_) => None,
        Term::Str(_) => None,
        Term::Con(_, _) => None,
        Term::Sel(_, _, _) => None,
        Term::Plus(_, _) => None,
    }
}

/// Of an `Ex` and a new constant the instance, and the constant is brought.
pub(crate) fn new_constant<'a>(sig: &Sig, b: &'a OpenBranch, u: &RuleUse) -> Option<Conclusion<'a>>
    requires { HasMarks sig.now b.now }
    ensures { option_map concluded result
        ≡ spec.new_constant (sig_view sig.now) (branch_view b.now) (use_view u.now) }
{
    let (p, t) = place_and_term(u)?;
    let c = constant(t)?;
    let (sort, body) = existential_at(b, p)?;
    if is_new(sig, b, c) {
        Some(Conclusion::Named { body, c, sort })
    } else {
        None
    }
}
