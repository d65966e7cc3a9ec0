//! Rules by their numbers.
ghost use Rattle.std.specs.Prelude.{◌≡◌, ◌≢◌, IfOk, IsErrOf, Some, None, map, option_map};
ghost use Rattle.rp_logic.specs.SigView.{sig_view};
ghost use Rattle.refute_defs.specs.Views.{use_view};
ghost use Rattle.refute_defs.specs.Children as spec;
ghost use Rattle.refute_branch.specs.Views.{branch_view};
ghost use Rattle.refute_rules.specs.means.Conclusions.{concluded};
ghost use Rattle.refute_rules.specs.Added.{addition_view};
ghost use Rattle.refute_branch.specs.Marks.{HasMarks};

use crate::additions::{Addition, additions, one_child};
use crate::conclusion::Conclusion;
use crate::congruences::{congruent_literal, congruent_term};
use crate::datatypes::{cases, constructor_clash, injective, literal_clash, selector};
use crate::equalities::{reflexive, symmetric, transitive};
use crate::orders::{cycle, equals_by_order, numbers, order_of_equals, plus, turned_order};
use crate::propositions::{clash, cut, part, split};
use crate::quantifiers::{instantiate, new_constant};
use crate::stop::Stop;
use refute_branch::OpenBranch;
use refute_defs::RuleUse;
use rp_logic::Sig;
use rp_value::List;
use std::alloc::Global;

/// The conclusion of a rule other than the two of congruence, if the node meets it.
fn conclude<'a>(sig: &'a Sig, b: &'a OpenBranch, u: &'a RuleUse) -> Option<Conclusion<'a>>
    requires { HasMarks sig.now b.now }
    ensures { u.now.rule ≢ 10 → u.now.rule ≢ 11 → option_map concluded result
        ≡ spec.children (sig_view sig.now) (branch_view b.now) (use_view u.now) }
{
    match u.rule {
        1 => part(b, u),
        2 => split(b, u),
        3 => instantiate(sig, b, u),
        4 => new_constant(sig, b, u),
        5 => cut(sig, b, u),
        6 => clash(b, u),
        7 => reflexive(sig, b, u),
        8 => symmetric(b, u),
        9 => transitive(b, u),
        12 => constructor_clash(b, u),
        13 => injective(b, u),
        14 => cases(sig, b, u),
        15 => selector(sig, b, u),
        16 => literal_clash(b, u),
        17 => cycle(b, u),
        18 => turned_order(b, u),
        19 => order_of_equals(sig, b, u),
        20 => equals_by_order(b, u),
        21 => plus(sig, b, u),
        22 => numbers(sig, b, u),
        _ => None,
    }
}

/// What a node adds for its children, if it meets its rule.
pub fn children(
    alloc: Global,
    sig: &Sig,
    b: &OpenBranch,
    u: &RuleUse,
) -> Result<List<Addition>, Stop>
    requires { HasMarks sig.now b.now }
    ensures found { IfOk result
        (λ adds. spec.children (sig_view sig.now) (branch_view b.now) (use_view u.now)
        ≡ Some (map addition_view adds)) }
    ensures unmet { IsErrOf result Stop.Unmet
        → spec.children (sig_view sig.now) (branch_view b.now) (use_view u.now) ≡ None }
{
    match u.rule {
        10 => Ok(one_child(alloc, congruent_term(alloc, sig, b, u)?)?),
        11 => Ok(one_child(alloc, congruent_literal(alloc, b, u)?)?),
        _ => match conclude(sig, b, u) {
            Some(conclusion) => Ok(additions(alloc, &conclusion)?),
            None => Err(Stop::Unmet),
        },
    }
}
