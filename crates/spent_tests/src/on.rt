//! Formulas that are on a branch, and terms that stand there.
ghost use Rattle.std.specs.Prelude.{◌≡◌, IfOk, map};
ghost use Rattle.std.specs.List.{list_any};
ghost use Rattle.rp_logic.specs.Views.{term_view, formula_view, formulas_view};
ghost use Rattle.refute_branch.specs.Views.{branch_view};
ghost use Rattle.spent_defs.specs.SameFormulas.{same_fm};
ghost use Rattle.spent_defs.specs.Complete as spec;
ghost use Rattle.spent_defs.specs.Standing.{is_among, stands as spec_stands};
ghost use Rattle.spent_defs.specs.Ranks.{term_rank as spec_term_rank};
ghost use Rattle.spent_tests.specs.Views.{ranked_view, standing_view, only_terms, IsListed};
ghost use Rattle.spent_tests.specs.means.Among.{rank_among};

use crate::branch::RankedBranch;
use crate::same::is_same_formula;
use crate::standing::Standing;
use refute_branch::{OpenBranch, is_same};
use rp_logic::{Fml, Term, substitute};
use rp_value::Memory;
use std::alloc::Global;

fn is_one_of(formulas: &[Fml], f: &Fml) -> bool
    ensures { result ≡ list_any (same_fm (formula_view f.now)) (map formula_view formulas.now) }
{
    for g in formulas {
        if is_same_formula(f, g) {
            return true;
        }
    }
    false
}

/// Whether the formula is on the branch.
pub(crate) fn is_on(b: &OpenBranch, f: &Fml) -> bool
    ensures { result ≡ spec.is_on (branch_view b.now) (formula_view f.now) }
{
    is_one_of(b.formulas.as_slice(), f)
}

/// Whether each part is on the branch.
pub(crate) fn all_on(b: &OpenBranch, parts: &[Fml]) -> bool
    ensures { result ≡ spec.all_on (branch_view b.now) (formulas_view parts.now) }
{
    for f in parts {
        if !is_on(b, f) {
            return false;
        }
    }
    true
}

/// Whether one part is on the branch.
pub(crate) fn some_on(b: &OpenBranch, parts: &[Fml]) -> bool
    ensures { result ≡ spec.some_on (branch_view b.now) (formulas_view parts.now) }
{
    for f in parts {
        if is_on(b, f) {
            return true;
        }
    }
    false
}

/// Whether the body with the term for its variable is on the branch.
pub(crate) fn instance_on(
    alloc: Global,
    b: &OpenBranch,
    body: &Fml,
    t: &Term,
) -> Result<bool, Memory>
    ensures { IfOk result (λ is. is
        ≡ spec.instance_on (branch_view b.now) (formula_view body.now) (term_view t.now)) }
{
    let f = substitute(alloc, body, t)?;
    Ok(is_on(b, &f))
}

fn stands_among(standing: &[Standing], t: &Term) -> bool
    ensures { result ≡ is_among (only_terms standing.now) (term_view t.now) }
{
    for s in standing {
        if is_same(t, &s.term) {
            return true;
        }
    }
    false
}

/// Whether the term stands on the branch.
#[tactic(auto, using(crate::proofs::Listed::standing_is))]
pub(crate) fn stands(b: &RankedBranch, t: &Term) -> bool
    requires { IsListed b.now }
    ensures { result ≡ spec_stands (branch_view b.now.branch) (term_view t.now) }
{
    stands_among(b.standing.as_slice(), t)
}

fn first_rank(standing: &[Standing], t: &Term) -> u32
    ensures { result ≡ rank_among (term_view t.now) (map standing_view standing.now) }
{
    for s in standing {
        if is_same(t, &s.term) {
            return s.rank;
        }
    }
    0
}

/// The rank of the term.
#[tactic(auto, using(crate::proofs::Listed::rank_is))]
pub(crate) fn term_rank(b: &RankedBranch, t: &Term) -> u32
    requires { IsListed b.now }
    ensures { result ≡ spec_term_rank (ranked_view b.now) (term_view t.now) }
{
    first_rank(b.standing.as_slice(), t)
}
