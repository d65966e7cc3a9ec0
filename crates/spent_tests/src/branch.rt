//! Branches with ranks, and with the terms that stand there.
ghost use Rattle.std.specs.Prelude.{◌≡◌, ◌≤◌, ◌∷◌, [], ◌++◌, IfOk, OnOk, length, take, replicate};
ghost use Rattle.refute_defs.specs.Views.{given_view};
ghost use Rattle.refute_branch.specs.Marks.{HasMarks};
ghost use Rattle.spent_defs.specs.Ranks.{root};
ghost use Rattle.spent_tests.specs.Views.{ranked_view, IsListed};

use crate::standing::{Standing, add_formula_terms};
use refute_branch::{OpenBranch, add_formula, go_back, start};
use rp_logic::{Fml, Sig};
use rp_value::{List, Memory};
use std::alloc::Global;

/// A branch, the rank of each formula, and the closed terms that stand in the formulas, as often as
/// they stand there.
#[derive(Drop)]
pub struct RankedBranch {
    pub branch: OpenBranch,
    pub ranks: List<u32>,
    pub standing: List<Standing>,
}

/// Adds a formula of the rank.
pub fn add_ranked(
    alloc: Global,
    sig: &Sig,
    b: &mut RankedBranch,
    formula: Fml,
    rank: u32,
) -> Result<(), Memory>
    requires marked { HasMarks sig.now b.old.branch }
    requires listed { IsListed b.old }
    ensures formulas { OnOk result (b.new.branch.formulas ≡ b.old.branch.formulas ++ formula ∷ []) }
    ensures ranks { OnOk result (b.new.ranks ≡ b.old.ranks ++ rank ∷ []) }
    ensures added { OnOk result (b.new.branch.added ≡ b.old.branch.added) }
    ensures marked { OnOk result (HasMarks sig.now b.new.branch) }
    ensures listed { OnOk result (IsListed b.new) }
{
    add_formula_terms(alloc, rank, &mut b.standing, &formula)?;
    b.ranks.push(rank)?;
    add_formula(sig, &mut b.branch, formula)?;
    Ok(())
}

/// The terms that stand in the formulas are listed anew.
fn list_again(alloc: Global, b: &mut RankedBranch) -> Result<(), Memory>
    requires { length b.old.ranks ≡ length b.old.branch.formulas }
    ensures branch { OnOk result (b.new.branch ≡ b.old.branch) }
    ensures ranks { OnOk result (b.new.ranks ≡ b.old.ranks) }
    ensures listed { OnOk result (IsListed b.new) }
{
    let mut standing = List::new(alloc);
    for p in 0..b.ranks.count() {
        let rank = *b.ranks.get(p as usize);
        add_formula_terms(
            alloc,
            rank,
            &mut standing,
            b.branch.formulas.get(p as usize),
        )?;
    }
    b.standing = standing;
    Ok(())
}

fn shorten(list: &mut List<u32>, n: u32)
    ensures { list.new ≡ take n list.old }
{
    while list.count() > n {
        list.pop();
    }
}

/// Lets go all but the first formulas and constants.
pub fn go_back_ranked(
    alloc: Global,
    sig: &Sig,
    b: &mut RankedBranch,
    formulas: u32,
    added: u32,
) -> Result<(), Memory>
    requires fewer { formulas ≤ length b.old.branch.formulas }
    requires marked { HasMarks sig.now b.old.branch }
    requires listed { IsListed b.old }
    ensures formulas { OnOk result (b.new.branch.formulas ≡ take formulas b.old.branch.formulas) }
    ensures added { OnOk result (b.new.branch.added ≡ take added b.old.branch.added) }
    ensures ranks { OnOk result (b.new.ranks ≡ take formulas b.old.ranks) }
    ensures marked { OnOk result (HasMarks sig.now b.new.branch) }
    ensures listed { OnOk result (IsListed b.new) }
{
    go_back(sig, &mut b.branch, formulas, added);
    shorten(&mut b.ranks, formulas);
    list_again(alloc, b)
}

fn zeros(alloc: Global, n: u32) -> Result<List<u32>, Memory>
    ensures { IfOk result (λ made. made ≡ replicate n 0) }
{
    let mut made = List::new(alloc);
    for _ in 0..n {
        made.push(0)?;
    }
    Ok(made)
}

/// The branch of the root, where each formula has rank 0.
#[tactic(auto, using(crate::proofs::Listings::started_ranked))]
pub fn start_ranked(alloc: Global, sig: &Sig, given: &List<Fml>) -> Result<RankedBranch, Memory>
    ensures branch { IfOk result (λ b. ranked_view b ≡ root (given_view given.now)) }
    ensures marked { IfOk result (λ b. HasMarks sig.now b.branch) }
    ensures listed { IfOk result (λ b. IsListed b) }
{
    let branch = start(alloc, sig, given)?;
    let ranks = zeros(alloc, branch.formulas.count())?;
    let mut b = RankedBranch {
        branch,
        ranks,
        standing: List::new(alloc),
    };
    list_again(alloc, &mut b)?;
    Ok(b)
}
