//! The walk through a tree. It keeps one branch, the one that it stands on. Of a branch that waits
//! it keeps how much of that branch it begins with, so that none is copied.
ghost use Rattle.std.specs.Prelude.{◌≡◌, ◌≤◌, suc, List as Items, ◌∷◌, ◌++◌, IfOk, OnOk, IsErrOf, Some, None, true, length, map, take, reverse};
ghost use Rattle.rp_logic.specs.SigView.{sig_view};
ghost use Rattle.refute_defs.specs.Uses.{Nd};
ghost use Rattle.refute_defs.specs.Verdicts.{Bad, verdict, verdict_from};
ghost use Rattle.refute_defs.specs.Views.{node_view, given_view};
ghost use Rattle.refute_branch.specs.Views.{branch_view};
ghost use Rattle.refute_rules.specs.Added.{addition_view};
ghost use Rattle.refute_check.specs.Answers.{IsVerdict, IfBad};
ghost use Rattle.refute_branch.specs.Marks.{HasMarks};
ghost use Rattle.refute_check.specs.means.Waits.{waiting_branch, waiting_branches, open_branches, AreWithin, wait, node_children, node_rule};

use crate::error::CheckErr;
use refute_branch::{OpenBranch, add_formula, go_back, start};
use refute_defs::Node;
use refute_rules::{Addition, Stop, children};
use rp_logic::{Fml, Sig};
use rp_value::{List, Memory};
use std::alloc::Global;

/// A branch that is still to be closed: with how many formulas and constants of the branch that is
/// kept it begins, and what is added to them.
#[derive(Drop)]
pub(crate) struct Waiting {
    pub formulas: u32,
    pub added: u32,
    pub addition: Addition,
}

/// The branch that waited becomes the one that is kept.
#[tactic(auto, using(crate::proofs::Walks::kept_formulas))]
fn enter(sig: &Sig, b: &mut OpenBranch, waiting: Waiting) -> Result<(), Memory>
    requires fewer { waiting.formulas ≤ length b.old.formulas }
    requires marked { HasMarks sig.now b.old }
    ensures branch { OnOk result
        (branch_view b.new ≡ waiting_branch (branch_view b.old) waiting) }
    ensures marked { OnOk result (HasMarks sig.now b.new) }
{
    let Waiting {
        formulas,
        added,
        addition,
    } = waiting;
    let Addition { formula, brings } = addition;
    go_back(sig, b, formulas, added);
    add_formula(sig, b, formula)?;
    match brings {
        Some(new) => {
            b.added.push(new)?;
            Ok(())
        }
        None => Ok(()),
    }
}

/// The children wait, the first one next.
fn wait_for_each(
    waiting: &mut List<Waiting>,
    formulas: u32,
    added: u32,
    children: List<Addition>,
) -> Result<(), Memory>
    ensures { OnOk result (reverse waiting.new
        ≡ map (wait formulas added) children ++ reverse waiting.old) }
{
    let mut left = children;
    while let Some(addition) = left.pop() {
        waiting.push(Waiting {
            formulas,
            added,
            addition,
        })?;
    }
    Ok(())
}

/// The next branch that waits becomes the one that is kept. `false` says that there is none.
fn enter_next(sig: &Sig, b: &mut OpenBranch, waiting: &mut List<Waiting>) -> Result<bool, Memory>
    requires within { AreWithin b.old waiting.old }
    requires marked { HasMarks sig.now b.old }
    ensures open { IfOk result
        (λ is_open. open_branches is_open (branch_view b.new) waiting.new
        ≡ waiting_branches (branch_view b.old) waiting.old) }
    ensures within { OnOk result (AreWithin b.new waiting.new) }
    ensures marked { OnOk result (HasMarks sig.now b.new) }
{
    match waiting.pop() {
        Some(next) => {
            enter(sig, b, next)?;
            Ok(true)
        }
        None => Ok(false),
    }
}

/// The rule of a node, 0 for a leaf that isn't a rule.
fn rule_of(node: &Node) -> u8
    ensures { result ≡ node_rule (node_view node.now) }
{
    match node {
        Node::Rule(u) => u.rule,
        Node::Unvisited => 0,
        Node::Current => 0,
    }
}

fn children_of(
    alloc: Global,
    sig: &Sig,
    b: &OpenBranch,
    node: &Node,
) -> Result<List<Addition>, Stop>
    requires { HasMarks sig.now b.now }
    ensures found { IfOk result
        (λ adds. node_children (sig_view sig.now) (branch_view b.now) (node_view node.now)
        ≡ Some (map addition_view adds)) }
    ensures unmet { IsErrOf result Stop.Unmet
        → node_children (sig_view sig.now) (branch_view b.now) (node_view node.now) ≡ None }
{
    match node {
        Node::Rule(u) => children(alloc, sig, b, u),
        Node::Unvisited => Err(Stop::Unmet),
        Node::Current => Err(Stop::Unmet),
    }
}

/// Closes the branch that is kept, or lets the children of the node wait in its place, and enters
/// the next branch.
fn visit(
    alloc: Global,
    sig: &Sig,
    b: &mut OpenBranch,
    waiting: &mut List<Waiting>,
    node: &Node,
    number: u32,
) -> Result<bool, CheckErr>
    requires within { AreWithin b.old waiting.old }
    requires marked { HasMarks sig.now b.old }
    ensures goes_on { IfOk result
        (λ is_open. (nodes : Items Nd) → verdict_from (sig_view sig.now) number
        (open_branches true (branch_view b.old) waiting.old) (node_view node.now ∷ nodes)
        ≡ verdict_from (sig_view sig.now) (suc number)
        (open_branches is_open (branch_view b.new) waiting.new) nodes) }
    ensures bad { IfBad result
        (λ m rule. (nodes : Items Nd) → verdict_from (sig_view sig.now) number
        (open_branches true (branch_view b.old) waiting.old) (node_view node.now ∷ nodes)
        ≡ Bad m rule) }
    ensures within { OnOk result (AreWithin b.new waiting.new) }
    ensures marked { OnOk result (HasMarks sig.now b.new) }
{
    match children_of(alloc, sig, b, node) {
        Ok(adds) => {
            wait_for_each(waiting, b.formulas.count(), b.added.count(), adds)?;
            Ok(enter_next(sig, b, waiting)?)
        }
        Err(Stop::Unmet) => Err(CheckErr::Bad {
            node: number,
            rule: rule_of(node),
        }),
        Err(Stop::Memory) => Err(CheckErr::Memory),
    }
}

/// The verdict of the nodes, as trees of the given formulas.
pub(crate) fn walk(
    alloc: Global,
    sig: &Sig,
    given: &List<Fml>,
    nodes: &List<Node>,
) -> Result<(), CheckErr>
    ensures { IsVerdict result
        (verdict (sig_view sig.now) (given_view given.now) (map node_view nodes.now)) }
{
    let mut b = start(alloc, sig, given)?;
    let mut waiting = List::new(alloc);
    let mut is_open = true;
    for n in 0..nodes.count() {
        if !is_open {
            return Err(CheckErr::Bad { node: n, rule: 0 });
        }
        is_open = visit(alloc, sig, &mut b, &mut waiting, nodes.get(n as usize), n)?;
    }
    if is_open {
        Err(CheckErr::Bad {
            node: nodes.count(),
            rule: 0,
        })
    } else {
        Ok(())
    }
}
