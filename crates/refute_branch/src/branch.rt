//! Branches: the formulas from the root to a node.
ghost use Rattle.std.specs.Prelude.{◌≡◌, ◌≤◌, ◌∷◌, [], ◌++◌, IfOk, OnOk, option_map, option_and_then, true, false, length, take};
ghost use Rattle.rp_logic.specs.Views.{formula_view, formulas_view, atom_view};
ghost use Rattle.rp_logic.specs.SigView.{sig_view};
ghost use Rattle.refute_defs.specs.Branches.{root, formula_at as spec_formula_at};
ghost use Rattle.refute_defs.specs.Constants.{is_new as spec_is_new};
ghost use Rattle.refute_defs.specs.Views.{given_view};
ghost use Rattle.refute_defs.specs.Children as spec;
ghost use Rattle.refute_branch.specs.Views.{branch_view, sides_view, order_view};
ghost use Rattle.refute_branch.specs.Marks.{HasMarks};

use crate::form::{
    Order, Sides, conjuncts, denied_order, disjuncts, equality, existential, literal, stated_order,
    universal,
};
use crate::marks::{Mark, drop_marks, is_marked, mark_formula};
use rp_logic::{Atom, Fml, NewConst, Sig};
use rp_value::{List, Memory};
use std::alloc::Global;

/// The given formulas, then the added ones, each at its place, the constants that were brought, the
/// oldest first, and marks of the constants past the signature's that stand in the formulas.
#[derive(Drop)]
pub struct OpenBranch {
    pub formulas: List<Fml>,
    pub added: List<NewConst>,
    pub marks: List<Mark>,
}

/// Adds a formula, and marks its constants that have no mark.
pub fn add_formula(sig: &Sig, b: &mut OpenBranch, formula: Fml) -> Result<(), Memory>
    requires { HasMarks sig.now b.old }
    ensures formulas { OnOk result (b.new.formulas ≡ b.old.formulas ++ formula ∷ []) }
    ensures added { OnOk result (b.new.added ≡ b.old.added) }
    ensures marked { OnOk result (HasMarks sig.now b.new) }
{
    let place = b.formulas.count();
    b.formulas.push(formula)?;
    let formula = b.formulas.get(place as usize);
    mark_formula(sig.consts.count(), place, &mut b.marks, formula)?;
    Ok(())
}

/// Lets go all but the first elements.
fn shorten<T: Drop>(list: &mut List<T>, n: u32)
    ensures { list.new ≡ take n list.old }
{
    while list.count() > n {
        list.pop();
    }
}

/// Lets go all but the first formulas and constants of the branch.
pub fn go_back(sig: &Sig, b: &mut OpenBranch, formulas: u32, added: u32)
    requires fewer { formulas ≤ length b.old.formulas }
    requires marked { HasMarks sig.now b.old }
    ensures formulas { b.new.formulas ≡ take formulas b.old.formulas }
    ensures added { b.new.added ≡ take added b.old.added }
    ensures marked { HasMarks sig.now b.new }
{
    shorten(&mut b.formulas, formulas);
    shorten(&mut b.added, added);
    drop_marks(&mut b.marks, formulas);
}

/// The branch of the root.
#[tactic(auto, using(crate::proofs::MarkedBranches::started, crate::proofs::Marking::none_marked))]
pub fn start(alloc: Global, sig: &Sig, given: &List<Fml>) -> Result<OpenBranch, Memory>
    ensures branch { IfOk result (λ b. branch_view b ≡ root (given_view given.now)) }
    ensures marked { IfOk result (λ b. HasMarks sig.now b) }
{
    let mut b = OpenBranch {
        formulas: List::new(alloc),
        added: List::new(alloc),
        marks: List::new(alloc),
    };
    for f in given.as_slice() {
        add_formula(sig, &mut b, f.copy(alloc)?)?;
    }
    Ok(b)
}

/// Whether the constant stands neither in the signature nor on the branch.
pub fn is_new(sig: &Sig, b: &OpenBranch, c: u32) -> bool
    requires { HasMarks sig.now b.now }
    ensures { result ≡ spec_is_new (sig_view sig.now) (branch_view b.now) c }
{
    sig.consts.count() <= c && !is_marked(&b.marks, c)
}

#[tactic(auto, using(crate::proofs::Lists::gets))]
pub fn formula_at(b: &OpenBranch, p: u32) -> Option<&Fml>
    ensures { option_map (λ f. formula_view f.now) result ≡ spec_formula_at (branch_view b.now) p }
{
    b.formulas.as_slice().get(p as usize)
}

/// The equality at the place.
pub fn equality_at(b: &OpenBranch, p: u32) -> Option<Sides>
    ensures { option_map sides_view result ≡ spec.equality_at (branch_view b.now) p }
{
    match formula_at(b, p) {
        Some(f) => equality(f),
        None => None,
    }
}

/// The order at the place.
pub fn order_at(b: &OpenBranch, p: u32) -> Option<Order>
    ensures { option_map order_view result ≡ spec.order_at true (branch_view b.now) p }
{
    match formula_at(b, p) {
        Some(f) => stated_order(f),
        None => None,
    }
}

/// The order whose negation is at the place.
pub fn denied_order_at(b: &OpenBranch, p: u32) -> Option<Order>
    ensures { option_map order_view result ≡ spec.order_at false (branch_view b.now) p }
{
    match formula_at(b, p) {
        Some(f) => denied_order(f),
        None => None,
    }
}

/// The parts of the `And` at the place.
pub fn conjuncts_at(b: &OpenBranch, p: u32) -> Option<&List<Fml>>
    ensures { option_map (λ fs. formulas_view fs.now) result
        ≡ option_and_then spec.conjuncts (spec_formula_at (branch_view b.now) p) }
{
    match formula_at(b, p) {
        Some(f) => conjuncts(f),
        None => None,
    }
}

/// The parts of the `Or` at the place.
pub fn disjuncts_at(b: &OpenBranch, p: u32) -> Option<&List<Fml>>
    ensures { option_map (λ fs. formulas_view fs.now) result
        ≡ option_and_then spec.disjuncts (spec_formula_at (branch_view b.now) p) }
{
    match formula_at(b, p) {
        Some(f) => disjuncts(f),
        None => None,
    }
}

/// The sort and the body of the `All` at the place.
pub fn universal_at(b: &OpenBranch, p: u32) -> Option<(u32, &Fml)>
    ensures { option_map (λ x. (x.0, formula_view x.1.now)) result
        ≡ option_and_then spec.universal (spec_formula_at (branch_view b.now) p) }
{
    match formula_at(b, p) {
        Some(f) => universal(f),
        None => None,
    }
}

/// The sort and the body of the `Ex` at the place.
pub fn existential_at(b: &OpenBranch, p: u32) -> Option<(u32, &Fml)>
    ensures { option_map (λ x. (x.0, formula_view x.1.now)) result
        ≡ option_and_then spec.existential (spec_formula_at (branch_view b.now) p) }
{
    match formula_at(b, p) {
        Some(f) => existential(f),
        None => None,
    }
}

/// The literal at the place.
pub fn literal_at(b: &OpenBranch, p: u32) -> Option<(bool, &Atom)>
    ensures { option_map (λ l. (l.0, atom_view l.1.now)) result
        ≡ option_and_then spec.literal (spec_formula_at (branch_view b.now) p) }
{
    match formula_at(b, p) {
        Some(f) => literal(f),
        None => None,
    }
}
