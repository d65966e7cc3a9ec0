//! Rules of order.
ghost use Rattle.std.specs.Prelude.{◌≡◌, pos, option_map};
ghost use Rattle.rp_logic.specs.SigView.{sig_view};
ghost use Rattle.rp_logic.specs.Terms as tm;
ghost use Rattle.rp_logic.specs.Views.{term_view};
ghost use Rattle.refute_defs.specs.Views.{use_view};
ghost use Rattle.refute_defs.specs.Children as spec;
ghost use Rattle.refute_branch.specs.Views.{branch_view, order_view};
ghost use Rattle.refute_rules.specs.means.Conclusions.{concluded, sum_after, bounds_formula};

use crate::conclusion::Conclusion;
use crate::sums::{difference, negated, sum, turned};
use refute_branch::{
    OpenBranch, Order, denied_order_at, equality_at, is_number, is_same, is_term, order_at,
    term_and_pick, the_place, the_places, two_places, two_terms,
};
use refute_defs::RuleUse;
use rp_logic::{Sig, Term};

/// The sum with the number of an order that begins with the term.
fn sum_from(at: &Term, so_far: i128, o: &Order) -> Option<i128>
    ensures { result ≡ sum_after (term_view at.now) so_far (order_view o.now) }
{
    if is_same(at, o.a) {
        sum(so_far, o.k)
    } else {
        None
    }
}

/// The sum of the orders at the places, which lead from the term to itself.
fn sum_of_chain(b: &OpenBranch, places: &[u32], start: &Term) -> Option<i128>
    ensures { result
        ≡ spec.chain (branch_view b.now) places.now (term_view start.now) (term_view start.now)
        (pos 0) }
{
    let mut at = start;
    let mut total: i128 = 0;
    for p in places {
        let o = order_at(b, *p)?;
        total = sum_from(at, total, &o)?;
        at = o.b;
    }
    if is_same(at, start) {
        Some(total)
    } else {
        None
    }
}

/// The sum of orders that lead from a term to itself.
fn sum_around(b: &OpenBranch, places: &[u32]) -> Option<i128>
    ensures { result ≡ spec.sum_around (branch_view b.now) places.now }
{
    match places.first() {
        Some(p) => match order_at(b, *p) {
            Some(o) => sum_of_chain(b, places, o.a),
            None => None,
        },
        None => None,
    }
}

/// Orders that lead from a term to itself, with a negative sum, close the branch.
pub(crate) fn cycle<'a>(b: &OpenBranch, u: &RuleUse) -> Option<Conclusion<'a>>
    ensures { option_map concluded result ≡ spec.cycle (branch_view b.now) (use_view u.now) }
{
    let places = the_places(u)?;
    let total = sum_around(b, places)?;
    if total < 0 {
        Some(Conclusion::Closed)
    } else {
        None
    }
}

/// Of the negation of a <= b + k the order b <= a + (-k - 1).
pub(crate) fn turned_order<'a>(b: &'a OpenBranch, u: &RuleUse) -> Option<Conclusion<'a>>
    ensures { option_map concluded result ≡ spec.turned_order (branch_view b.now) (use_view u.now) }
{
    let p = the_place(u)?;
    let o = denied_order_at(b, p)?;
    let k = turned(o.k)?;
    Some(Conclusion::AtMost(Order { a: o.b, b: o.a, k }))
}

/// Of an equality a = b of numbers the order a <= b + 0.
pub(crate) fn order_of_equals<'a>(
    sig: &Sig,
    b: &'a OpenBranch,
    u: &RuleUse,
) -> Option<Conclusion<'a>>
    ensures { option_map concluded result
        ≡ spec.order_of_equals (sig_view sig.now) (branch_view b.now) (use_view u.now) }
{
    let p = the_place(u)?;
    let e = equality_at(b, p)?;
    if is_number(sig, b, e.left) {
        Some(Conclusion::AtMost(Order {
            a: e.left,
            b: e.right,
            k: 0,
        }))
    } else {
        None
    }
}

/// Of a <= b + 0 and b <= a + 0 the equality a = b.
pub(crate) fn equals_by_order<'a>(b: &'a OpenBranch, u: &RuleUse) -> Option<Conclusion<'a>>
    ensures { option_map concluded result
        ≡ spec.equals_by_order (branch_view b.now) (use_view u.now) }
{
    let (p, q) = two_places(u)?;
    let o = order_at(b, p)?;
    let r = order_at(b, q)?;
    if o.k == 0 && r.k == 0 && is_same(o.a, r.b) && is_same(o.b, r.a) {
        Some(Conclusion::Equal(o.a, o.b))
    } else {
        None
    }
}

/// t + k <= t + k
#[tactic(auto, using(rp_logic::proofs::TermViews::term_views))]
fn upper_bound(t: &Term) -> Option<Order>
    ensures { option_map bounds_formula result ≡ spec.order_of_sum 0 (term_view t.now) }
{
    match t {
        Term::Var(_) => None,
        Term::Const(_) => None,
        Term::Fn(_, _) => None,
        Term::Int(_) => None,
        Term::Str(_) => None,
        Term::Con(_, _) => None,
        Term::Sel(_, _, _) => None,
        Term::Plus(inner, k) => Some(Order {
            a: t,
            b: inner.get(),
            k: *k,
        }),
    }
}

/// t <= (t + k) + (-k)
#[tactic(auto, using(rp_logic::proofs::TermViews::term_views))]
fn lower_bound(t: &Term) -> Option<Order>
    ensures { option_map bounds_formula result ≡ spec.order_of_sum 1 (term_view t.now) }
{
    match t {
        Term::Var(_) => None,
        Term::Const(_) => None,
        Term::Fn(_, _) => None,
        Term::Int(_) => None,
        Term::Str(_) => None,
        Term::Con(_, _) => None,
        Term::Sel(_, _, _) => None,
        Term::Plus(inner, k) => match negated(*k) {
            Some(k) => Some(Order {
                a: inner.get(),
                b: t,
                k,
            }),
            None => None,
        },
    }
}

#[tactic(auto, using(crate::proofs::Cases::no_third_bound))]
fn bound(pick: u32, t: &Term) -> Option<Order>
    ensures { option_map bounds_formula result ≡ spec.order_of_sum pick (term_view t.now) }
{
    if pick == 0 {
        upper_bound(t)
    } else if pick == 1 {
        lower_bound(t)
    } else {
        None
    }
}

/// Of t + k, with the number 0 the order t + k <= t + k, with 1 the order t <= (t + k) + (-k).
pub(crate) fn plus<'a>(sig: &Sig, b: &OpenBranch, u: &'a RuleUse) -> Option<Conclusion<'a>>
    ensures { option_map concluded result
        ≡ spec.plus (sig_view sig.now) (branch_view b.now) (use_view u.now) }
{
    let t = term_and_pick(u)?;
    if is_term(sig, b, t) {
        let o = bound(u.pick, t)?;
        Some(Conclusion::AtMost(o))
    } else {
        None
    }
}

/// The order of the number m and the term, where the term is a number.
#[tactic(auto, using(rp_logic::proofs::TermViews::term_views))]
fn order_of_number<'a>(m: i128, t: &'a Term, other: &'a Term) -> Option<Order<'a>>
    requires { term_view t.now ≡ tm.Int m }
    ensures { option_map bounds_formula result
        ≡ spec.difference (term_view t.now) (term_view other.now) }
{
    match other {
        Term::Var(_) => None,
        Term::Const(_) => None,
        Term::Fn(_, _) => None,
        Term::Int(n) => match difference(m, *n) {
            Some(k) => Some(Order { a: t, b: other, k }),
            None => None,
        },
        Term::Str(_) => None,
        Term::Con(_, _) => None,
        Term::Sel(_, _, _) => None,
        Term::Plus(_, _) => None,
    }
}

/// m <= n + (m - n)
#[tactic(auto, using(rp_logic::proofs::TermViews::term_views))]
fn order_of_two_numbers<'a>(t: &'a Term, other: &'a Term) -> Option<Order<'a>>
    ensures { option_map bounds_formula result
        ≡ spec.difference (term_view t.now) (term_view other.now) }
{
    match t {
        Term::Var(_) => None,
        Term::Const(_) => None,
        Term::Fn(_, _) => None,
        Term::Int(m) => order_of_number(*m, t, other),
        Term::Str(_) => None,
        Term::Con(_, _) => None,
        Term::Sel(_, _, _) => None,
        Term::Plus(_, _) => None,
    }
}

/// Of two numbers m and n the order m <= n + (m - n).
pub(crate) fn numbers<'a>(sig: &Sig, b: &OpenBranch, u: &'a RuleUse) -> Option<Conclusion<'a>>
    ensures { option_map concluded result
        ≡ spec.numbers (sig_view sig.now) (branch_view b.now) (use_view u.now) }
{
    let (m, n) = two_terms(u)?;
    if is_term(sig, b, m) && is_term(sig, b, n) {
        let o = order_of_two_numbers(m, n)?;
        Some(Conclusion::AtMost(o))
    } else {
        None
    }
}
