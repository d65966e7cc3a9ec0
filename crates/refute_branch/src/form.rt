//! Formulas by their form.
ghost use Rattle.std.specs.Prelude.{◌≡◌, option_map, true, false};
ghost use Rattle.rp_logic.specs.Views.{formula_view, formulas_view, atom_view};
ghost use Rattle.refute_defs.specs.Children as spec;
ghost use Rattle.refute_branch.specs.Views.{sides_view, order_view};

use rp_logic::{Atom, Fml, Term};
use rp_value::List;

/// The sides of an equality.
#[derive(Clone, Copy)]
pub struct Sides<'a> {
    pub left: &'a Term,
    pub right: &'a Term,
}

/// a <= b + k.
#[derive(Clone, Copy)]
pub struct Order<'a> {
    pub a: &'a Term,
    pub b: &'a Term,
    pub k: i128,
}

#[tactic(auto, using(rp_logic::proofs::FormulaViews::formula_views))]
pub(crate) fn conjuncts(f: &Fml) -> Option<&List<Fml>>
    ensures { option_map (λ fs. formulas_view fs.now) result ≡ spec.conjuncts (formula_view f.now) }
{
    match f {
        Fml::And(parts) => Some(parts),
        Fml::Or(_) => None,
        Fml::All(_, _) => None,
        Fml::Ex(_, _) => None,
        Fml::Lit(_, _) => None,
    }
}

#[tactic(auto, using(rp_logic::proofs::FormulaViews::formula_views))]
pub(crate) fn disjuncts(f: &Fml) -> Option<&List<Fml>>
    ensures { option_map (λ fs. formulas_view fs.now) result ≡ spec.disjuncts (formula_view f.now) }
{
    match f {
        Fml::And(_) => None,
        Fml::Or(parts) => Some(parts),
        Fml::All(_, _) => None,
        Fml::Ex(_, _) => None,
        Fml::Lit(_, _) => None,
    }
}

/// The sort and the body of an `All`.
#[tactic(auto, using(rp_logic::proofs::FormulaViews::formula_views))]
pub(crate) fn universal(f: &Fml) -> Option<(u32, &Fml)>
    ensures { option_map (λ x. (x.0, formula_view x.1.now)) result
        ≡ spec.universal (formula_view f.now) }
{
    match f {
        Fml::And(_) => None,
        Fml::Or(_) => None,
        Fml::All(sort, body) => Some((*sort, body.get())),
        Fml::Ex(_, _) => None,
        Fml::Lit(_, _) => None,
    }
}

/// The sort and the body of an `Ex`.
#[tactic(auto, using(rp_logic::proofs::FormulaViews::formula_views))]
pub(crate) fn existential(f: &Fml) -> Option<(u32, &Fml)>
    ensures { option_map (λ x. (x.0, formula_view x.1.now)) result
        ≡ spec.existential (formula_view f.now) }
{
    match f {
        Fml::And(_) => None,
        Fml::Or(_) => None,
        Fml::All(_, _) => None,
        Fml::Ex(sort, body) => Some((*sort, body.get())),
        Fml::Lit(_, _) => None,
    }
}

#[tactic(auto, using(rp_logic::proofs::FormulaViews::formula_views))]
pub(crate) fn literal(f: &Fml) -> Option<(bool, &Atom)>
    ensures { option_map (λ l. (l.0, atom_view l.1.now)) result
        ≡ spec.literal (formula_view f.now) }
{
    match f {
        Fml::And(_) => None,
        Fml::Or(_) => None,
        Fml::All(_, _) => None,
        Fml::Ex(_, _) => None,
        Fml::Lit(sign, atom) => Some((*sign, atom)),
    }
}

#[tactic(auto, using(rp_logic::proofs::FormulaViews::formula_views))]
pub(crate) fn equality(f: &Fml) -> Option<Sides>
    ensures { option_map sides_view result ≡ spec.equality (formula_view f.now) }
{
    match f {
        Fml::And(_) => None,
        Fml::Or(_) => None,
        Fml::All(_, _) => None,
        Fml::Ex(_, _) => None,
        Fml::Lit(false, _) => None,
        Fml::Lit(true, Atom::Equal(a, b)) => Some(Sides { left: a, right: b }),
        Fml::Lit(true, Atom::Le { .. }) => None,
        Fml::Lit(true, Atom::Rel(_, _)) => None,
    }
}

#[tactic(auto, using(rp_logic::proofs::FormulaViews::formula_views))]
pub(crate) fn stated_order(f: &Fml) -> Option<Order>
    ensures { option_map order_view result ≡ spec.order true (formula_view f.now) }
{
    match f {
        Fml::And(_) => None,
        Fml::Or(_) => None,
        Fml::All(_, _) => None,
        Fml::Ex(_, _) => None,
        Fml::Lit(false, _) => None,
        Fml::Lit(true, Atom::Equal(_, _)) => None,
        Fml::Lit(true, Atom::Le { a, b, k }) => Some(Order { a, b, k: *k }),
        Fml::Lit(true, Atom::Rel(_, _)) => None,
    }
}

/// The order whose negation the literal is.
#[tactic(auto, using(rp_logic::proofs::FormulaViews::formula_views))]
pub(crate) fn denied_order(f: &Fml) -> Option<Order>
    ensures { option_map order_view result ≡ spec.order false (formula_view f.now) }
{
    match f {
        Fml::And(_) => None,
        Fml::Or(_) => None,
        Fml::All(_, _) => None,
        Fml::Ex(_, _) => None,
        Fml::Lit(true, _) => None,
        Fml::Lit(false, Atom::Equal(_, _)) => None,
        Fml::Lit(false, Atom::Le { a, b, k }) => Some(Order { a, b, k: *k }),
        Fml::Lit(false, Atom::Rel(_, _)) => None,
    }
}
