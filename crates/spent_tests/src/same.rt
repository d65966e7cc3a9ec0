//! Equal formulas.
ghost use Rattle.std.specs.Prelude.{◌≡◌};
ghost use Rattle.rp_logic.specs.Views.{formula_view, formulas_view};
ghost use Rattle.spent_defs.specs.SameFormulas.{same_fm, same_fms};

use refute_branch::is_same_atom;
use rp_logic::Fml;

#[cycle(is_same_formula)]
#[tactic(auto, using(rp_logic::proofs::FormulaViews::formula_views))]
pub(crate) fn is_same_formula(f: &Fml, g: &Fml) -> bool
    ensures { result ≡ same_fm (formula_view f.now) (formula_view g.now) }
{
    match (f, g) {
        (Fml::And(a), Fml::And(b)) => are_same_formulas(a.as_slice(), b.as_slice()),
        (Fml::Or(a), Fml::Or(b)) => are_same_formulas(a.as_slice(), b.as_slice()),
        (Fml::All(s, a), Fml::All(t, b)) => *s == *t && is_same_formula(a.get(), b.get()),
        (Fml::Ex(s, a), Fml::Ex(t, b)) => *s == *t && is_same_formula(a.get(), b.get()),
        (Fml::Lit(true, a), Fml::Lit(true, b)) => is_same_atom(a, b),
        (Fml::Lit(false, a), Fml::Lit(false, b)) => is_same_atom(a, b),
        _ => false,
    }
}

#[cycle(is_same_formula)]
fn are_same_formulas(a: &[Fml], b: &[Fml]) -> bool
    ensures { result ≡ same_fms (formulas_view a.now) (formulas_view b.now) }
{
    if a.len() != b.len() {
        return false;
    }
    for i in 0..a.len() {
        if !is_same_formula(&a[i], &b[i]) {
            return false;
        }
    }
    true
}
