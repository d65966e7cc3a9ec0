//! The atoms of a quantifier's body, and its variable in them.
ghost use Rattle.std.specs.Prelude.{◌≡◌, ◌==◌, nat_lt, length};
ghost use Rattle.rp_logic.specs.Scopes.{scope_view};
ghost use Rattle.rp_logic.specs.Views.{term_view, terms_view, atom_view, formula_view, formulas_view};
ghost use Rattle.spent_defs.specs.Atoms as spec;

use rp_logic::{Atom, Fml, Scope, Term};

/// Whether the n-th variable is the one that the body's quantifier binds, under the scope of the
/// quantifiers inside the body.
#[tactic(auto, using(rp_logic::proofs::ScopeViews::scope_views))]
pub(crate) fn is_own(inner: &Scope, n: u32) -> bool
    ensures { result ≡ (n == length (scope_view inner.now)) }
{
    match inner {
        Scope::Closed => n == 0,
        Scope::Under(_, outer) => n != 0 && is_own(outer, n - 1),
    }
}

/// Whether a quantifier inside the body binds the n-th variable.
#[tactic(auto, using(rp_logic::proofs::ScopeViews::scope_views))]
pub(crate) fn is_inner(inner: &Scope, n: u32) -> bool
    ensures { result ≡ nat_lt n (length (scope_view inner.now)) }
{
    match inner {
        Scope::Closed => false,
        Scope::Under(_, outer) => n == 0 || is_inner(outer, n - 1),
    }
}

#[cycle(holds_var)]
#[tactic(auto, using(rp_logic::proofs::TermViews::term_views))]
fn holds_var(inner: &Scope, t: &Term) -> bool
    ensures { result ≡ spec.holds_var (length (scope_view inner.now)) (term_view t.now) }
{
    match t {
        Term::Var(n) => is_own(inner, *n),
        Term::Const(_) => false,
        Term::Fn(_, args) => some_hold_var(inner, args.as_slice()),
        Term::Int(_) => false,
        Term::Str(_) => false,
        Term::Con(_, args) => some_hold_var(inner, args.as_slice()),
        Term::Sel(_, _, t) => holds_var(inner, t.get()),
        Term::Plus(t, _) => holds_var(inner, t.get()),
    }
}

#[cycle(holds_var)]
fn some_hold_var(inner: &Scope, terms: &[Term]) -> bool
    ensures { result ≡ spec.some_hold_var (length (scope_view inner.now)) (terms_view terms.now) }
{
    for t in terms {
        if holds_var(inner, t) {
            return true;
        }
    }
    false
}

pub(crate) fn atom_holds_var(inner: &Scope, atom: &Atom) -> bool
    ensures { result ≡ spec.atom_holds_var (length (scope_view inner.now)) (atom_view atom.now) }
{
    match atom {
        Atom::Equal(a, b) => holds_var(inner, a) || holds_var(inner, b),
        Atom::Le { a, b, k: _ } => holds_var(inner, a) || holds_var(inner, b),
        Atom::Rel(_, args) => some_hold_var(inner, args.as_slice()),
    }
}

#[cycle(formula_holds_var)]
#[tactic(auto, using(rp_logic::proofs::FormulaViews::formula_views, rp_logic::proofs::ScopeViews::scope_views))]
fn formula_holds_var(inner: &Scope, f: &Fml) -> bool
    ensures { result ≡ spec.some_atom spec.atom_holds_var (length (scope_view inner.now))
        (formula_view f.now) }
{
    match f {
        Fml::And(parts) => some_formula_holds_var(inner, parts.as_slice()),
        Fml::Or(parts) => some_formula_holds_var(inner, parts.as_slice()),
        Fml::All(sort, body) => formula_holds_var(&Scope::Under(*sort, &*inner), body.get()),
        Fml::Ex(sort, body) => formula_holds_var(&Scope::Under(*sort, &*inner), body.get()),
        Fml::Lit(_, atom) => atom_holds_var(inner, atom),
    }
}

#[cycle(formula_holds_var)]
fn some_formula_holds_var(inner: &Scope, formulas: &[Fml]) -> bool
    ensures { result ≡ spec.some_atom_of spec.atom_holds_var (length (scope_view inner.now))
        (formulas_view formulas.now) }
{
    for f in formulas {
        if formula_holds_var(inner, f) {
            return true;
        }
    }
    false
}

/// Whether the quantifier's variable stands in its body.
#[tactic(auto, using(rp_logic::proofs::ScopeViews::scope_views))]
pub(crate) fn uses_var(body: &Fml) -> bool
    ensures { result ≡ spec.uses_var (formula_view body.now) }
{
    formula_holds_var(&Scope::Closed, body)
}
