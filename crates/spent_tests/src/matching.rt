//! Terms that match a universal plainly.
ghost use Rattle.std.specs.Prelude.{◌≡◌, map, length};
ghost use Rattle.std.specs.List.{list_any};
ghost use Rattle.rp_logic.specs.Scopes.{scope_view};
ghost use Rattle.rp_logic.specs.SigView.{sig_view};
ghost use Rattle.rp_logic.specs.Views.{term_view, terms_view, atom_view, formula_view, formulas_view};
ghost use Rattle.refute_defs.specs.Same.{same_tm};
ghost use Rattle.refute_branch.specs.Views.{branch_view};
ghost use Rattle.spent_defs.specs.Atoms.{some_atom, some_atom_of};
ghost use Rattle.spent_defs.specs.Matching as spec;
ghost use Rattle.spent_tests.specs.Views.{IsListed};
ghost use Rattle.spent_tests.specs.means.Parts.{var_fits};

use crate::bodies::{atom_holds_var, is_inner, is_own};
use crate::branch::RankedBranch;
use crate::on::stands;
use refute_branch::{OpenBranch, is_of_sort, is_same};
use rp_logic::{Atom, Fml, Scope, Sig, Term};

/// Whether the closed term u fits a variable of the body.
fn fits_var(t: &Term, inner: &Scope, n: u32, u: &Term) -> bool
    ensures { result ≡ var_fits same_tm (term_view t.now) (length (scope_view inner.now)) n
        (term_view u.now) }
{
    if is_own(inner, n) {
        is_same(u, t)
    } else {
        is_inner(inner, n)
    }
}

/// Whether the closed term u fits the body's term s, for t.
#[cycle(fits)]
#[tactic(auto, using(rp_logic::proofs::TermViews::term_views))]
fn fits(s: &Term, u: &Term, t: &Term, inner: &Scope) -> bool
    ensures { result ≡ spec.fits same_tm (term_view t.now) (length (scope_view inner.now))
        (term_view s.now) (term_view u.now) }
{
    match s {
        Term::Var(n) => fits_var(t, inner, *n, u),
        Term::Const(_) => is_same(s, u),
        Term::Int(_) => is_same(s, u),
        Term::Str(_) => is_same(s, u),
        Term::Fn(f, ss) => match u {
            Term::Fn(g, us) => *f == *g && all_fit(ss.as_slice(), us.as_slice(), t, inner),
            _ => false,
        },
        Term::Con(c, ss) => match u {
            Term::Con(d, us) => *c == *d && all_fit(ss.as_slice(), us.as_slice(), t, inner),
            _ => false,
        },
        Term::Sel(c, i, s) => match u {
            Term::Sel(d, j, u) => *c == *d && *i == *j && fits(s.get(), u.get(), t, inner),
            _ => false,
        },
        Term::Plus(s, m) => match u {
            Term::Plus(u, n) => *m == *n && fits(s.get(), u.get(), t, inner),
            _ => false,
        },
    }
}

#[cycle(fits)]
fn all_fit(ss: &[Term], us: &[Term], t: &Term, inner: &Scope) -> bool
    ensures { result ≡ spec.all_fit same_tm (term_view t.now) (length (scope_view inner.now))
        (terms_view ss.now) (terms_view us.now) }
{
    if ss.len() != us.len() {
        return false;
    }
    for i in 0..ss.len() {
        if !fits(&ss[i], &us[i], t, inner) {
            return false;
        }
    }
    true
}

fn atom_fits(t: &Term, inner: &Scope, a: &Atom, c: &Atom) -> bool
    ensures { result ≡ spec.atom_fits same_tm (term_view t.now) (length (scope_view inner.now))
        (atom_view a.now) (atom_view c.now) }
{
    match a {
        Atom::Equal(a, b) => match c {
            Atom::Equal(u, v) => fits(a, u, t, inner) && fits(b, v, t, inner),
            _ => false,
        },
        Atom::Le { a, b, k: m } => match c {
            Atom::Le { a: u, b: v, k: n } => {
                *m == *n && fits(a, u, t, inner) && fits(b, v, t, inner)
            }
            _ => false,
        },
        Atom::Rel(r, ss) => match c {
            Atom::Rel(q, us) => *r == *q && all_fit(ss.as_slice(), us.as_slice(), t, inner),
            _ => false,
        },
    }
}

/// Whether the formula is a literal whose atom the body's atom fits.
#[tactic(auto, using(rp_logic::proofs::FormulaViews::formula_views))]
fn literal_fits(t: &Term, inner: &Scope, a: &Atom, f: &Fml) -> bool
    ensures { result ≡ spec.is_literal_that
        (spec.atom_fits same_tm (term_view t.now) (length (scope_view inner.now)) (atom_view a.now))
        (formula_view f.now) }
{
    match f {
        Fml::And(_) => false,
        Fml::Or(_) => false,
        Fml::All(_, _) => false,
        Fml::Ex(_, _) => false,
        Fml::Lit(_, c) => atom_fits(t, inner, a, c),
    }
}

fn some_literal_fits(t: &Term, inner: &Scope, a: &Atom, formulas: &[Fml]) -> bool
    ensures { result ≡ list_any (spec.is_literal_that
        (spec.atom_fits same_tm (term_view t.now) (length (scope_view inner.now)) (atom_view a.now)))
        (map formula_view formulas.now) }
{
    for f in formulas {
        if literal_fits(t, inner, a, f) {
            return true;
        }
    }
    false
}

fn finds_literal(b: &OpenBranch, t: &Term, inner: &Scope, a: &Atom) -> bool
    ensures { result ≡ spec.finds_literal same_tm (branch_view b.now) (term_view t.now)
        (length (scope_view inner.now)) (atom_view a.now) }
{
    atom_holds_var(inner, a) && some_literal_fits(t, inner, a, b.formulas.as_slice())
}

#[cycle(body_finds_literal)]
#[tactic(auto, using(rp_logic::proofs::FormulaViews::formula_views, rp_logic::proofs::ScopeViews::scope_views))]
fn body_finds_literal(f: &Fml, b: &OpenBranch, t: &Term, inner: &Scope) -> bool
    ensures { result ≡ some_atom (spec.finds_literal same_tm (branch_view b.now) (term_view t.now))
        (length (scope_view inner.now)) (formula_view f.now) }
{
    match f {
        Fml::And(parts) => some_body_finds_literal(parts.as_slice(), b, t, inner),
        Fml::Or(parts) => some_body_finds_literal(parts.as_slice(), b, t, inner),
        Fml::All(sort, body) => body_finds_literal(
            body.get(),
            &*b,
            &*t,
            &Scope::Under(*sort, &*inner),
        ),
        Fml::Ex(sort, body) => body_finds_literal(
            body.get(),
            &*b,
            &*t,
            &Scope::Under(*sort, &*inner),
        ),
        Fml::Lit(_, a) => finds_literal(b, t, inner, a),
    }
}

#[cycle(body_finds_literal)]
fn some_body_finds_literal(formulas: &[Fml], b: &OpenBranch, t: &Term, inner: &Scope) -> bool
    ensures { result
        ≡ some_atom_of (spec.finds_literal same_tm (branch_view b.now) (term_view t.now))
        (length (scope_view inner.now)) (formulas_view formulas.now) }
{
    for f in formulas {
        if body_finds_literal(f, b, t, inner) {
            return true;
        }
    }
    false
}

/// Whether the term matches the universal of the sort and the body plainly.
#[tactic(auto, using(rp_logic::proofs::ScopeViews::scope_views))]
pub(crate) fn matches_plainly(sig: &Sig, b: &RankedBranch, sort: u32, body: &Fml, t: &Term) -> bool
    requires { IsListed b.now }
    ensures { result ≡ spec.matches_plainly (sig_view sig.now) (branch_view b.now.branch) sort
        (formula_view body.now) (term_view t.now) }
{
    is_of_sort(sig, &b.branch, sort, t)
        && stands(b, t)
        && body_finds_literal(body, &b.branch, t, &Scope::Closed)
}
