ghost use Rattle.std.specs.Prelude.{◌≡◌, IfOk, IsTrue, suc, map};
ghost use Rattle.rp_logic.specs.Terms.{is_closed};
ghost use Rattle.rp_logic.specs.Terms as tm;
ghost use Rattle.rp_logic.specs.Instance.{put, put_atom, instance_at, instance};
ghost use Rattle.rp_logic.specs.Truth.{IsInstance};
ghost use Rattle.rp_logic.specs.Views.{term_view, atom_view, formula_view};

use crate::atom::Atom;
use crate::formula::Fml;
use crate::term::Term;
use rp_value::{Boxed, List, Memory};
use std::alloc::Global;

/// The body of a quantifier with the closed term for its variable. It is true exactly where the body is true with the
/// term's value. Want of memory stands also for a body under more than 4,294,967,294 quantifiers.
pub fn substitute(alloc: Global, f: &Fml, t: &Term) -> Result<Fml, Memory>
    ensures instance { IfOk result (λ g. formula_view g ≡ instance (term_view t.now) (formula_view f.now)) }
    ensures truth { IsTrue (is_closed (term_view t.now)) → IfOk result (λ g. IsInstance (formula_view g) (term_view t.now) (formula_view f.now)) }
{
    in_formula(alloc, 0, f, t)
}

#[cycle(in_formula)]
#[tactic(auto, using(crate::proofs::FormulaViews::formula_views))]
fn in_formula(alloc: Global, k: u32, f: &Fml, t: &Term) -> Result<Fml, Memory>
    ensures { IfOk result (λ g. formula_view g ≡ instance_at k (term_view t.now) (formula_view f.now)) }
{
    match f {
        Fml::And(parts) => Ok(Fml::And(in_formulas(alloc, k, parts.as_slice(), t)?)),
        Fml::Or(parts) => Ok(Fml::Or(in_formulas(alloc, k, parts.as_slice(), t)?)),
        Fml::All(sort, body) => {
            let inner = one_more(k)?;
            let made = Boxed::new(alloc, in_formula(alloc, inner, body.get(), t)?)?;
            Ok(Fml::All(*sort, made))
        },
        Fml::Ex(sort, body) => {
            let inner = one_more(k)?;
            let made = Boxed::new(alloc, in_formula(alloc, inner, body.get(), t)?)?;
            Ok(Fml::Ex(*sort, made))
        },
        Fml::Lit(sign, atom) => Ok(Fml::Lit(*sign, in_atom(alloc, k, atom, t)?)),
    }
}

#[cycle(in_formula)]
#[tactic(auto, using(crate::proofs::FormulaViews::formula_views))]
fn in_formulas(alloc: Global, k: u32, formulas: &[Fml], t: &Term) -> Result<List<Fml>, Memory>
    ensures { IfOk result (λ gs. map formula_view gs ≡ map (λ f. instance_at k (term_view t.now) (formula_view f)) formulas.now) }
{
    let mut made = List::new(alloc);
    for f in formulas {
        made.push(in_formula(alloc, k, f, t)?)?;
    }
    Ok(made)
}

/// The number of the same variable under one more quantifier, as long as a variable can have it.
fn one_more(k: u32) -> Result<u32, Memory>
    ensures { IfOk result (λ n. n ≡ suc k) }
{
    if k == u32::MAX {
        return Err(Memory);
    }
    Ok(k + 1)
}

#[tactic(auto, using(crate::proofs::TermViews::term_views))]
fn in_atom(alloc: Global, k: u32, atom: &Atom, t: &Term) -> Result<Atom, Memory>
    ensures { IfOk result (λ made. atom_view made ≡ put_atom k (term_view t.now) (atom_view atom.now)) }
{
    match atom {
        Atom::Equal(a, b) => Ok(Atom::Equal(in_term(alloc, k, a, t)?, in_term(alloc, k, b, t)?)),
        Atom::Le { a, b, k: n } => Ok(Atom::Le {
            a: in_term(alloc, k, a, t)?,
            b: in_term(alloc, k, b, t)?,
            k: *n,
        }),
        Atom::Rel(r, args) => Ok(Atom::Rel(*r, in_terms(alloc, k, args.as_slice(), t)?)),
    }
}

/// u with t for the k-th variable.
#[cycle(in_term)]
#[tactic(auto, using(crate::proofs::TermViews::term_views))]
fn in_term(alloc: Global, k: u32, u: &Term, t: &Term) -> Result<Term, Memory>
    ensures { IfOk result (λ made. term_view made ≡ put k (term_view t.now) (term_view u.now)) }
{
    match u {
        Term::Var(n) => in_place(alloc, k, *n, t),
        Term::Const(c) => Ok(Term::Const(*c)),
        Term::Fn(f, args) => Ok(Term::Fn(*f, in_terms(alloc, k, args.as_slice(), t)?)),
        Term::Int(n) => Ok(Term::Int(*n)),
        Term::Str(_) => u.copy(alloc),
        Term::Con(c, args) => Ok(Term::Con(*c, in_terms(alloc, k, args.as_slice(), t)?)),
        Term::Sel(c, i, v) => {
            let made = Boxed::new(alloc, in_term(alloc, k, v.get(), t)?)?;
            Ok(Term::Sel(*c, *i, made))
        },
        Term::Plus(v, n) => {
            let made = Boxed::new(alloc, in_term(alloc, k, v.get(), t)?)?;
            Ok(Term::Plus(made, *n))
        },
    }
}

#[cycle(in_term)]
#[tactic(auto, using(crate::proofs::TermViews::term_views))]
fn in_terms(alloc: Global, k: u32, terms: &[Term], t: &Term) -> Result<List<Term>, Memory>
    ensures { IfOk result (λ us. map term_view us ≡ map (λ u. put k (term_view t.now) (term_view u)) terms.now) }
{
    let mut made = List::new(alloc);
    for u in terms {
        made.push(in_term(alloc, k, u, t)?)?;
    }
    Ok(made)
}

/// What stands for the n-th variable.
#[tactic(auto, using(crate::proofs::TermViews::term_views))]
fn in_place(alloc: Global, k: u32, n: u32, t: &Term) -> Result<Term, Memory>
    ensures { IfOk result (λ made. term_view made ≡ put k (term_view t.now) (tm.Var n)) }
{
    if n < k {
        Ok(Term::Var(n))
    } else if n == k {
        t.copy(alloc)
    } else {
        Ok(Term::Var(n - 1))
    }
}
