//! Terms with other terms in place of variables.
ghost use Rattle.std.specs.Prelude.{◌≡◌, ◌+◌, IfOk, Some, false, suc, map};
ghost use Rattle.rp_logic.specs.Filling.{raised, filled, filled_atom};
ghost use Rattle.rp_logic.specs.Views.{term_view, atom_view};
ghost use Rattle.reshape.specs.Eliminating.{lowered};
ghost use Rattle.reshaped.specs.Occurring.{stands};
ghost use Rattle.reshaped.specs.Fillings.{filling_view, under, moved};

use crate::filling::Filling;
use rp_logic::{Atom, Term};
use rp_value::{Boxed, List, Memory};
use std::alloc::Global;

/// The sum, where a variable can have that number.
fn plus(m: u32, n: u32) -> Result<u32, Memory>
    ensures { IfOk result (λ k. k ≡ m + n) }
{
    match m.checked_add(n) {
        Some(k) => Ok(k),
        None => Err(Memory),
    }
}

/// The number of the same variable under one more quantifier.
pub fn one_more(k: u32) -> Result<u32, Memory>
    ensures { IfOk result (λ n. n ≡ suc k) }
{
    if k == u32::MAX {
        return Err(Memory);
    }
    Ok(k + 1)
}

/// The term under k more variables, which are nearer.
#[cycle(raise)]
#[tactic(auto, using(rp_logic::proofs::TermViews::term_views))]
fn raise(alloc: Global, k: u32, t: &Term) -> Result<Term, Memory>
    ensures { IfOk result (λ made. term_view made ≡ raised k (term_view t.now)) }
{
    match t {
        Term::Var(n) => Ok(Term::Var(plus(*n, k)?)),
        Term::Const(c) => Ok(Term::Const(*c)),
        Term::Fn(f, args) => Ok(Term::Fn(*f, raise_each(alloc, k, args.as_slice())?)),
        Term::Int(n) => Ok(Term::Int(*n)),
        Term::Str(_) => t.copy(alloc),
        Term::Con(c, args) => Ok(Term::Con(*c, raise_each(alloc, k, args.as_slice())?)),
        Term::Sel(c, i, u) => {
            let made = Boxed::new(alloc, raise(alloc, k, u.get())?)?;
            Ok(Term::Sel(*c, *i, made))
        },
        Term::Plus(u, n) => {
            let made = Boxed::new(alloc, raise(alloc, k, u.get())?)?;
            Ok(Term::Plus(made, *n))
        },
    }
}

#[cycle(raise)]
#[tactic(auto, using(rp_logic::proofs::TermViews::term_views))]
fn raise_each(alloc: Global, k: u32, terms: &[Term]) -> Result<List<Term>, Memory>
    ensures { IfOk result (λ us. map term_view us ≡ map (λ u. raised k (term_view u)) terms.now) }
{
    let mut made = List::new(alloc);
    for u in terms {
        made.push(raise(alloc, k, u)?)?;
    }
    Ok(made)
}

/// The variable's number when the n-th becomes the innermost.
fn moved_to(n: u32, k: u32) -> Result<u32, Memory>
    ensures { IfOk result (λ m. m ≡ moved n k) }
{
    if k == n {
        Ok(0)
    } else if k < n {
        one_more(k)
    } else {
        Ok(k)
    }
}

/// What stands for the n-th variable.
#[tactic(auto, using(rp_logic::proofs::TermViews::term_views, crate::proofs::FillViews::instead_tested))]
fn put(alloc: Global, what: &Filling, n: u32) -> Result<Term, Memory>
    ensures { IfOk result (λ made. term_view made ≡ filling_view what.now n) }
{
    match what {
        Filling::Behind => Ok(Term::Var(one_more(n)?)),
        Filling::Innermost(m) => Ok(Term::Var(moved_to(*m, n)?)),
        Filling::Instead(w) => {
            if n == 0 {
                w.get().copy(alloc)
            } else {
                Ok(Term::Var(n - 1))
            }
        },
    }
}

/// What stands for the n-th variable under k more.
#[tactic(auto, using(rp_logic::proofs::TermViews::term_views, crate::proofs::FillViews::under_tested))]
fn put_under(alloc: Global, what: &Filling, k: u32, n: u32) -> Result<Term, Memory>
    ensures { IfOk result (λ made. term_view made ≡ under k (filling_view what.now) n) }
{
    if n < k {
        Ok(Term::Var(n))
    } else {
        let outer = Boxed::new(alloc, put(alloc, what, n - k)?)?;
        raise(alloc, k, outer.get())
    }
}

/// The term with these in place of variables.
#[cycle(fill_term)]
#[tactic(auto, using(rp_logic::proofs::TermViews::term_views))]
pub fn fill_term(alloc: Global, what: &Filling, k: u32, t: &Term) -> Result<Term, Memory>
    ensures { IfOk result (λ made. term_view made ≡ filled (under k (filling_view what.now)) (term_view t.now)) }
{
    match t {
        Term::Var(n) => put_under(alloc, what, k, *n),
        Term::Const(c) => Ok(Term::Const(*c)),
        Term::Fn(f, args) => Ok(Term::Fn(*f, fill_terms(alloc, what, k, args.as_slice())?)),
        Term::Int(n) => Ok(Term::Int(*n)),
        Term::Str(_) => t.copy(alloc),
        Term::Con(c, args) => Ok(Term::Con(*c, fill_terms(alloc, what, k, args.as_slice())?)),
        Term::Sel(c, i, u) => {
            let made = Boxed::new(alloc, fill_term(alloc, what, k, u.get())?)?;
            Ok(Term::Sel(*c, *i, made))
        },
        Term::Plus(u, n) => {
            let made = Boxed::new(alloc, fill_term(alloc, what, k, u.get())?)?;
            Ok(Term::Plus(made, *n))
        },
    }
}

#[cycle(fill_term)]
#[tactic(auto, using(rp_logic::proofs::TermViews::term_views))]
fn fill_terms(alloc: Global, what: &Filling, k: u32, terms: &[Term]) -> Result<List<Term>, Memory>
    ensures { IfOk result (λ us. map term_view us ≡ map (λ u. filled (under k (filling_view what.now)) (term_view u)) terms.now) }
{
    let mut made = List::new(alloc);
    for u in terms {
        made.push(fill_term(alloc, what, k, u)?)?;
    }
    Ok(made)
}

/// The atom with these in place of variables.
#[tactic(auto, using(rp_logic::proofs::TermViews::term_views))]
pub fn fill_atom(alloc: Global, what: &Filling, k: u32, atom: &Atom) -> Result<Atom, Memory>
    ensures { IfOk result (λ made. atom_view made ≡ filled_atom (under k (filling_view what.now)) (atom_view atom.now)) }
{
    match atom {
        Atom::Equal(a, b) => Ok(Atom::Equal(
            fill_term(alloc, what, k, a)?,
            fill_term(alloc, what, k, b)?,
        )),
        Atom::Le { a, b, k: n } => Ok(Atom::Le {
            a: fill_term(alloc, what, k, a)?,
            b: fill_term(alloc, what, k, b)?,
            k: *n,
        }),
        Atom::Rel(r, args) => Ok(Atom::Rel(*r, fill_terms(alloc, what, k, args.as_slice())?)),
    }
}

/// The term without the innermost variable, which doesn't stand in it.
#[tactic(auto, using(rp_logic::proofs::TermViews::term_views, crate::proofs::FillViews::lowered_filled))]
pub fn lower(alloc: Global, t: &Term) -> Result<Boxed<Term>, Memory>
    requires { stands (term_view t.now) ≡ false }
    ensures { IfOk result (λ u. lowered (term_view t.now) ≡ Some (term_view u)) }
{
    let var = Boxed::new(alloc, Term::Var(0))?;
    let nothing = Filling::Instead(var);
    let made = Boxed::new(alloc, fill_term(alloc, &nothing, 0, t)?)?;
    Ok(made)
}
