//! Literals over variables.
ghost use Rattle.std.specs.Prelude.{◌≡◌, IfOk, [], ◌∷◌, map};
ghost use Rattle.rp_logic.specs.Terms as tm;
ghost use Rattle.rp_logic.specs.Formulas as fm;
ghost use Rattle.rp_logic.specs.Views.{term_view, terms_view, atom_view, formula_view};
ghost use Rattle.rp_symbols.specs.Numbers.{origin_fn};
ghost use Rattle.crdt_enc.specs.Builders as spec;
ghost use Rattle.axiom_forms.specs.Literals.{literal_view};

use rp_logic::{Atom, Fml, Term};
use rp_value::{Boxed, List, Memory};
use std::alloc::Global;

/// A literal over variables, by their numbers, the innermost 0. Relations, functions and constructors go by their numbers too.
#[derive(Clone, Copy)]
pub enum Literal {
    /// The variable is in the set.
    In(u32, u32),
    /// It isn't.
    NotIn(u32, u32),
    /// The relation holds of the two.
    Rel(u32, u32, u32),
    /// It doesn't.
    NotRel(u32, u32, u32),
    /// The two are the same.
    Same(u32, u32),
    /// The invocation of the call is in the set.
    OriginIn(u32, u32),
    /// What the first function gives at its variable is what the second gives at its own.
    Equal(u32, u32, u32, u32),
    /// It isn't.
    Differ(u32, u32, u32, u32),
    /// What the function gives at the variable is built with the constructor, which has so many places.
    Built(u32, u32, u32, u32),
    /// It isn't.
    NotBuilt(u32, u32, u32, u32),
}

/// The term alone.
pub fn one(alloc: Global, t: Term) -> Result<List<Term>, Memory>
    ensures { IfOk result (λ ts. ts ≡ t ∷ []) }
{
    let mut ts = List::new(alloc);
    ts.push(t)?;
    Ok(ts)
}

/// The function at the variable.
#[tactic(auto, using(rp_logic::proofs::TermViews::term_views))]
fn applied(alloc: Global, f: u32, a: u32) -> Result<Term, Memory>
    ensures { IfOk result (λ t. term_view t ≡ spec.applied f (tm.Var a)) }
{
    Ok(Term::Fn(f, one(alloc, Term::Var(a))?))
}

/// The variables' terms.
#[tactic(auto, using(rp_logic::proofs::TermViews::term_views))]
fn two(alloc: Global, a: u32, b: u32) -> Result<List<Term>, Memory>
    ensures { IfOk result (λ ts. terms_view ts ≡ tm.also_tm (tm.Var a) (tm.also_tm (tm.Var b) tm.no_tm)) }
{
    let mut ts = List::new(alloc);
    ts.push(Term::Var(a))?;
    ts.push(Term::Var(b))?;
    Ok(ts)
}

/// A selector term of a term.
#[tactic(auto, using(rp_logic::proofs::TermViews::term_views))]
fn selected(alloc: Global, con: u32, i: u32, t: &Term) -> Result<Term, Memory>
    ensures { IfOk result (λ u. term_view u ≡ tm.Sel con i (term_view t.now)) }
{
    Ok(Term::Sel(con, i, Boxed::new(alloc, t.copy(alloc)?)?))
}

/// So many selector terms of a term, from the first on.
fn selectors(alloc: Global, con: u32, places: u32, t: &Term) -> Result<List<Term>, Memory>
    ensures { IfOk result (λ ts. map term_view ts ≡ spec.selectors con 0 places (term_view t.now)) }
{
    let mut parts = List::new(alloc);
    for i in 0..places {
        parts.push(selected(alloc, con, i, t)?)?;
    }
    Ok(parts)
}

/// The term as it is where it is built with the constructor, which has so many places.
fn built(alloc: Global, con: u32, places: u32, t: &Term) -> Result<Term, Memory>
    ensures { IfOk result (λ u. term_view u ≡ spec.built con places [] (term_view t.now)) }
{
    let parts = selectors(alloc, con, places, t)?;
    Ok(Term::Con(con, parts))
}

/// That the term is built so.
fn is_built(alloc: Global, con: u32, places: u32, t: &Term) -> Result<Atom, Memory>
    ensures { IfOk result (λ atom. atom_view atom ≡ tm.Equal (term_view t.now) (spec.built con places [] (term_view t.now))) }
{
    let parts = Boxed::new(alloc, built(alloc, con, places, t)?)?;
    let whole = t.copy(alloc)?;
    Ok(Atom::Equal(whole, parts.into_inner()))
}

#[tactic(auto, using(rp_logic::proofs::TermViews::term_views))]
fn equal_values(alloc: Global, f: u32, a: u32, g: u32, b: u32) -> Result<Atom, Memory>
    ensures { IfOk result (λ atom. atom_view atom ≡ tm.Equal (spec.applied f (tm.Var a)) (spec.applied g (tm.Var b))) }
{
    let first = Boxed::new(alloc, applied(alloc, f, a)?)?;
    let second = applied(alloc, g, b)?;
    Ok(Atom::Equal(first.into_inner(), second))
}

#[tactic(auto, using(rp_logic::proofs::TermViews::term_views))]
fn built_value(alloc: Global, con: u32, places: u32, f: u32, a: u32) -> Result<Atom, Memory>
    ensures { IfOk result (λ atom. atom_view atom ≡ tm.Equal (spec.applied f (tm.Var a)) (spec.built con places [] (spec.applied f (tm.Var a)))) }
{
    let whole = Boxed::new(alloc, applied(alloc, f, a)?)?;
    is_built(alloc, con, places, whole.get())
}

#[tactic(auto, using(rp_logic::proofs::TermViews::term_views))]
fn of_set(alloc: Global, rel: u32, a: u32) -> Result<Atom, Memory>
    ensures { IfOk result (λ atom. atom_view atom ≡ tm.Rel rel (tm.also_tm (tm.Var a) tm.no_tm)) }
{
    Ok(Atom::Rel(rel, one(alloc, Term::Var(a))?))
}

#[tactic(auto, using(rp_logic::proofs::TermViews::term_views))]
fn of_origin(alloc: Global, rel: u32, a: u32) -> Result<Atom, Memory>
    ensures { IfOk result (λ atom. atom_view atom ≡ tm.Rel rel (tm.also_tm (spec.applied origin_fn (tm.Var a)) tm.no_tm)) }
{
    let origin = Boxed::new(alloc, applied(alloc, 1, a)?)?;
    Ok(Atom::Rel(rel, one(alloc, origin.into_inner())?))
}

#[tactic(auto, using(rp_logic::proofs::TermViews::term_views))]
fn of_two(alloc: Global, rel: u32, a: u32, b: u32) -> Result<Atom, Memory>
    ensures { IfOk result (λ atom. atom_view atom ≡ tm.Rel rel (tm.also_tm (tm.Var a) (tm.also_tm (tm.Var b) tm.no_tm))) }
{
    Ok(Atom::Rel(rel, two(alloc, a, b)?))
}

/// The literal as a formula.
#[tactic(auto, using(rp_logic::proofs::TermViews::term_views, rp_logic::proofs::FormulaViews::formula_views))]
pub fn formula(alloc: Global, literal: Literal) -> Result<Fml, Memory>
    ensures { IfOk result (λ f. formula_view f ≡ literal_view literal) }
{
    match literal {
        Literal::In(rel, a) => Ok(Fml::Lit(true, of_set(alloc, rel, a)?)),
        Literal::NotIn(rel, a) => Ok(Fml::Lit(false, of_set(alloc, rel, a)?)),
        Literal::Rel(rel, a, b) => Ok(Fml::Lit(true, of_two(alloc, rel, a, b)?)),
        Literal::NotRel(rel, a, b) => Ok(Fml::Lit(false, of_two(alloc, rel, a, b)?)),
        Literal::Same(a, b) => Ok(Fml::Lit(true, Atom::Equal(Term::Var(a), Term::Var(b)))),
        Literal::OriginIn(rel, a) => Ok(Fml::Lit(true, of_origin(alloc, rel, a)?)),
        Literal::Equal(f, a, g, b) => Ok(Fml::Lit(true, equal_values(alloc, f, a, g, b)?)),
        Literal::Differ(f, a, g, b) => Ok(Fml::Lit(false, equal_values(alloc, f, a, g, b)?)),
        Literal::Built(con, places, f, a) => {
            Ok(Fml::Lit(true, built_value(alloc, con, places, f, a)?))
        },
        Literal::NotBuilt(con, places, f, a) => {
            Ok(Fml::Lit(false, built_value(alloc, con, places, f, a)?))
        },
    }
}
