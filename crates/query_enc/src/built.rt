//! Terms that are built with a constructor.
ghost use Rattle.std.specs.Prelude.{◌≡◌, ◌++◌, IfOk, OnOk, map};
ghost use Rattle.rp_logic.specs.Terms as tm;
ghost use Rattle.rp_logic.specs.Views.{term_view};
ghost use Rattle.crdt_enc.specs.Builders as spec;

use program_sigs::plus;
use rp_logic::Term;
use rp_value::{Boxed, List, Memory};
use std::alloc::Global;

/// The i-th argument of the term, where it is built with the constructor.
#[tactic(auto, using(rp_logic::proofs::TermViews::term_views))]
pub fn selector(alloc: Global, con: u32, i: u32, t: &Term) -> Result<Term, Memory>
    ensures { IfOk result (λ made. term_view made ≡ tm.Sel con i (term_view t.now)) }
{
    let on = Boxed::new(alloc, t.copy(alloc)?)?;
    Ok(Term::Sel(con, i, on))
}

/// So many selector terms of a built term, from this place on.
#[tactic(auto, using(crate::proofs::TermLists::selectors_more))]
pub fn push_selectors(
    alloc: Global,
    out: &mut List<Term>,
    con: u32,
    first: u32,
    count: u32,
    t: &Term,
) -> Result<(), Memory>
    ensures { OnOk result (map term_view out.new ≡ map term_view out.old ++ spec.selectors con first count (term_view t.now)) }
{
    for i in 0..count {
        let place = plus(first, i)?;
        out.push(selector(alloc, con, place, t)?)?;
    }
    Ok(())
}

/// The constructor over these terms, and for its other arguments what it has in t itself.
#[tactic(auto, using(rp_logic::proofs::TermViews::term_views, crate::proofs::TermLists::same_terms))]
pub fn built(
    alloc: Global,
    con: u32,
    places: u32,
    given: List<Term>,
    t: &Term,
) -> Result<Term, Memory>
    ensures { IfOk result (λ made. term_view made ≡ spec.built con places (map term_view given) (term_view t.now)) }
{
    let mut args = given;
    let first = args.count();
    push_selectors(
        alloc,
        &mut args,
        con,
        first,
        places.saturating_sub(first),
        t,
    )?;
    Ok(Term::Con(con, args))
}
