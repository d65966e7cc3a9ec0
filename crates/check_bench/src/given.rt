//! The given formulas, and what they are over.
use rp_logic::{Atom, Fml, FnDecl, LogicCon, Sig, Sort, Term};
use rp_value::{Boxed, List, Memory, copy_list};
use std::alloc::Global;

fn sorts(alloc: Global) -> Result<List<Sort>, Memory> {
    let mut sorts = List::new(alloc);
    sorts.push(Sort::Plain)?;
    sorts.push(Sort::Int)?;
    sorts.push(Sort::Datatype(copy_list(alloc, &[0, 1])?))?;
    Ok(sorts)
}

fn fns(alloc: Global) -> Result<List<FnDecl>, Memory> {
    let mut fns = List::new(alloc);
    fns.push(FnDecl {
        args: copy_list(alloc, &[0])?,
        result: 0,
    })?;
    Ok(fns)
}

fn rels(alloc: Global) -> Result<List<List<u32>>, Memory> {
    let mut rels = List::new(alloc);
    rels.push(copy_list(alloc, &[0])?)?;
    Ok(rels)
}

fn cons(alloc: Global) -> Result<List<LogicCon>, Memory> {
    let mut cons = List::new(alloc);
    cons.push(LogicCon {
        sort: 2,
        args: List::new(alloc),
    })?;
    cons.push(LogicCon {
        sort: 2,
        args: copy_list(alloc, &[0, 1])?,
    })?;
    Ok(cons)
}

/// Sort 0 is plain, sort 1 has the numbers, and sort 2 nothing, which is constructor 0, and pairs of
/// one of each. Constants 0 and 1 are plain, 2 and 3 numbers, and 4 is of sort 2. Function 0 takes
/// a plain element to one, and relation 0 is over plain ones.
pub(crate) fn signature(alloc: Global) -> Result<Option<Sig>, Memory> {
    Ok(Sig::new(
        sorts(alloc)?,
        copy_list(alloc, &[0, 0, 1, 1, 2])?,
        fns(alloc)?,
        rels(alloc)?,
        cons(alloc)?,
    ))
}

/// The pair of two constants.
pub(crate) fn pair(alloc: Global, first: u32, second: u32) -> Result<Term, Memory> {
    let mut args = List::new(alloc);
    args.push(Term::Const(first))?;
    args.push(Term::Const(second))?;
    Ok(Term::Con(1, args))
}

fn nothing(alloc: Global) -> Term {
    Term::Con(0, List::new(alloc))
}

/// The term is in relation 0, or isn't.
fn related(alloc: Global, sign: bool, t: Term) -> Result<Fml, Memory> {
    let mut args = List::new(alloc);
    args.push(t)?;
    Ok(Fml::Lit(sign, Atom::Rel(0, args)))
}

/// The first constant is at most the second one and the number, or isn't.
fn ordered(sign: bool, first: u32, second: u32, k: i128) -> Fml {
    Fml::Lit(
        sign,
        Atom::Le {
            a: Term::Const(first),
            b: Term::Const(second),
            k,
        },
    )
}

fn equal(first: u32, second: u32) -> Fml {
    Fml::Lit(true, Atom::Equal(Term::Const(first), Term::Const(second)))
}

fn every(alloc: Global) -> Result<Fml, Memory> {
    let body = related(alloc, true, Term::Var(0))?;
    Ok(Fml::All(0, Boxed::new(alloc, body)?))
}

fn some(alloc: Global) -> Result<Fml, Memory> {
    let body = related(alloc, false, Term::Var(0))?;
    Ok(Fml::Ex(0, Boxed::new(alloc, body)?))
}

fn both(alloc: Global) -> Result<Fml, Memory> {
    let mut parts = List::new(alloc);
    parts.push(related(alloc, true, Term::Const(1))?)?;
    parts.push(related(alloc, true, Term::Const(0))?)?;
    Ok(Fml::And(parts))
}

/// Five parts that close their branches, and one with which it goes on.
fn either(alloc: Global) -> Result<Fml, Memory> {
    let mut parts = List::new(alloc);
    parts.push(Fml::Lit(true, Atom::Equal(pair(alloc, 0, 2)?, nothing(alloc))))?;
    parts.push(Fml::Lit(true, Atom::Equal(Term::Int(1), Term::Int(2))))?;
    parts.push(ordered(true, 2, 2, -1))?;
    parts.push(Fml::Or(List::new(alloc)))?;
    parts.push(some(alloc)?)?;
    parts.push(related(alloc, true, Term::Const(0))?)?;
    Ok(Fml::Or(parts))
}

fn equal_pairs(alloc: Global) -> Result<Fml, Memory> {
    let first = pair(alloc, 0, 2)?;
    Ok(Fml::Lit(true, Atom::Equal(first, pair(alloc, 1, 3)?)))
}

/// The formulas on numbers.
fn give_numbers(given: &mut List<Fml>) -> Result<(), Memory> {
    given.push(ordered(false, 2, 3, 4))?;
    given.push(equal(2, 3))?;
    given.push(ordered(true, 2, 3, 0))?;
    given.push(ordered(true, 3, 2, 0))?;
    Ok(())
}

/// At 0 everything is in relation 0, at 1 constant 0 isn't, at 2 constants 0 and 1 are equal, at 3
/// both are in the relation, at 4 is a disjunction, at 5 two pairs are equal, at 6 constant 4 isn't
/// nothing, and from 7 on constants 2 and 3 are in order, or aren't.
pub(crate) fn given(alloc: Global) -> Result<List<Fml>, Memory> {
    let mut given = List::new(alloc);
    given.push(every(alloc)?)?;
    given.push(related(alloc, false, Term::Const(0))?)?;
    given.push(equal(0, 1))?;
    given.push(both(alloc)?)?;
    given.push(either(alloc)?)?;
    given.push(equal_pairs(alloc)?)?;
    given.push(Fml::Lit(false, Atom::Equal(Term::Const(4), nothing(alloc))))?;
    give_numbers(&mut given)?;
    Ok(given)
}
