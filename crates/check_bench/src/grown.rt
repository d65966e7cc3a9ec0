//! The tree: rounds of 26 nodes, in which each rule is used, and two nodes that close it. The places
//! that a rule names are those of given formulas and of formulas of its own round.
use crate::given::pair;
use refute_defs::{Node, RuleUse, Tree};
use rp_logic::{Atom, Term};
use rp_value::{Boxed, List, Memory, copy_list};
use std::alloc::Global;

/// How many formulas are given.
const GIVEN: u32 = 11;

/// How many nodes a round has.
const NODES: u32 = 26;

/// How many formulas a round adds to the branch that goes on.
const ADDED: u32 = 17;

/// The first number past the signature's constants.
const NEW: u32 = 5;

fn on(alloc: Global, rule: u8, places: &[u32], pick: u32) -> Result<Node, Memory> {
    Ok(Node::Rule(RuleUse {
        rule,
        places: copy_list(alloc, places)?,
        terms: List::new(alloc),
        atoms: List::new(alloc),
        pick,
    }))
}

fn on_term(alloc: Global, rule: u8, places: &[u32], t: Term) -> Result<Node, Memory> {
    let mut terms = List::new(alloc);
    terms.push(t)?;
    Ok(Node::Rule(RuleUse {
        rule,
        places: copy_list(alloc, places)?,
        terms,
        atoms: List::new(alloc),
        pick: 0,
    }))
}

/// A cut with the equality of 1 and 2.
fn on_different(alloc: Global) -> Result<Node, Memory> {
    let mut atoms = List::new(alloc);
    atoms.push(Atom::Equal(Term::Int(1), Term::Int(2)))?;
    Ok(Node::Rule(RuleUse {
        rule: 5,
        places: List::new(alloc),
        terms: List::new(alloc),
        atoms,
        pick: 0,
    }))
}

/// The order of 7 and 4.
fn on_numbers(alloc: Global) -> Result<Node, Memory> {
    let mut terms = List::new(alloc);
    terms.push(Term::Int(7))?;
    terms.push(Term::Int(4))?;
    Ok(Node::Rule(RuleUse {
        rule: 22,
        places: List::new(alloc),
        terms,
        atoms: List::new(alloc),
        pick: 0,
    }))
}

fn applied(alloc: Global) -> Result<Term, Memory> {
    let mut args = List::new(alloc);
    args.push(Term::Const(0))?;
    Ok(Term::Fn(0, args))
}

fn sum(alloc: Global) -> Result<Term, Memory> {
    Ok(Term::Plus(Boxed::new(alloc, Term::Const(2))?, 5))
}

fn first_of_pair(alloc: Global) -> Result<Term, Memory> {
    let built = pair(alloc, 0, 2)?;
    Ok(Term::Sel(1, 0, Boxed::new(alloc, built)?))
}

/// A split whose first four branches close at once.
fn split(alloc: Global, nodes: &mut List<Node>, at: u32) -> Result<(), Memory> {
    nodes.push(on(alloc, 2, &[4], 0)?)?;
    nodes.push(on(alloc, 12, &[at], 0)?)?;
    nodes.push(on(alloc, 16, &[at], 0)?)?;
    nodes.push(on(alloc, 17, &[at], 0)?)?;
    nodes.push(on(alloc, 2, &[at], 0)?)?;
    Ok(())
}

/// The fifth branch, which closes with a new constant.
fn bring(alloc: Global, nodes: &mut List<Node>, at: u32) -> Result<(), Memory> {
    nodes.push(on_term(alloc, 4, &[at], Term::Const(NEW))?)?;
    nodes.push(on_term(alloc, 3, &[0], Term::Const(NEW))?)?;
    nodes.push(on(alloc, 6, &[at.wrapping_add(2), at.wrapping_add(1)], 0)?)?;
    Ok(())
}

/// The sixth branch goes on with a conjunct, an instance and a cut.
fn choose(alloc: Global, nodes: &mut List<Node>, at: u32) -> Result<(), Memory> {
    nodes.push(on(alloc, 1, &[3], 0)?)?;
    nodes.push(on_term(alloc, 3, &[0], Term::Const(1))?)?;
    nodes.push(on_different(alloc)?)?;
    nodes.push(on(alloc, 16, &[at.wrapping_add(3)], 0)?)?;
    Ok(())
}

/// Rules of equality.
fn equate(alloc: Global, nodes: &mut List<Node>, at: u32) -> Result<(), Memory> {
    nodes.push(on_term(alloc, 7, &[], applied(alloc)?)?)?;
    nodes.push(on(alloc, 8, &[2], 0)?)?;
    nodes.push(on(alloc, 9, &[2, at.wrapping_add(5)], 0)?)?;
    nodes.push(on_term(alloc, 10, &[2], applied(alloc)?)?)?;
    nodes.push(on(alloc, 11, &[at, 2], 0)?)?;
    Ok(())
}

/// Rules of constructors.
fn take_apart(alloc: Global, nodes: &mut List<Node>, at: u32) -> Result<(), Memory> {
    nodes.push(on(alloc, 13, &[5], 0)?)?;
    nodes.push(on_term(alloc, 14, &[], Term::Const(4))?)?;
    nodes.push(on(alloc, 6, &[at.wrapping_add(10), 6], 0)?)?;
    nodes.push(on_term(alloc, 15, &[], first_of_pair(alloc)?)?)?;
    Ok(())
}

/// Rules of order.
fn order(alloc: Global, nodes: &mut List<Node>) -> Result<(), Memory> {
    nodes.push(on(alloc, 18, &[7], 0)?)?;
    nodes.push(on(alloc, 19, &[8], 0)?)?;
    nodes.push(on(alloc, 20, &[9, 10], 0)?)?;
    nodes.push(on_term(alloc, 21, &[], sum(alloc)?)?)?;
    nodes.push(on_numbers(alloc)?)?;
    Ok(())
}

/// A round behind so many formulas.
fn round(alloc: Global, nodes: &mut List<Node>, at: u32) -> Result<(), Memory> {
    split(alloc, nodes, at)?;
    bring(alloc, nodes, at)?;
    choose(alloc, nodes, at)?;
    equate(alloc, nodes, at)?;
    take_apart(alloc, nodes, at)?;
    order(alloc, nodes)?;
    Ok(())
}

/// A closed tree of about so many nodes.
pub(crate) fn grown(alloc: Global, nodes: u32) -> Result<Tree, Memory> {
    let mut made = List::new(alloc);
    let mut at = GIVEN;
    for _ in 0..nodes / NODES {
        round(alloc, &mut made, at)?;
        at = at.wrapping_add(ADDED);
    }
    made.push(on(alloc, 1, &[3], 1)?)?;
    made.push(on(alloc, 6, &[at, 1], 0)?)?;
    Ok(Tree { nodes: made })
}
