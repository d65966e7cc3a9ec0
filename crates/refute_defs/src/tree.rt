use rp_logic::{Atom, Term};
use rp_value::List;

/// A tree of rule uses, its nodes in preorder.
#[derive(Drop)]
pub struct Tree {
    pub nodes: List<Node>,
}

/// A node of a tree.
#[derive(Drop)]
pub enum Node {
    Rule(RuleUse),
    /// A leaf that a search hasn't come to.
    Unvisited,
    /// The leaf at which a search stands.
    Current,
}

/// A rule, with what it is used on: places of the branch, terms, atoms and a number. A rule that
/// needs no number has 0.
#[derive(Drop)]
pub struct RuleUse {
    pub rule: u8,
    pub places: List<u32>,
    pub terms: List<Term>,
    pub atoms: List<Atom>,
    pub pick: u32,
}
