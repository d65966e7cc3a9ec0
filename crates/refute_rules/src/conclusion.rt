use refute_branch::Order;
use rp_logic::{Atom, Fml, Sig, Term};
use rp_value::List;

/// What a node that meets its rule adds for its children.
#[derive(Clone, Copy)]
pub(crate) enum Conclusion<'a> {
    /// No child: the branch is closed.
    Closed,
    /// A formula that is a part of one on the branch.
    Part(&'a Fml),
    /// A child for each disjunct.
    Each(&'a List<Fml>),
    /// The body with the term for its variable.
    Instance {
        body: &'a Fml,
        t: &'a Term,
    },
    /// The body with a constant of the sort, which is brought.
    Named {
        body: &'a Fml,
        c: u32,
        sort: u32,
    },
    /// A child with the atom, and one with its negation.
    Cut(&'a Atom),
    Equal(&'a Term, &'a Term),
    AtMost(Order<'a>),
    /// For each constructor a child, where the term was built with it.
    Built {
        sig: &'a Sig,
        t: &'a Term,
        cons: &'a List<u32>,
    },
}
