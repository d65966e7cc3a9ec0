//! The steps from a root to a part of it.
ghost use Rattle.std.specs.Prelude.{◌≡◌, ◌++◌, IfOk, OnOk, map, slice_get};
ghost use Rattle.rp_logic.specs.Filling.{raised};
ghost use Rattle.rp_logic.specs.Views.{term_view};
ghost use Rattle.crdt_defs.specs.Doing as doing;
ghost use Rattle.crdt_enc.specs.Ways as spec;
ghost use Rattle.query_enc.specs.WayView.{way_view};

use crate::raising::raise;
use crdt_defs::Winner;
use program_sigs::plus;
use rp_lang::{OpDecl, PathStep};
use rp_logic::Term;
use rp_value::{List, Memory};
use std::alloc::Global;

/// The steps from a root to a part of it, the last step outermost.
#[derive(Drop)]
pub enum Way<'a> {
    Root(u32),
    AtField(u32, &'a Way<'a>),
    /// With what the map keeps.
    AtKey(Winner, &'a Term, &'a Way<'a>),
}

fn is_field(path: &[PathStep], steps: u32, n: u32) -> bool
    ensures { result ≡ doing.is_field n (slice_get path.now steps) }
{
    match path.get(steps as usize) {
        Some(PathStep::Field(m)) => n == *m,
        Some(PathStep::Key(_)) => false,
        None => false,
    }
}

fn is_key(path: &[PathStep], steps: u32) -> bool
    ensures { result ≡ doing.is_some_key (slice_get path.now steps) }
{
    match path.get(steps as usize) {
        Some(PathStep::Key(_)) => true,
        Some(PathStep::Field(_)) => false,
        None => false,
    }
}

impl<'a> Way<'a> {
    /// How many steps it has.
    #[tactic(auto, using(crate::proofs::WayViews::way_views))]
    pub fn depth(&self) -> Result<u32, Memory>
        ensures { IfOk result (λ n. n ≡ spec.depth (way_view self.now)) }
    {
        match self {
            Way::Root(_) => Ok(0),
            Way::AtField(_, before) => plus(before.depth()?, 1),
            Way::AtKey(_, _, before) => plus(before.depth()?, 1),
        }
    }

    /// Whether the operation's path goes this way, or on from its end.
    #[tactic(auto, using(crate::proofs::WayViews::way_views))]
    pub fn goes(&self, op: &OpDecl) -> Result<bool, Memory>
        ensures { IfOk result (λ holds. holds ≡ spec.goes (way_view self.now) op.now) }
    {
        match self {
            Way::Root(root) => Ok(op.root == *root),
            Way::AtField(n, before) => {
                let here = before.goes(op)?;
                let steps = before.depth()?;
                Ok(here && is_field(op.path.as_slice(), steps, *n))
            }
            Way::AtKey(_, _, before) => {
                let here = before.goes(op)?;
                let steps = before.depth()?;
                Ok(here && is_key(op.path.as_slice(), steps))
            }
        }
    }

    /// The keys on the way, the first one first, under n more quantifiers.
    #[tactic(auto, using(crate::proofs::WayViews::way_views))]
    pub fn push_keys(&self, alloc: Global, n: u32, out: &mut List<Term>) -> Result<(), Memory>
        ensures { OnOk result (map term_view out.new ≡ map term_view out.old ++ map (raised n) (spec.keys (way_view self.now))) }
    {
        match self {
            Way::Root(_) => Ok(()),
            Way::AtField(_, before) => before.push_keys(alloc, n, out),
            Way::AtKey(_, key, before) => {
                before.push_keys(alloc, n, out)?;
                out.push(raise(alloc, n, *key)?)?;
                Ok(())
            }
        }
    }
}
