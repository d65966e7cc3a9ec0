//! The bodies of a text's queries, and how large what uses them gets.

ghost use Rattle.std.specs.Prelude.{◌≡◌, ◌++◌, ◌∷◌, [], None, OnOk, Some, length, slice_get, unwrap_or};
ghost use Rattle.std.specs.Option.{option_map};
ghost use Rattle.query_bodies.specs.Expanded.{said_at};
ghost use Rattle.query_bodies.specs.Measures.{nowhere, params_in, standing_in};
ghost use Rattle.query_bodies.specs.Seen.{bodies_view, body_in, known_in, saids_in, seen_body};
ghost use Rattle.query_bodies.specs.Views.{body_view};

use crate::term::Body;
use rp_value::{List, Memory};
use std::alloc::Global;

/// How large something gets with all uses put in; what stands in for parameters doesn't count.
#[derive(Clone, Copy)]
pub struct Facts {
    pub depth: u64,
    /// Variables of quantifiers and arms inside one another.
    pub binders: u64,
    /// At least as many nodes as it has; the operands of a sum with a literal count as two.
    pub nodes: u64,
    /// It has a query of the store.
    pub reads: bool,
}

/// How a parameter stands in a body with all uses put in.
#[derive(Clone, Copy)]
pub struct Standing {
    /// How often it stands there.
    pub times: u64,
    /// How many nodes stand above it where it stands deepest.
    pub deepest: u64,
}

#[derive(Drop)]
struct QueryBody {
    body: Body,
    facts: Facts,
    params: Vec<Standing>,
}

/// The bodies of queries by their declarations. Each uses only those before it.
#[derive(Drop)]
pub struct Bodies {
    items: List<Option<QueryBody>>,
}

#[tactic(auto, using(crate::proofs::BodyLemmas::body_lemmas))]
impl Bodies {
    /// No bodies. It takes no memory.
    pub fn new(alloc: Global) -> Bodies
        ensures { bodies_view result ≡ [] }
    {
        Bodies {
            items: List::new(alloc),
        }
    }

    /// The next declaration is no query.
    pub fn push_none(&mut self) -> Result<(), Memory>
        ensures { OnOk result (bodies_view self.new ≡ bodies_view self.old ++ None ∷ []) }
    {
        self.items.push(None)
    }

    /// The next declaration is a query with this body.
    pub(crate) fn push(
        &mut self,
        body: Body,
        facts: Facts,
        params: Vec<Standing>,
    ) -> Result<(), Memory>
        ensures { OnOk result (bodies_view self.new ≡ bodies_view self.old ++ Some (record {
          said = body_view body;
          measured = record { facts = facts; params = params.items };
        }) ∷ []) }
    {
        self.items.push(Some(QueryBody {
            body,
            facts,
            params,
        }))
    }

    /// The number of declarations so far.
    pub fn count(&self) -> u32
        ensures { result ≡ length (saids_in self.now) }
    {
        self.items.count()
    }

    fn item(&self, decl: u32) -> Option<&QueryBody>
        ensures { option_map (λ item. seen_body item.now) result ≡ body_in self.now decl }
    {
        let place = decl as usize;
        if place < self.items.len() {
            match self.items.get(place) {
                Some(item) => Some(item),
                None => None,
            }
        } else {
            None
        }
    }

    /// The body of the query of this declaration.
    pub fn body(&self, decl: u32) -> Option<&Body>
        ensures { option_map (λ body. body_view body.now) result ≡ said_at (saids_in self.now) decl }
    {
        Some(&self.item(decl)?.body)
    }

    pub(crate) fn facts(&self, decl: u32) -> Option<Facts>
        ensures { result ≡ option_map (λ m. m.facts) (known_in self.now decl) }
    {
        Some(self.item(decl)?.facts)
    }

    /// How many parameters the query of this declaration has, if it is one.
    pub fn params_of(&self, decl: u32) -> usize
        ensures { result ≡ params_in (known_in self.now decl) }
    {
        match self.item(decl) {
            Some(item) => item.params.len(),
            None => 0,
        }
    }

    /// How the parameter of this number stands in the body of the query.
    pub(crate) fn standing(&self, decl: u32, param: usize) -> Standing
        ensures { result ≡ standing_in (known_in self.now decl) param }
    {
        match self.item(decl) {
            Some(item) => standing_at(item.params.as_slice(), param),
            None => NOWHERE,
        }
    }
}

fn standing_at(params: &[Standing], param: usize) -> Standing
    ensures { result ≡ unwrap_or (slice_get params.now param) nowhere }
{
    match params.get(param) {
        Some(standing) => *standing,
        None => NOWHERE,
    }
}

/// Of a parameter that stands nowhere.
pub(crate) const NOWHERE: Standing = Standing {
    times: 0,
    deepest: 0,
};
