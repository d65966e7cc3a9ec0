//! How large expressions get with all uses put in, told without putting them in.

ghost use Rattle.std.specs.Prelude.{◌≡◌, ◌++◌, ◌∷◌, [], IfOk, OnOk, Some};
ghost use Rattle.query_bodies.specs.Views.{body_view, claim_arms_view, claim_view, claims_view, term_view, terms_view};
ghost use Rattle.query_bodies.specs.means.Measuring.{at_view, known_of, measured_view};
ghost use Rattle.query_bodies.specs.Seen.{bodies_view, known_in};
ghost use Rattle.query_bodies.specs.Measures as spec;

use crate::bodies::{Bodies, Facts, NOWHERE, Standing};
use crate::claim::{Claim, ClaimArm};
use crate::term::{Body, Term};
use rp_value::Memory;
use std::alloc::Global;

/// The place of a part.
#[derive(Clone, Copy)]
struct At {
    /// Nodes above it.
    above: u64,
    /// Variables that are bound there.
    bound: u64,
    /// How often it comes, since arguments come as often as parameters.
    times: u64,
}

impl At {
    fn below(self) -> At
        ensures { at_view result ≡ spec.below (at_view self) }
    {
        At {
            above: self.above.saturating_add(1),
            ..self
        }
    }

    /// Where the parameter of this argument stands deepest in the body of a use.
    fn argument(self, standing: Standing) -> At
        ensures { at_view result ≡ spec.argument_at (at_view self) standing }
    {
        At {
            above: self.above.saturating_add(standing.deepest),
            bound: self.bound,
            times: self.times.saturating_mul(standing.times),
        }
    }

    /// Under so many variables more.
    fn under(self, binds: u64) -> At
        ensures { at_view result ≡ spec.under binds (at_view self) }
    {
        At {
            bound: self.bound.saturating_add(binds),
            ..self.below()
        }
    }
}

/// What was measured so far.
#[derive(Drop)]
struct Measure<'b> {
    bodies: &'b Bodies,
    facts: Facts,
    params: Vec<Standing>,
}

#[tactic(auto, using(crate::proofs::TermViews::term_views, crate::proofs::ClaimViews::claim_views))]
impl<'b> Measure<'b> {
    fn note(&mut self, at: At, own: Facts)
        ensures measured { measured_view self.new ≡ spec.noted (at_view at) own (measured_view self.old) }
        ensures same { self.new.bodies.now ≡ self.old.bodies.now }
    {
        let facts = self.facts;
        self.facts = Facts {
            depth: facts.depth.max(at.above.saturating_add(own.depth)),
            binders: facts.binders.max(at.bound.saturating_add(own.binders)),
            nodes: facts
                .nodes
                .saturating_add(at.times.saturating_mul(own.nodes)),
            reads: facts.reads || own.reads,
        };
    }

    fn node(&mut self, at: At)
        ensures measured { measured_view self.new ≡ spec.node (at_view at) (measured_view self.old) }
        ensures same { self.new.bodies.now ≡ self.old.bodies.now }
    {
        self.note(
            at,
            Facts {
                depth: 1,
                binders: 0,
                nodes: 1,
                reads: false,
            },
        );
    }

    fn param(&mut self, at: At, param: u32)
        ensures measured { measured_view self.new ≡ spec.stood (at_view at) param (measured_view self.old) }
        ensures same { self.new.bodies.now ≡ self.old.bodies.now }
    {
        let place = param as usize;
        if place < self.params.len() {
            let known = self.params[place];
            self.params[place] = Standing {
                times: known.times.saturating_add(at.times),
                deepest: known.deepest.max(at.above),
            };
        }
    }

    fn reading(&mut self)
        ensures measured { measured_view self.new ≡ spec.reading (measured_view self.old) }
        ensures same { self.new.bodies.now ≡ self.old.bodies.now }
    {
        self.facts.reads = true;
    }

    /// The body of the query of this declaration, without its arguments.
    fn body(&mut self, at: At, decl: u32)
        ensures measured { measured_view self.new ≡ spec.noted_use (at_view at) (known_of self.old decl)
            (measured_view self.old) }
        ensures same { self.new.bodies.now ≡ self.old.bodies.now }
    {
        if let Some(facts) = self.bodies.facts(decl) {
            self.note(at, facts);
        }
    }

    /// A use: its body, and each argument where its parameter stands deepest.
    #[cycle(measures)]
    fn used(&mut self, at: At, decl: u32, args: &[Term])
        ensures measured { measured_view self.new ≡ spec.arguments (known_of self.old) (at_view at)
            (known_of self.old decl) 0 (terms_view args.now)
            (spec.noted_use (at_view at) (known_of self.old decl) (measured_view self.old)) }
        ensures same { self.new.bodies.now ≡ self.old.bodies.now }
    {
        self.body(at, decl);
        for (place, arg) in args.iter().enumerate() {
            let standing = self.bodies.standing(decl, place);
            if standing.times > 0 {
                self.term(at.argument(standing), arg);
            }
        }
    }

    #[cycle(measures)]
    fn terms(&mut self, at: At, terms: &[Term])
        ensures measured { measured_view self.new ≡ spec.terms (known_of self.old) (at_view at)
            (terms_view terms.now) (measured_view self.old) }
        ensures same { self.new.bodies.now ≡ self.old.bodies.now }
    {
        for term in terms {
            self.term(at, term);
        }
    }

    #[cycle(measures)]
    fn term(&mut self, at: At, term: &Term)
        ensures measured { measured_view self.new ≡ spec.term (known_of self.old) (at_view at)
            (term_view term.now) (measured_view self.old) }
        ensures same { self.new.bodies.now ≡ self.old.bodies.now }
    {
        match term {
            Term::Use(decl, args) => self.used(at, *decl, args.as_slice()),
            Term::Param(param) => self.param(at, *param),
            Term::Slot(_)
            | Term::Level(_)
            | Term::Int(_)
            | Term::Str(_)
            | Term::ResultTerm(_, None)
            | Term::Unreturned => self.node(at),
            Term::Con(_, args) | Term::OpTerm(_, args) | Term::InfoTerm(_, args) => {
                self.node(at);
                self.terms(at.below(), args.as_slice());
            }
            Term::Query(_, args) => {
                self.node(at);
                self.reading();
                self.terms(at.below(), args.as_slice());
            }
            Term::Sum(a, b) | Term::Difference(a, b) => {
                self.node(at);
                self.term(at.below(), a.get());
                self.term(at.below(), b.get());
            }
            Term::OpOf(e)
            | Term::OriginOf(e)
            | Term::InfoOf(e)
            | Term::ResultOf(e)
            | Term::ResultTerm(_, Some(e)) => {
                self.node(at);
                self.term(at.below(), e.get());
            }
        }
    }

    #[cycle(measured_claims)]
    fn claims(&mut self, at: At, claims: &[Claim])
        ensures measured { measured_view self.new ≡ spec.claims (known_of self.old) (at_view at)
            (claims_view claims.now) (measured_view self.old) }
        ensures same { self.new.bodies.now ≡ self.old.bodies.now }
    {
        for claim in claims {
            self.claim(at, claim);
        }
    }

    #[cycle(measured_claims)]
    fn arms(&mut self, at: At, arms: &[ClaimArm])
        ensures measured { measured_view self.new ≡ spec.arms_of (known_of self.old) (at_view at)
            (claim_arms_view arms.now) (measured_view self.old) }
        ensures same { self.new.bodies.now ≡ self.old.bodies.now }
    {
        for arm in arms {
            self.claim(at.under(arm.binds as u64), &arm.body);
        }
    }

    #[cycle(measured_claims)]
    fn claim(&mut self, at: At, claim: &Claim)
        ensures measured { measured_view self.new ≡ spec.claim (known_of self.old) (at_view at)
            (claim_view claim.now) (measured_view self.old) }
        ensures same { self.new.bodies.now ≡ self.old.bodies.now }
    {
        match claim {
            Claim::Use(decl, args) => self.used(at, *decl, args.as_slice()),
            Claim::And(claims) | Claim::Or(claims) => {
                self.node(at);
                self.claims(at.below(), claims.as_slice());
            }
            Claim::Not(inside) => {
                self.node(at);
                self.claim(at.below(), inside.get());
            }
            Claim::Implies(a, b) => {
                self.node(at);
                self.claim(at.below(), a.get());
                self.claim(at.below(), b.get());
            }
            Claim::All(_, body) | Claim::Any(_, body) => {
                self.node(at);
                self.claim(at.under(1), body.get());
            }
            Claim::Holds(e) | Claim::Visible(e) => {
                self.node(at);
                self.term(at.below(), e);
            }
            Claim::Equal(a, b)
            | Claim::Less(a, b)
            | Claim::AtMost(a, b)
            | Claim::Before(a, b)
            | Claim::Same(a, b) => {
                self.node(at);
                self.term(at.below(), a);
                self.term(at.below(), b);
            }
            Claim::Match(on, arms) => {
                self.node(at);
                self.term(at.below(), on);
                self.arms(at, arms.as_slice());
            }
        }
    }

    fn new(alloc: Global, bodies: &'b Bodies, params: usize) -> Result<Measure<'b>, Memory>
        ensures measured { IfOk result (λ made. measured_view made ≡ spec.unmeasured params) }
        ensures same { IfOk result (λ made. made.bodies.now ≡ bodies.now) }
    {
        let mut standing = Vec::new(alloc);
        for _param in 0..params {
            standing.push(NOWHERE)?;
        }
        Ok(Measure {
            bodies,
            facts: NOTHING,
            params: standing,
        })
    }

    /// Of an expression over so many parameters.
    fn of(
        alloc: Global,
        bodies: &'b Bodies,
        params: usize,
        body: &Body,
    ) -> Result<Measure<'b>, Memory>
        ensures { IfOk result (λ made. measured_view made ≡ spec.measured (known_in bodies.now) params
            (body_view body.now)) }
    {
        let at = At {
            above: 0,
            bound: 0,
            times: 1,
        };
        let mut measure = Measure::new(alloc, bodies, params)?;
        match body {
            Body::Term(term) => measure.term(at, term.get()),
            Body::Claim(claim) => measure.claim(at, claim.get()),
        }
        Ok(measure)
    }
}

const NOTHING: Facts = Facts {
    depth: 0,
    binders: 0,
    nodes: 0,
    reads: false,
};

impl Bodies {
    /// How large an expression without parameters gets.
    pub fn facts_of(&self, alloc: Global, body: &Body) -> Result<Facts, Memory>
        ensures { IfOk result (λ facts. facts ≡ (spec.measured (known_in self.now) 0
            (body_view body.now)).facts) }
    {
        Ok(Measure::of(alloc, self, 0, body)?.facts)
    }

    /// The next declaration is a query with so many parameters and this body.
    pub fn add(&mut self, alloc: Global, params: usize, body: Body) -> Result<(), Memory>
        ensures { OnOk result (bodies_view self.new ≡ bodies_view self.old ++ Some (record {
          said = body_view body;
          measured = spec.measured (known_in self.old) params (body_view body);
        }) ∷ []) }
    {
        let Measure { facts, params, .. } = Measure::of(alloc, self, params, &body)?;
        self.push(body, facts, params)
    }
}
