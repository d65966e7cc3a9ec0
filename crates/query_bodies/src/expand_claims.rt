//! What formulas become with all uses put in.

ghost use Rattle.std.specs.Prelude.{◌≡◌, ◌+◌, IfOk, Some, map};
ghost use Rattle.std.specs.Option.{option_map};
ghost use Rattle.rp_lang.specs.Views.{expr_view, formula_view, formulas_view, arms_view};
ghost use Rattle.desugaring.specs.Values as values;
ghost use Rattle.query_bodies.specs.Expanded as spec;
ghost use Rattle.query_bodies.specs.Expanding.{uses_before};
ghost use Rattle.query_bodies.specs.Views.{claim_arms_view, claim_view, claims_view, given_view, term_view, terms_view};

use crate::claim::{Claim, ClaimArm};
use crate::expand::Expansion;
use crate::lift::under;
use crate::node::node_of;
use crate::term::{Body, Term};
use rp_lang::{Arm, Expr, Formula};
use rp_value::{Boxed, List, Memory};

#[tactic(auto, using(crate::proofs::ClaimViews::claim_views, rp_lang::proofs::FormulaViews::formula_views))]
impl<'b> Expansion<'b> {
    /// Both sides of a comparison.
    #[tactic(auto)]
    fn sides(
        &self,
        given: &[Option<Expr>],
        bound: u32,
        a: &Term,
        b: &Term,
    ) -> Result<(Expr, Expr), Memory>
        ensures left { IfOk result (λ made. spec.term (uses_before self.now) (map given_view given.now)
            bound (term_view a.now) ≡ Some (expr_view made.0)) }
        ensures right { IfOk result (λ made. spec.term (uses_before self.now) (map given_view given.now)
            bound (term_view b.now) ≡ Some (expr_view made.1)) }
    {
        let a = self.boxed(given, bound, a)?;
        let b = self.term(given, bound, b)?;
        Ok((a.into_inner(), b))
    }

    #[cycle(expanding_claims)]
    #[tactic(auto)]
    fn claims(
        &self,
        given: &[Option<Expr>],
        bound: u32,
        claims: &[Claim],
    ) -> Result<List<Formula>, Memory>
        ensures { IfOk result (λ made. spec.claims (uses_before self.now) (map given_view given.now) bound
            (claims_view claims.now) ≡ Some (formulas_view made)) }
    {
        let mut made = List::new(self.alloc);
        for part in claims {
            made.push(self.claim(given, bound, part)?)?;
        }
        Ok(made)
    }

    /// A use of a query whose body is a formula.
    #[cycle(expanding_claims)]
    #[tactic(auto)]
    fn used_claim(
        &self,
        given: &[Option<Expr>],
        bound: u32,
        decl: u32,
        args: &[Term],
    ) -> Result<Formula, Memory>
        ensures { IfOk result (λ made. option_map values.as_formula (uses_before self.now decl
            (spec.arguments (uses_before self.now) (map given_view given.now) bound (terms_view args.now)))
            ≡ Some (formula_view made)) }
    {
        let args = self.args(given, bound, decl, args)?;
        match self.body(decl) {
            Some(Body::Claim(body)) => self.inside(decl).claim(args.as_slice(), 0, body.get()),
            _ => Err(Memory),
        }
    }

    #[cycle(expanding_claims)]
    #[tactic(auto)]
    fn boxed_claim(
        &self,
        given: &[Option<Expr>],
        bound: u32,
        claim: &Claim,
    ) -> Result<Boxed<Formula>, Memory>
        ensures { IfOk result (λ made. spec.claim (uses_before self.now) (map given_view given.now) bound
            (claim_view claim.now) ≡ Some (formula_view made)) }
    {
        Boxed::new(self.alloc, self.claim(given, bound, claim)?)
    }

    /// Under a binder more.
    #[cycle(expanding_claims)]
    #[tactic(auto)]
    fn scope(
        &self,
        given: &[Option<Expr>],
        bound: u32,
        body: &Claim,
    ) -> Result<Boxed<Formula>, Memory>
        ensures { IfOk result (λ made. spec.claim (uses_before self.now) (map given_view given.now) (bound + 1)
            (claim_view body.now) ≡ Some (formula_view made)) }
    {
        let inside = under(bound, 1)?;
        self.boxed_claim(given, inside, body)
    }

    #[cycle(expanding_claims)]
    #[tactic(auto)]
    fn arms(
        &self,
        given: &[Option<Expr>],
        bound: u32,
        arms: &[ClaimArm],
    ) -> Result<List<Arm>, Memory>
        ensures { IfOk result (λ made. spec.arms_of (uses_before self.now) (map given_view given.now) bound
            (claim_arms_view arms.now) ≡ Some (arms_view made)) }
    {
        let mut made = List::new(self.alloc);
        for arm in arms {
            let inside = under(bound, arm.binds)?;
            let body = self.claim(given, inside, &arm.body)?;
            made.push(Arm { con: arm.con, body })?;
        }
        Ok(made)
    }

    /// A formula under so many binders of the expression in which it stands.
    #[cycle(expanding_claims)]
    #[tactic(auto)]
    pub fn claim(
        &self,
        given: &[Option<Expr>],
        bound: u32,
        claim: &Claim,
    ) -> Result<Formula, Memory>
        ensures { IfOk result (λ made. spec.claim (uses_before self.now) (map given_view given.now) bound
            (claim_view claim.now) ≡ Some (formula_view made)) }
    {
        match claim {
            Claim::And(parts) =>
                node_of!(self.claims(given, bound, parts.as_slice()), made => Formula::And(made)),
            Claim::Or(parts) =>
                node_of!(self.claims(given, bound, parts.as_slice()), made => Formula::Or(made)),
            Claim::Not(part) =>
                node_of!(self.boxed_claim(given, bound, part.get()), made => Formula::Not(made)),
            Claim::Implies(a, b) => {
                let a = self.boxed_claim(given, bound, a.get())?;
                node_of!(self.boxed_claim(given, bound, b.get()), made => Formula::Implies(a, made))
            }
            Claim::All(ty, body) =>
                node_of!(self.scope(given, bound, body.get()), made => Formula::All(*ty, made)),
            Claim::Any(ty, body) =>
                node_of!(self.scope(given, bound, body.get()), made => Formula::Any(*ty, made)),
            Claim::Holds(e) => node_of!(self.term(given, bound, e), made => Formula::Holds(made)),
            Claim::Visible(e) =>
                node_of!(self.term(given, bound, e), made => Formula::Visible(made)),
            Claim::Equal(a, b) =>
                node_of!(self.sides(given, bound, a, b), sides => Formula::Equal(sides.0, sides.1)),
            Claim::Less(a, b) =>
                node_of!(self.sides(given, bound, a, b), sides => Formula::Less(sides.0, sides.1)),
            Claim::AtMost(a, b) =>
                node_of!(self.sides(given, bound, a, b), sides => Formula::AtMost(sides.0, sides.1)),
            Claim::Before(a, b) =>
                node_of!(self.sides(given, bound, a, b), sides => Formula::Before(sides.0, sides.1)),
            Claim::Same(a, b) =>
                node_of!(self.sides(given, bound, a, b), sides => Formula::Same(sides.0, sides.1)),
            Claim::Match(on, arms) => {
                let arms = self.arms(given, bound, arms.as_slice())?;
                node_of!(self.term(given, bound, on), made => Formula::Match(made, arms))
            }
            Claim::Use(decl, args) => self.used_claim(given, bound, *decl, args.as_slice()),
        }
    }
}
