//! What terms become with all uses put in.

ghost use Rattle.std.specs.Prelude.{◌≡◌, ◌<◌, IfOk, IfSome, Some, map};
ghost use Rattle.std.specs.Option.{option_and_then};
ghost use Rattle.rp_lang.specs.Views.{expr_view, exprs_view};
ghost use Rattle.desugaring.specs.Values as values;
ghost use Rattle.query_bodies.specs.Expanded as spec;
ghost use Rattle.query_bodies.specs.Expanded.{said_at, uses_of};
ghost use Rattle.query_bodies.specs.means.Putting.{AreAmong, IsAmong};
ghost use Rattle.query_bodies.specs.Expanding.{uses_before};
ghost use Rattle.query_bodies.specs.Seen.{saids_in};
ghost use Rattle.query_bodies.specs.Views.{body_view, given_view, term_view, terms_view};

use crate::bodies::Bodies;
use crate::lift::lifted;
use crate::node::node_of;
use crate::sums::{difference, sum};
use crate::term::{Body, Term};
use rp_lang::Expr;
use rp_value::{Boxed, List, Memory, copy_bytes};
use std::alloc::Global;

/// Puts in the bodies of queries.
#[derive(Clone, Copy)]
pub struct Expansion<'b> {
    pub(crate) alloc: Global,
    bodies: &'b Bodies,
    /// Only queries of declarations before this one are used, so nesting ends.
    before: u32,
}

#[tactic(auto, using(crate::proofs::TermViews::term_views, rp_lang::proofs::ExprViews::expr_views))]
impl<'b> Expansion<'b> {
    /// Puts in these.
    pub fn new(alloc: Global, bodies: &'b Bodies) -> Expansion<'b>
        ensures { uses_before result ≡ uses_of bodies.now }
    {
        Expansion {
            alloc,
            bodies,
            before: bodies.count(),
        }
    }

    /// The same where only queries before this declaration are used.
    pub(crate) fn inside(&self, before: u32) -> Expansion<'b>
        ensures same { result.bodies.now ≡ self.now.bodies.now }
        ensures before { result.before ≡ before }
    {
        Expansion {
            alloc: self.alloc,
            bodies: self.bodies,
            before,
        }
    }

    /// The body of the query of this declaration, if it may be used.
    pub(crate) fn body(&self, decl: u32) -> Option<&Body>
        ensures before { IfSome result (λ body. decl < self.now.before) }
        ensures said { IfSome result (λ body. said_at (saids_in self.now.bodies.now) decl
            ≡ Some (body_view body.now)) }
    {
        if decl < self.before {
            self.bodies.body(decl)
        } else {
            None
        }
    }

    /// A parameter's argument, which was made outside the binders of the body.
    fn param(&self, given: &[Option<Expr>], bound: u32, param: u32) -> Result<Expr, Memory>
        ensures { IfOk result (λ made. spec.param (map given_view given.now) bound param
            ≡ Some (expr_view made)) }
    {
        match given.get(param as usize) {
            Some(Some(arg)) => lifted(self.alloc, bound, arg),
            _ => Err(Memory),
        }
    }

    /// An argument, which is left out where its parameter stands nowhere.
    #[cycle(expanding)]
    #[tactic(auto)]
    fn arg(
        &self,
        given: &[Option<Expr>],
        bound: u32,
        stands: bool,
        arg: &Term,
    ) -> Result<Option<Expr>, Memory>
        ensures { IfOk result (λ made. IsAmong (given_view made)
            (spec.term (uses_before self.now) (map given_view given.now) bound (term_view arg.now))) }
    {
        if stands {
            let made = self.term(given, bound, arg)?;
            Ok(Some(made))
        } else {
            Ok(None)
        }
    }

    /// The arguments of a use. Those whose parameters stand nowhere in the query's body are left out.
    #[cycle(expanding)]
    #[tactic(auto)]
    pub(crate) fn args(
        &self,
        given: &[Option<Expr>],
        bound: u32,
        decl: u32,
        args: &[Term],
    ) -> Result<List<Option<Expr>>, Memory>
        ensures { IfOk result (λ made. AreAmong (map given_view made)
            (spec.arguments (uses_before self.now) (map given_view given.now) bound (terms_view args.now))) }
    {
        let mut made = List::new(self.alloc);
        for arg in args {
            let stands = self.bodies.standing(decl, made.len()).times > 0;
            made.push(self.arg(given, bound, stands, arg)?)?;
        }
        Ok(made)
    }

    /// A use of a query whose body is a term.
    #[cycle(expanding)]
    #[tactic(auto)]
    fn used(
        &self,
        given: &[Option<Expr>],
        bound: u32,
        decl: u32,
        args: &[Term],
    ) -> Result<Expr, Memory>
        ensures { IfOk result (λ made. option_and_then values.as_term (uses_before self.now decl
            (spec.arguments (uses_before self.now) (map given_view given.now) bound (terms_view args.now)))
            ≡ Some (expr_view made)) }
    {
        let args = self.args(given, bound, decl, args)?;
        match self.body(decl) {
            Some(Body::Term(body)) => self.inside(decl).term(args.as_slice(), 0, body.get()),
            _ => Err(Memory),
        }
    }

    #[cycle(expanding)]
    #[tactic(auto)]
    fn terms(
        &self,
        given: &[Option<Expr>],
        bound: u32,
        terms: &[Term],
    ) -> Result<List<Expr>, Memory>
        ensures { IfOk result (λ made. spec.terms (uses_before self.now) (map given_view given.now) bound
            (terms_view terms.now) ≡ Some (exprs_view made)) }
    {
        let mut made = List::new(self.alloc);
        for part in terms {
            made.push(self.term(given, bound, part)?)?;
        }
        Ok(made)
    }

    #[cycle(expanding)]
    #[tactic(auto)]
    pub(crate) fn boxed(
        &self,
        given: &[Option<Expr>],
        bound: u32,
        term: &Term,
    ) -> Result<Boxed<Expr>, Memory>
        ensures { IfOk result (λ made. spec.term (uses_before self.now) (map given_view given.now) bound
            (term_view term.now) ≡ Some (expr_view made)) }
    {
        Boxed::new(self.alloc, self.term(given, bound, term)?)
    }

    /// A term under so many binders of the expression in which it stands, whose parameters stand for
    /// these; those that stand nowhere may be left out.
    #[cycle(expanding)]
    pub fn term(&self, given: &[Option<Expr>], bound: u32, term: &Term) -> Result<Expr, Memory>
        ensures { IfOk result (λ made. spec.term (uses_before self.now) (map given_view given.now) bound
            (term_view term.now) ≡ Some (expr_view made)) }
    {
        match term {
            Term::Slot(slot) => Ok(Expr::Slot(*slot)),
            Term::Param(param) => self.param(given, bound, *param),
            Term::Level(level) => Ok(Expr::Bound(bound.saturating_sub(*level).saturating_sub(1))),
            Term::Int(n) => Ok(Expr::Int(*n)),
            Term::Str(bytes) =>
                node_of!(copy_bytes(self.alloc, bytes.as_slice()), made => Expr::Str(made)),
            Term::Con(con, args) =>
                node_of!(self.terms(given, bound, args.as_slice()), made => Expr::Con(*con, made)),
            Term::Sum(a, b) => {
                let a = self.boxed(given, bound, a.get())?;
                node_of!(self.boxed(given, bound, b.get()), made => sum(a, made))
            }
            Term::Difference(a, b) => {
                let a = self.boxed(given, bound, a.get())?;
                match self.boxed(given, bound, b.get()) {
                    Ok(made) => difference(a, made),
                    Err(memory) => Err(memory),
                }
            }
            Term::Query(query, args) =>
                node_of!(self.terms(given, bound, args.as_slice()), made => Expr::Query(*query, made)),
            Term::OpOf(call) =>
                node_of!(self.boxed(given, bound, call.get()), made => Expr::OpOf(made)),
            Term::OpTerm(op, args) =>
                node_of!(self.terms(given, bound, args.as_slice()), made => Expr::OpTerm(*op, made)),
            Term::OriginOf(call) =>
                node_of!(self.boxed(given, bound, call.get()), made => Expr::OriginOf(made)),
            Term::InfoOf(inv) =>
                node_of!(self.boxed(given, bound, inv.get()), made => Expr::InfoOf(made)),
            Term::InfoTerm(proc, args) =>
                node_of!(self.terms(given, bound, args.as_slice()), made => Expr::InfoTerm(*proc, made)),
            Term::ResultOf(inv) =>
                node_of!(self.boxed(given, bound, inv.get()), made => Expr::ResultOf(made)),
            Term::ResultTerm(proc, value) => match value {
                Some(value) =>
                    node_of!(self.boxed(given, bound, value.get()), made => Expr::ResultTerm(*proc, Some(made))),
                None => Ok(Expr::ResultTerm(*proc, None)),
            },
            Term::Unreturned => Ok(Expr::Unreturned),
            Term::Use(decl, args) => self.used(given, bound, *decl, args.as_slice()),
        }
    }
}
