//! What calls say with their keys and arguments.

ghost use Rattle.std.specs.Prelude.{◌≡◌, ℕ, IfOk, Some};
ghost use Rattle.rp_ast.specs.View as tree;
ghost use Rattle.type_rules.specs.declared.kind.Base.TheVariants as base;
ghost use Rattle.type_rules.specs.Accesses.{Access as TheAccess};
ghost use Rattle.type_rules.specs.Kinds as kinds;
ghost use Rattle.type_terms.specs.Members.{does_view, member_view};
ghost use Rattle.type_terms.specs.Views.{access_view};
ghost use Rattle.desugaring.specs.Callees.{Stand, stand_named};
ghost use Rattle.desugaring.specs.Tables as spec;
ghost use Rattle.query_bodies.specs.Expanded.{Uses};
ghost use Rattle.query_bodies.specs.Terms as te;
ghost use Rattle.query_bodies.specs.Terms.{said_claim, said_term};
ghost use Rattle.query_bodies.specs.Views.{body_view, term_view, terms_view};
ghost use Rattle.query_laws.specs.Sight.{IsCall, IsOutcome, Known as TheKnown, said_of};
ghost use Rattle.text_tables.specs.Called.{callee_of};
ghost use Rattle.reading.specs.Reads.{IsCalled, IsKept, known_view, sight_of};

use crate::forms::{of_claim, of_term};
use crate::path::end_of;
use crate::reader::{Known, Reader};
use query_bodies::{Body, Claim, Term, use_of};
use rp_ast::{AccessNode, ConNode, ProcNode};
use rp_value::{Boxed, List, Memory};
use std::alloc::Global;
use type_rules::Base;
use type_tables::plain_kind;
use type_terms::{Access, Does, Member};

#[tactic(auto, using(query_bodies::proofs::TermViews::term_views))]
fn of_known(alloc: Global, known: Known) -> Result<Body, Memory>
    ensures { IfOk result (λ body. body_view body ≡ said_term (said_of (known_view known))) }
{
    match known {
        Known::Slot(slot) => of_term(alloc, Term::Slot(slot)),
        Known::Param(param) => of_term(alloc, Term::Param(param)),
        Known::Level(level) => of_term(alloc, Term::Level(level)),
    }
}

#[tactic(auto, using(query_bodies::proofs::TermViews::term_views))]
fn constructed(alloc: Global, con: u32, args: List<Term>) -> Result<Body, Memory>
    ensures { IfOk result (λ body. body_view body ≡ said_term (te.Con con (terms_view args))) }
{
    of_term(alloc, Term::Con(con, args))
}

#[tactic(auto, using(query_bodies::proofs::TermViews::term_views))]
fn called_proc(alloc: Global, proc: u32, args: List<Term>) -> Result<Body, Memory>
    ensures { IfOk result (λ body. body_view body ≡ said_term (te.InfoTerm proc (terms_view args))) }
{
    of_term(alloc, Term::InfoTerm(proc, args))
}

#[tactic(auto, using(query_bodies::proofs::TermViews::term_views))]
fn outcome_with(alloc: Global, proc: u32, value: Term) -> Result<Body, Memory>
    ensures { IfOk result (λ body. body_view body ≡ said_term (te.ResultWith proc (term_view value))) }
{
    let value = Boxed::new(alloc, value)?;
    of_term(alloc, Term::ResultTerm(proc, Some(value)))
}

/// The outcome of a procedure, with its value if it has one.
#[tactic(auto, using(query_bodies::proofs::TermViews::term_views))]
fn outcome_of(alloc: Global, proc: u32, args: List<Term>) -> Result<Body, Memory>
    ensures { IfOk result (λ body. IsOutcome proc (terms_view args) (body_view body)) }
{
    let mut args = args;
    match args.pop() {
        Some(value) => outcome_with(alloc, proc, value),
        None => of_term(alloc, Term::ResultTerm(proc, None)),
    }
}

#[tactic(auto, using(query_bodies::proofs::TermViews::term_views))]
fn operation_of(alloc: Global, number: u32, args: List<Term>) -> Result<Body, Memory>
    ensures { IfOk result (λ body. body_view body ≡ said_term (te.OpTerm number (terms_view args))) }
{
    of_term(alloc, Term::OpTerm(number, args))
}

#[tactic(auto, using(query_bodies::proofs::TermViews::term_views))]
fn value_of(alloc: Global, number: u32, args: List<Term>) -> Result<Body, Memory>
    ensures { IfOk result (λ body. body_view body ≡ said_term (te.Query number (terms_view args))) }
{
    of_term(alloc, Term::Query(number, args))
}

#[tactic(auto, using(query_bodies::proofs::TermViews::term_views, query_bodies::proofs::ClaimViews::claim_views))]
fn question_of(alloc: Global, number: u32, args: List<Term>) -> Result<Body, Memory>
    ensures { IfOk result (λ body. body_view body ≡ said_claim (te.Holds (te.Query number (terms_view args)))) }
{
    of_claim(alloc, Claim::Holds(Term::Query(number, args)))
}

/// What the operation or the query of the store of this number says.
fn stored(alloc: Global, does: Does, number: u32, args: List<Term>) -> Result<Body, Memory>
    ensures { (uses : Uses) → IfOk result (λ body. IsCall uses (callee_of (does_view does) number) (terms_view args)
        (body_view body)) }
{
    match does {
        Does::Adds => operation_of(alloc, number, args),
        Does::Removes => operation_of(alloc, number, args),
        Does::Assigns => operation_of(alloc, number, args),
        Does::Increments => operation_of(alloc, number, args),
        Does::Deletes => operation_of(alloc, number, args),
        Does::Contains => question_of(alloc, number, args),
        Does::HasKey => question_of(alloc, number, args),
        Does::GetsValue => value_of(alloc, number, args),
        Does::GetsSum => value_of(alloc, number, args),
    }
}

impl<'t, 'n, 'a> Reader<'t, 'n, 'a> {
    /// What a variable of this name says.
    fn variable(&self, name: &[u8]) -> Result<Body, Memory>
        ensures { IfOk result (λ body. IsKept self.now → (s : Stand TheKnown)
            → stand_named (sight_of self.now).vars name.now ≡ Some s
            → body_view body ≡ said_term (said_of s.known)) }
    {
        let known = self.known(name)?;
        of_known(self.alloc, known)
    }

    fn constructor(&self, number: u32, con: &ConNode, args: List<Term>) -> Result<Body, Memory>
        ensures { IfOk result (λ body. (k : ℕ) → spec.con_number (sight_of self.now).tables
            (kinds.plain_kind (base.Declared number)) con.now.name.text ≡ Some k
            → body_view body ≡ said_term (te.Con k (terms_view args))) }
    {
        let kind = plain_kind(Base::Declared(number));
        let con = self.tables.con_number(kind, con.name.text.as_slice())?;
        constructed(self.alloc, con, args)
    }

    /// The number of a procedure. `Err` is that it has none.
    fn proc_number(&self, proc: &ProcNode) -> Result<u32, Memory>
        ensures { IfOk result (λ number. spec.proc_number (sight_of self.now).tables proc.now.name.text ≡ Some number) }
    {
        match self.tables.proc_number(proc.name.text.as_slice()) {
            Some(number) => Ok(number),
            None => Err(Memory),
        }
    }

    fn procedure(&self, proc: &ProcNode, args: List<Term>) -> Result<Body, Memory>
        ensures { IfOk result (λ body. (k : ℕ) → spec.proc_number (sight_of self.now).tables proc.now.name.text ≡ Some k
            → body_view body ≡ said_term (te.InfoTerm k (terms_view args))) }
    {
        let number = self.proc_number(proc)?;
        called_proc(self.alloc, number, args)
    }

    fn returned(&self, proc: &ProcNode, args: List<Term>) -> Result<Body, Memory>
        ensures { IfOk result (λ body. (k : ℕ) → spec.proc_number (sight_of self.now).tables proc.now.name.text ≡ Some k
            → IsOutcome k (terms_view args) (body_view body)) }
    {
        let number = self.proc_number(proc)?;
        outcome_of(self.alloc, number, args)
    }

    /// An operation or a query of the store, to which the access leads.
    fn member(
        &self,
        access: &AccessNode,
        member: Member<'a>,
        args: List<Term>,
    ) -> Result<Body, Memory>
        ensures { IfOk result (λ body. IsCalled self.now (TheAccess.member (member_view
            (sight_of self.now).tables.names member.entry))
            (tree.access_view access.now) (terms_view args) (body_view body)) }
    {
        let crdt = end_of(self.names(), &self.vars, access)?;
        let number = self.tables.member_number(crdt, member.does)?;
        stored(self.alloc, member.does, number, args)
    }

    /// What is called, with its keys and arguments.
    pub(crate) fn called(
        &self,
        access: &AccessNode,
        what: Access<'a>,
        args: List<Term>,
    ) -> Result<Body, Memory>
        ensures { IfOk result (λ body. IsCalled self.now (access_view (sight_of self.now).tables.names what.entry)
            (tree.access_view access.now) (terms_view args) (body_view body)) }
    {
        match what {
            Access::Unknown => Err(Memory),
            Access::Misfit(_) => Err(Memory),
            Access::Variable(_) => self.variable(access.root.text.as_slice()),
            Access::Constructor(number, con) => self.constructor(number, con, args),
            Access::UseOf(decl, _) => use_of(self.alloc, self.bodies, decl, args),
            Access::Procedure(proc) => self.procedure(proc, args),
            Access::Returned(proc) => self.returned(proc, args),
            Access::Member(member) => self.member(access, member, args),
        }
    }
}
