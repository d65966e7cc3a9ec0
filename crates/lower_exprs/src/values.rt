//! What expressions become, and the limits that they pass.

ghost use Rattle.std.specs.Prelude.{◌≡◌, [], true, false, IfOk, IsErrOf, OnOk, Some, max};
ghost use Rattle.rp_ast.specs.View as tree;
ghost use Rattle.rp_lang.specs.Views.{expr_view, formula_view};
ghost use Rattle.desugaring.specs.Values as values;
ghost use Rattle.desugaring.specs.Values.{Value as SpecValue};
ghost use Rattle.query_bodies.specs.Terms.{said_claim, said_term};
ghost use Rattle.query_bodies.specs.Views.{body_view, claim_view, term_view};
ghost use Rattle.query_laws.specs.Told.{AreTold};
ghost use Rattle.lower_exprs.specs.Making.{AreMeasuredIn, Becomes, IsBuiltOf, IsMade, IsPast, IsPastBy, IsPastExpr, IsPastOf, IsReady, NotesExpr, NotesSaid, is_small, said_value, same_form, value_view};
ghost use Rattle.lower_exprs.specs.declared.stop.Stop.TheVariants as stop;

use crate::sound::is_sound;
use crate::stop::Stop;
use program_bounds::{is_small_ex, is_small_fo};
use query_bodies::{Bodies, Body, Claim, Expansion, Facts, Term};
use query_laws::{large_values_are_past, measures_are_told};
use reading::Reader;
use rp_ast::ExprNode;
use rp_lang::{Expr, Formula};
use rp_value::{Boxed, ConTable, List, Memory};
use std::alloc::Global;
use text_tables::Tables;
use type_rules::Kind;

/// A body with more nodes is too large whatever literals it loses to sums.
const MOST_NODES: u64 = 200_000;

/// The greatest numbers that were seen.
#[derive(Clone, Copy)]
pub struct Passed {
    pub depth: u64,
    pub binders: u64,
}

/// What a text's expressions are made with. Without `building` only what they pass is told, and they
/// are left blank.
#[derive(Clone, Copy)]
pub struct Work<'t, 'n, 'a> {
    pub alloc: Global,
    pub tables: &'t Tables<'n, 'a>,
    pub bodies: &'t Bodies,
    /// The constructors of the program.
    pub cons: &'t ConTable,
    pub building: bool,
}

/// What an expression becomes.
#[derive(Drop)]
pub enum Value {
    Term(Expr),
    Formula(Boxed<Formula>),
}

/// With whether it reads the store.
#[derive(Drop)]
pub struct Made {
    pub value: Value,
    pub reads: bool,
}

/// Makes what one declaration's expressions become.
#[derive(Drop)]
pub struct Maker<'t, 'n, 'a> {
    pub work: Work<'t, 'n, 'a>,
    pub reader: Reader<'t, 'n, 'a>,
    pub passed: Passed,
}

impl<'t, 'n, 'a> Maker<'t, 'n, 'a> {
    pub fn new(work: Work<'t, 'n, 'a>, passed: Passed) -> Maker<'t, 'n, 'a>
        ensures work { result.work ≡ work.entry }
        ensures passed { result.passed ≡ passed }
        ensures vars { result.reader.vars ≡ [] }
        ensures ready { AreMeasuredIn work.entry → IsReady result }
    {
        Maker {
            work,
            reader: Reader::new(work.alloc, work.tables, work.bodies),
            passed,
        }
    }

    /// Sees how large an expression gets.
    fn note(&mut self, facts: Facts)
        ensures { self.new ≡ record self.old {
          passed = record {
            depth = max self.old.passed.depth facts.depth;
            binders = max self.old.passed.binders facts.binders;
          };
        } }
    {
        self.passed = Passed {
            depth: self.passed.depth.max(facts.depth),
            binders: self.passed.binders.max(facts.binders),
        };
    }

    /// A value that stands for one that isn't built.
    fn blank(&self, body: &Body) -> Result<Value, Memory>
        ensures { (v : SpecValue) → said_value self.now.work (body_view body.now) ≡ Some v
            → IfOk result (λ value. same_form (value_view value) v ≡ true) }
    {
        match body {
            Body::Term(_) => Ok(Value::Term(Expr::Unreturned)),
            Body::Claim(_) => {
                let nothing = Formula::And(List::new(self.work.alloc));
                Ok(Value::Formula(Boxed::new(self.work.alloc, nothing)?))
            }
        }
    }

    /// A term with all uses put in.
    fn build_term(&self, term: &Term) -> Result<Value, Stop>
        ensures made { IfOk result (λ value. said_value self.now.work (said_term (term_view term.now))
            ≡ Some (value_view value)) }
        ensures small { IfOk result (λ value. is_small self.now.work.cons.now (value_view value) ≡ true) }
        ensures nodes { IsErrOf result stop.Nodes → IsPast self.now.work (said_term (term_view term.now)) }
    {
        let expansion = Expansion::new(self.work.alloc, self.work.bodies);
        let e = expansion.term(&[], 0, term)?;
        if is_small_ex(&e) {
            Ok(Value::Term(e))
        } else {
            Err(Stop::Nodes)
        }
    }

    /// A formula with all uses put in.
    fn build_claim(&self, claim: &Claim) -> Result<Value, Stop>
        ensures made { IfOk result (λ value. said_value self.now.work (said_claim (claim_view claim.now))
            ≡ Some (value_view value)) }
        ensures small { IfOk result (λ value. is_small self.now.work.cons.now (value_view value) ≡ true) }
        ensures nodes { IsErrOf result stop.Nodes → IsPast self.now.work (said_claim (claim_view claim.now)) }
    {
        let expansion = Expansion::new(self.work.alloc, self.work.bodies);
        let f = Boxed::new(self.work.alloc, expansion.claim(&[], 0, claim)?)?;
        if is_small_fo(f.get(), self.work.cons) {
            Ok(Value::Formula(f))
        } else {
            Err(Stop::Nodes)
        }
    }

    /// Puts all uses in.
    fn build(&self, facts: Facts, body: &Body) -> Result<Value, Stop>
        ensures made { IfOk result (λ value. said_value self.now.work (body_view body.now)
            ≡ Some (value_view value)) }
        ensures small { IfOk result (λ value. is_small self.now.work.cons.now (value_view value) ≡ true) }
        ensures nodes { IsErrOf result stop.Nodes → IsPastBy facts self.now.work (body_view body.now) }
    {
        large_values_are_past();
        if facts.nodes > MOST_NODES {
            return Err(Stop::Nodes);
        }
        match body {
            Body::Term(term) => self.build_term(term.get()),
            Body::Claim(claim) => self.build_claim(claim.get()),
        }
    }

    /// The value of a body, or what stands for it.
    fn built(&self, facts: Facts, body: &Body) -> Result<Value, Stop>
        ensures built { IfOk result (λ value. IsBuiltOf self.now.work (body_view body.now) value) }
        ensures nodes { IsErrOf result stop.Nodes → IsPastBy facts self.now.work (body_view body.now) }
    {
        if self.work.building {
            let value = self.build(facts, body)?;
            Ok(value)
        } else {
            let value = self.blank(body)?;
            Ok(value)
        }
    }

    /// How large a body gets. What doesn't pass the test stands in no lawful text.
    fn facts(&self, body: &Body) -> Result<Facts, Memory>
        ensures { IfOk result (λ facts. AreMeasuredIn self.now.work → (v : SpecValue)
            → said_value self.now.work (body_view body.now) ≡ Some v → AreTold self.now.work.cons.now v facts) }
    {
        let sound = is_sound(self.work.cons, self.work.bodies, 0, body);
        if !sound {
            return Err(Memory);
        }
        measures_are_told();
        let facts = self.work.bodies.facts_of(self.work.alloc, body)?;
        Ok(facts)
    }

    /// What a body becomes.
    pub fn made(&mut self, body: &Body) -> Result<Made, Stop>
        ensures made { IfOk result (λ made. IsMade self.old.work (body_view body.now) made) }
        ensures notes { OnOk result (NotesSaid self.old (body_view body.now) self.new) }
        ensures nodes { IsErrOf result stop.Nodes → IsPastOf self.old.work (body_view body.now) }
    {
        let facts = self.facts(body)?;
        self.note(facts);
        let value = self.built(facts, body)?;
        Ok(Made {
            value,
            reads: facts.reads,
        })
    }

    /// What an expression becomes whose place asks this type.
    pub fn value(&mut self, asked: Option<Kind>, e: &'a ExprNode) -> Result<Made, Stop>
        ensures made { IfOk result (λ made. Becomes self.old asked (tree.expr_view e.now) made) }
        ensures notes { OnOk result (NotesExpr self.old asked (tree.expr_view e.now) self.new) }
        ensures nodes { IsErrOf result stop.Nodes → IsPastExpr self.old asked (tree.expr_view e.now) }
    {
        let body = self.reader.body(asked, e)?;
        let made = self.made(&body)?;
        Ok(made)
    }
}

/// As a formula a term of type `Bool` is true.
pub fn as_formula(value: Value) -> Formula
    ensures { formula_view result ≡ values.as_formula (value_view value) }
{
    match value {
        Value::Term(e) => Formula::Holds(e),
        Value::Formula(f) => f.into_inner(),
    }
}

/// A plain term.
pub fn as_term(value: Value) -> Result<Expr, Memory>
    ensures { IfOk result (λ e. values.as_term (value_view value) ≡ Some (expr_view e)) }
{
    match value {
        Value::Term(e) => Ok(e),
        Value::Formula(_) => Err(Memory),
    }
}
