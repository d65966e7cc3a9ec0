//! What accesses say.

ghost use Rattle.std.specs.Prelude.{IfOk, List, OnOk, map};
ghost use Rattle.rp_grammar.specs.Trees.{ExprForm};
ghost use Rattle.rp_ast.specs.View as tree;
ghost use Rattle.rp_ast.specs.declared.expr.AccessStep.TheViews.{out-AccessNode};
ghost use Rattle.type_rules.specs.declared.kind.Kind.{Kind as TheKind};
ghost use Rattle.type_rules.specs.Accesses.{args_of};
ghost use Rattle.type_terms.specs.Views.{access_view, way_view};
ghost use Rattle.query_bodies.specs.Views.{body_view, term_view, terms_view};
ghost use Rattle.query_laws.specs.Sight.{SaysKeys};
ghost use Rattle.lawful.specs.Typed.{Along};
ghost use Rattle.reading.specs.Reads.{Reads, ReadsForm};
ghost use Rattle.reading.specs.Args.{AddsArgs, AddsKey, AddsTerms};

use crate::forms::push_boxed;
use crate::reader::Reader;
use query_bodies::{Body, Term};
use rp_ast::{AccessNode, AccessStep, ExprNode};
use rp_value::{List, Memory};
use type_terms::{Access, Way, access_of, arg_kind, key_kind, stepped, way_from};

impl<'t, 'n, 'a> Reader<'t, 'n, 'a> {
    #[cycle(reading)]
    pub fn access(&mut self, access: &'a AccessNode) -> Result<Body, Memory>
        ensures { IfOk result (λ made. ReadsForm self.old self.new (ExprForm.access (tree.access_view access.now))
            (body_view made)) }
    {
        let what = access_of(self.names(), &self.vars, access)?;
        let way = way_from(self.names(), &self.vars, &access.root);
        let keys = self.keys(access.steps.as_slice(), way)?;
        let terms = self.given(access, what, keys)?;
        self.called(access, what, terms)
    }

    /// The keys of the steps that go on from there.
    #[cycle(reading)]
    fn keys(&mut self, steps: &'a [AccessStep], way: Way<'a>) -> Result<List<Term>, Memory>
        ensures { IfOk result (λ made. Reads self.old self.new (λ s. (kinds : List TheKind)
            → Along s.tables.names (way_view s.tables.names way.entry) (tree.steps_view steps.now) kinds
            → SaysKeys s kinds (tree.steps_view steps.now) (terms_view made))) }
    {
        let mut way = way;
        let mut terms = List::new(self.alloc);
        for step in steps {
            self.key(step, way, &mut terms)?;
            way = stepped(way, step)?;
        }
        Ok(terms)
    }

    /// Adds the key of a step, if it has one.
    #[cycle(reading)]
    fn key(
        &mut self,
        step: &'a AccessStep,
        way: Way<'a>,
        terms: &mut List<Term>,
    ) -> Result<(), Memory>
        ensures { OnOk result (Reads self.old self.new (λ s. AddsKey s (way_view s.tables.names way.entry)
            (tree.step_view step.now) (map term_view terms.old) (map term_view terms.new))) }
    {
        match step {
            AccessStep::Dot(_) => Ok(()),
            AccessStep::Returned(_) => Ok(()),
            AccessStep::Key(key) => {
                let kind = key_kind(self.names(), way)?;
                let term = self.term(Some(kind), key)?;
                push_boxed(terms, term)
            }
        }
    }

    /// The arguments in the parentheses of an access, which is this, behind its keys.
    #[cycle(reading)]
    fn given(
        &mut self,
        access: &'a AccessNode,
        what: Access<'a>,
        keys: List<Term>,
    ) -> Result<List<Term>, Memory>
        ensures { IfOk result (λ made. Reads self.old self.new (λ s. AddsArgs s
            (args_of s.tables.names (access_view s.tables.names what.entry))
            (tree.args_view (out-AccessNode access.now).args) (map term_view keys) (map term_view made))) }
    {
        match &access.args {
            Some(args) => self.args(args.as_slice(), what, keys),
            None => Ok(keys),
        }
    }

    #[cycle(reading)]
    fn args(
        &mut self,
        args: &'a [ExprNode],
        what: Access<'a>,
        keys: List<Term>,
    ) -> Result<List<Term>, Memory>
        ensures { IfOk result (λ made. Reads self.old self.new (λ s. AddsTerms s
            (args_of s.tables.names (access_view s.tables.names what.entry))
            (tree.exprs_view args.now) (map term_view keys) (map term_view made))) }
    {
        let mut terms = keys;
        for (place, arg) in args.iter().enumerate() {
            let kind = arg_kind(self.names(), what, place)?;
            let term = self.term(Some(kind), arg)?;
            push_boxed(&mut terms, term)?;
        }
        Ok(terms)
    }
}
