//! The first faults of accesses: of their keys and of their arguments.

ghost use Rattle.std.specs.Prelude.{◌≡◌, ◌∷◌, IfOk, List, true};
ghost use Rattle.rp_ast.specs.View as tree;
ghost use Rattle.rp_ast.specs.declared.expr.AccessStep.TheViews.{out-AccessNode};
ghost use Rattle.rp_grammar.specs.Trees.{ExprForm as FormTree};
ghost use Rattle.type_rules.specs.Names.{Name};
ghost use Rattle.type_rules.specs.Sites.{Site};
ghost use Rattle.type_rules.specs.Accesses.{args_of};
ghost use Rattle.type_rules.specs.Typing.{are_plain, are_plain_args, are_plain_steps, is_plain_form, is_plain_step};
ghost use Rattle.type_rules.specs.ExprSites as spec;
ghost use Rattle.type_tables.specs.Counts.{IsCounted};
ghost use Rattle.type_terms.specs.Views.{access_view, way_view};
ghost use Rattle.type_faults.specs.Walks.{Walks, names_at, scope_at, stand_of};

use crate::told::{Term, Told, both, nothing};
use crate::walk::{Found, Walk};
use rp_ast::{AccessNode, AccessStep, ExprNode};
use type_judges::{argument, judge_statement};
use type_tables::sooner;
use type_terms::{Access, Way, access_of, arg_kind, is_plain_access, key_kind, stepped, way_from};

impl<'n, 'a> Walk<'n, 'a> {
    /// The keys and the arguments of an access.
    #[cycle(exprs)]
    #[tactic(auto, using(rp_ast::proofs::ExprViews::expr_views))]
    pub(crate) fn access(&mut self, access: &'a AccessNode) -> Term
        ensures { (later : List Name) → IsCounted self.old.later later
            → IfOk result (λ told. Walks later self.old self.new told.fault
            (λ p. spec.access_sites p.names (scope_at later p) (tree.access_view access.now)) (λ p. p.sight)
            × (told.plain ≡ is_plain_form (names_at self.old) self.old.vars (FormTree.access (tree.access_view access.now)))) }
    {
        let what = access_of(self.names, &self.vars, access)?;
        let way = way_from(self.names, &self.vars, &access.root);
        let own = is_plain_access(self.names, what);
        let keys = self.keys(access.steps.as_slice(), way)?;
        let args = self.given(access, what)?;
        Ok(Told {
            fault: sooner(keys.fault, args.fault),
            plain: both(both(own, keys.plain), args.plain),
        })
    }

    /// The keys of the steps that go on from there.
    #[cycle(exprs)]
    fn keys(&mut self, steps: &'a [AccessStep], way: Way<'a>) -> Term
        ensures { (later : List Name) → IsCounted self.old.later later
            → IfOk result (λ told. Walks later self.old self.new told.fault
            (λ p. spec.step_sites p.names (scope_at later p) (way_view p.names way.entry) (tree.steps_view steps.now))
            (λ p. p.sight)
            × (told.plain ≡ are_plain_steps (names_at self.old) self.old.vars (tree.steps_view steps.now))) }
    {
        let mut way = way;
        let mut best = None;
        let mut plain = true;
        for step in steps {
            let told = self.key(step, way)?;
            best = sooner(best, told.fault);
            plain = both(plain, told.plain);
            way = stepped(way, step)?;
        }
        Ok(Told { fault: best, plain })
    }

    #[cycle(exprs)]
    fn key(&mut self, step: &'a AccessStep, way: Way<'a>) -> Term
        ensures { (later : List Name) → IsCounted self.old.later later
            → IfOk result (λ told. Walks later self.old self.new told.fault
            (λ p. spec.key_sites p.names (scope_at later p) (way_view p.names way.entry) (tree.step_view step.now))
            (λ p. p.sight)
            × (told.plain ≡ is_plain_step (names_at self.old) self.old.vars (tree.step_view step.now))) }
    {
        match step {
            AccessStep::Dot(_) => Ok(nothing()),
            AccessStep::Returned(_) => Ok(nothing()),
            AccessStep::Key(key) => {
                let kind = key_kind(self.names, way)?;
                self.term(argument(true, kind), key)
            }
        }
    }

    /// The arguments in the parentheses of an access, which is this.
    #[cycle(exprs)]
    fn given(&mut self, access: &'a AccessNode, what: Access<'a>) -> Term
        ensures { (later : List Name) → IsCounted self.old.later later
            → IfOk result (λ told. Walks later self.old self.new told.fault
            (λ p. spec.given_sites p.names (scope_at later p) (args_of p.names (access_view p.names what.entry))
            (tree.args_view (out-AccessNode access.now).args)) (λ p. p.sight)
            × (told.plain ≡ are_plain_args (names_at self.old) self.old.vars (tree.args_view (out-AccessNode access.now).args))) }
    {
        match &access.args {
            Some(args) => self.args(args.as_slice(), what),
            None => Ok(nothing()),
        }
    }

    #[cycle(exprs)]
    fn args(&mut self, args: &'a [ExprNode], what: Access<'a>) -> Term
        ensures { (later : List Name) → IsCounted self.old.later later
            → IfOk result (λ told. Walks later self.old self.new told.fault
            (λ p. spec.arg_sites p.names (scope_at later p) true (args_of p.names (access_view p.names what.entry))
            (tree.exprs_view args.now)) (λ p. p.sight)
            × (told.plain ≡ are_plain (names_at self.old) self.old.vars (tree.exprs_view args.now))) }
    {
        let mut best = None;
        let mut plain = true;
        for (place, arg) in args.iter().enumerate() {
            let kind = arg_kind(self.names, what, place)?;
            let told = self.term(argument(true, kind), arg)?;
            best = sooner(best, told.fault);
            plain = both(plain, told.plain);
        }
        Ok(Told { fault: best, plain })
    }

    /// The first fault of an access that is a statement.
    pub(crate) fn statement(&mut self, access: &'a AccessNode) -> Found
        ensures { (later : List Name) → IsCounted self.old.later later
            → IfOk result (λ fault. Walks later self.old self.new fault
            (λ p. Site.statement (scope_at later p) (tree.access_view access.now)
            ∷ spec.access_sites p.names (scope_at later p) (tree.access_view access.now)) (λ p. p.sight)) }
    {
        let here = judge_statement(&self.scope(), access)?;
        self.mark_access(access)?;
        let below = self.access(access)?;
        Ok(sooner(here, below.fault))
    }
}
