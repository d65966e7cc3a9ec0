//! The first faults of statements in which no block stands.

ghost use Rattle.std.specs.Prelude.{◌≡◌, ◌∷◌, ◌++◌, [], Option, None, codes, false, IfOk, List};
ghost use Rattle.rp_ast.specs.View as tree;
ghost use Rattle.rp_grammar.specs.Trees.{StmtForm as StmtTree};
ghost use Rattle.type_rules.specs.Names.{Name};
ghost use Rattle.type_rules.specs.Sites.{Site};
ghost use Rattle.type_rules.specs.Starts.{word_at as spec_word_at};
ghost use Rattle.type_rules.specs.Flow as flow;
ghost use Rattle.type_rules.specs.Accesses.{find_var};
ghost use Rattle.type_rules.specs.Typing.{type_of as spec_type_of};
ghost use Rattle.type_rules.specs.ExprSites.{expr_sites, matched as matched_want};
ghost use Rattle.type_rules.specs.declared.role.Role.TheVariants as role;
ghost use Rattle.type_judges.specs.Places.{want_view};
ghost use Rattle.type_rules.specs.StmtSites as spec;
ghost use Rattle.type_tables.specs.Counts.{IsCounted};
ghost use Rattle.type_faults.specs.declared.stmts.Frame.{Frame as TheFrame};
ghost use Rattle.type_faults.specs.Walks.{Walks, frame_at, quiet_at, scope_at};

use crate::patterns::block_arm_table;
use crate::stmts::Frame;
use crate::walk::{Found, Walk};
use rp_ast::{BlockArm, ExprNode, Ident, TypeNode};
use rp_span::Span;
use type_judges::{
    Leaving, Want, asks, judge_arms, judge_assigns, judge_declares, judge_leaves, judge_made,
    judge_written, matched,
};
use type_rules::{Fault, Kind, Role};
use type_tables::{UNKNOWN_KIND, VarItem, sooner};
use type_terms::{cases_of, type_of, word_at};

impl<'n, 'a> Walk<'n, 'a> {
    /// The first fault of a value, if there is one.
    fn value(&mut self, want: Want, value: &'a Option<ExprNode>) -> Found
        ensures { (later : List Name) → IsCounted self.old.later later
            → IfOk result (λ fault. Walks later self.old self.new fault
            (λ p. spec.value_sites p.names (scope_at later p) (want_view want) (tree.optional tree.expr_view value.now))
            (λ p. p.sight)) }
    {
        match value {
            Some(value) => self.expr(want, value),
            None => Ok(None),
        }
    }

    /// A declared variable comes in sight. It has a value only where no path comes.
    fn declare(&mut self, name: &'a Ident, ty: &'a TypeNode) -> Found
        ensures { (later : List Name) → IsCounted self.old.later later
            → IfOk result (λ fault. Walks later self.old self.new fault
            (λ p. Site.declares p.sight.vars (tree.ident_view name.now)
            ∷ Site.written p.decl role.Variable (tree.type_view ty.now) ∷ [])
            (λ p. flow.with_declared p.names p.sight false (tree.ident_view name.now) (tree.type_view ty.now))) }
    {
        let declared = judge_declares(self.names, &self.vars, name);
        let written = judge_written(self.names, self.decl, Role::Variable, ty)?;
        let kind = self.names.kind_of(ty)?;
        self.bring(VarItem {
            name: name.text.as_slice(),
            kind,
            set: !self.live,
            fixed: false,
        })?;
        Ok(sooner(declared, written))
    }

    /// A declaration of a variable. Its own value is read before it has one.
    pub(crate) fn var(
        &mut self,
        name: &'a Ident,
        ty: &'a TypeNode,
        value: &'a Option<ExprNode>,
    ) -> Found
        ensures { (later : List Name) (frame : TheFrame) → IsCounted self.old.later later → self.old.words ≡ false
            → IfOk result (λ fault. Walks later self.old self.new fault
            (λ p. spec.var_sites p.names (frame_at later frame p) p.sight (tree.ident_view name.now)
            (tree.type_view ty.now) (tree.optional tree.expr_view value.now))
            (λ p. flow.after_form p.names p.sight (StmtTree.var (tree.ident_view name.now) (tree.type_view ty.now)
            (tree.optional tree.expr_view value.now)))) }
    {
        let here = self.declare(name, ty)?;
        let kind = self.names.kind_of(ty)?;
        let below = self.value(asks(23, kind), value)?;
        match value {
            Some(_) => {
                self.give_last();
                Ok(sooner(here, below))
            }
            None => Ok(sooner(here, below)),
        }
    }

    /// A new identifier for a variable.
    pub(crate) fn make(&mut self, name: &'a Ident, ty: &'a Ident) -> Option<Fault>
        ensures { (later : List Name) (frame : TheFrame) → IsCounted self.old.later later → self.old.words ≡ false
            → Walks later self.old self.new result
            (λ p. spec.new_sites (frame_at later frame p) p.sight (tree.ident_view name.now) (tree.ident_view ty.now))
            (λ p. record p.sight { vars = flow.give name.now.text p.sight.vars }) }
    {
        let text = name.text.as_slice();
        let assigned = judge_assigns(&self.scope(), name);
        let made = judge_made(self.names, self.decl, self.vars.find(text), ty);
        self.give(text);
        sooner(assigned, made)
    }

    /// The type of a variable of this name, if one is in sight.
    fn var_kind(&self, name: &[u8]) -> Kind
        ensures { result ≡ spec.var_kind (find_var self.now.vars name.now) }
    {
        match self.vars.find(name) {
            Some(var) => var.kind,
            None => UNKNOWN_KIND,
        }
    }

    /// An assignment.
    pub(crate) fn assign(&mut self, name: &'a Ident, value: &'a ExprNode) -> Found
        ensures { (later : List Name) (frame : TheFrame) → IsCounted self.old.later later → self.old.words ≡ false
            → IfOk result (λ fault. Walks later self.old self.new fault
            (λ p. spec.assign_sites p.names (frame_at later frame p) p.sight (tree.ident_view name.now)
            (tree.expr_view value.now)) (λ p. record p.sight { vars = flow.give name.now.text p.sight.vars })) }
    {
        let text = name.text.as_slice();
        let assigned = judge_assigns(&self.scope(), name);
        let kind = self.var_kind(text);
        let below = self.expr(asks(23, kind), value)?;
        self.give(text);
        Ok(sooner(assigned, below))
    }

    /// A `return`.
    pub(crate) fn leave(
        &mut self,
        frame: Frame,
        last: bool,
        at: Span,
        value: &'a Option<ExprNode>,
    ) -> Found
        ensures { (later : List Name) → IsCounted self.old.later later → self.old.words ≡ false
            → IfOk result (λ fault. Walks later self.old self.new fault
            (λ p. spec.stmt_form_sites p.names (frame_at later frame p) p.sight last at
            (StmtTree.return (tree.optional tree.expr_view value.now))) (λ p. flow.dead p.sight)) }
    {
        let word = word_at(b"return", at)?;
        let leaving = Leaving {
            inside_atomic: frame.inside_atomic,
            last_in_block: last,
            has_value: value.is_some(),
            has_result: frame.result.is_some(),
        };
        let here = judge_leaves(leaving, word);
        let asked = frame.result.unwrap_or(UNKNOWN_KIND);
        let below = self.value(asks(23, asked), value)?;
        self.end();
        Ok(sooner(here, below))
    }

    /// The term in parentheses of a `match`, and its word.
    pub(crate) fn match_head(&mut self, at: Span, term: &'a ExprNode, arms: &'a [BlockArm]) -> Found
        ensures { (later : List Name) → IsCounted self.old.later later → self.old.words ≡ false
            → IfOk result (λ fault. Walks later self.old self.new fault
            (λ p. expr_sites p.names (quiet_at later p) matched_want (tree.expr_view term.now)
            ++ Site.arms (spec_word_at (codes "match") at) (spec_type_of p.names p.sight.vars None (tree.expr_view term.now))
            (spec.arm_names (tree.block_arms_view arms.now)) ∷ []) (λ p. p.sight)) }
    {
        let kind = type_of(self.names, &self.vars, None, term)?;
        let here = self.expr(matched(), term)?;
        let all = block_arm_table(self.alloc, arms)?;
        let word = word_at(b"match", at)?;
        Ok(sooner(here, judge_arms(word, &all, cases_of(self.names, kind))))
    }
}
