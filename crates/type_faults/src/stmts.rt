//! The first faults of statements.

ghost use Rattle.std.specs.Prelude.{◌≡◌, ◌++◌, [], Option, None, false, IfOk, List, true};
ghost use Rattle.std.specs.Option.{option_map};
ghost use Rattle.rp_ast.specs.View as tree;
ghost use Rattle.rp_grammar.specs.Trees.{StmtForm as StmtTree};
ghost use Rattle.type_rules.specs.declared.kind.Kind.{Kind as TheKind};
ghost use Rattle.type_rules.specs.Names.{Name};
ghost use Rattle.type_rules.specs.Matches.{cases_of as spec_cases_of};
ghost use Rattle.type_rules.specs.Flow as flow;
ghost use Rattle.type_rules.specs.Flow.{Sight};
ghost use Rattle.type_rules.specs.ExprSites.{bool_whole as whole_want, expr_sites};
ghost use Rattle.type_rules.specs.StmtSites as spec;
ghost use Rattle.type_tables.specs.Counts.{IsCounted};
ghost use Rattle.type_terms.specs.Views.{IsTableOf, cases_view};
ghost use Rattle.type_faults.specs.Flows.{IsFlowOf, bare};
ghost use Rattle.type_faults.specs.Walks.{Follows, Walks, arm_own_sites, frame_at, names_at, quiet_at, sight_of};

use crate::blocks::Flow;
use crate::patterns::add_arm;
use crate::walk::{Found, Walk};
use rp_ast::{Block, BlockArm, ElseNode, ExprNode, StmtForm, StmtNode};
use rp_span::Span;
use type_judges::{bool_whole, judge_opens};
use type_rules::{Fault, Kind};
use type_tables::{NameTable, sooner};
use type_terms::{Cases, cases_of, type_of, word_at};

/// The procedure and the block in which a statement stands.
#[derive(Clone, Copy)]
pub(crate) struct Frame {
    pub(crate) result: Option<Kind>,
    pub(crate) inside_atomic: bool,
}

impl<'n, 'a> Walk<'n, 'a> {
    /// The first fault of a statement, last in its block or not.
    #[cycle(stmts)]
    fn stmt(&mut self, frame: Frame, last: bool, stmt: &'a StmtNode) -> Found
        ensures { (later : List Name) → IsCounted self.old.later later → self.old.words ≡ false
            → IfOk result (λ fault. Walks later self.old self.new fault
            (λ p. spec.stmt_sites p.names (frame_at later frame p) p.sight last (tree.stmt_view stmt.now))
            (λ p. flow.after p.names p.sight (tree.stmt_view stmt.now))) }
    {
        match &stmt.what {
            StmtForm::Var(name, ty, value) => self.var(name, ty, value),
            StmtForm::New(name, ty) => Ok(self.make(name, ty)),
            StmtForm::Assign(name, value) => self.assign(name, value),
            StmtForm::Access(access) => self.statement(access),
            StmtForm::If(condition, body, otherwise) => {
                let before = self.flow()?;
                let first = self.branch(frame, body, condition)?;
                self.otherwise(first, frame, otherwise, &before)
            }
            StmtForm::Match(term, arms) => {
                let kind = type_of(self.names, &self.vars, None, term)?;
                let head = self.match_head(stmt.span, term, arms.as_slice())?;
                self.block_arms(head, frame, arms.as_slice(), kind)
            }
            StmtForm::Atomic(body) => self.atomic(frame, body, stmt.span),
            StmtForm::Assert(condition) => self.expr(bool_whole(), condition),
            StmtForm::Return(value) => self.leave(frame, last, stmt.span, value),
        }
    }

    /// An atomic block.
    #[cycle(stmts)]
    fn atomic(&mut self, frame: Frame, body: &'a Block, at: Span) -> Found
        ensures { (later : List Name) → IsCounted self.old.later later → self.old.words ≡ false
            → IfOk result (λ fault. Walks later self.old self.new fault
            (λ p. spec.stmt_form_sites p.names (frame_at later frame p) p.sight true at
            (StmtTree.atomic (tree.block_view body.now))) (λ p. flow.after_block p.names p.sight (tree.block_view body.now))) }
    {
        let word = word_at(b"atomic", at)?;
        let here = judge_opens(frame.inside_atomic, word);
        let inside = Frame {
            result: frame.result,
            inside_atomic: true,
        };
        let below = self.block(inside, body)?;
        Ok(sooner(here, below))
    }

    /// A condition, and the block that stands behind it.
    #[cycle(stmts)]
    fn branch(&mut self, frame: Frame, body: &'a Block, condition: &'a ExprNode) -> Found
        ensures { (later : List Name) → IsCounted self.old.later later → self.old.words ≡ false
            → IfOk result (λ fault. Walks later self.old self.new fault
            (λ p. expr_sites p.names (quiet_at later p) whole_want (tree.expr_view condition.now)
            ++ spec.block_sites p.names (frame_at later frame p) p.sight (tree.block_view body.now))
            (λ p. flow.after_block p.names p.sight (tree.block_view body.now))) }
    {
        let here = self.expr(bool_whole(), condition)?;
        let below = self.block(frame, body)?;
        Ok(sooner(here, below))
    }

    /// The other way of an `if`, before which the flow was this. Then both ways meet.
    #[cycle(stmts)]
    fn otherwise(
        &mut self,
        best: Option<Fault>,
        frame: Frame,
        otherwise: &'a Option<ElseNode>,
        before: &Flow,
    ) -> Found
        ensures { (later : List Name) (g : Sight) → IsCounted self.old.later later → self.old.words ≡ false
            → IsFlowOf before.now g → bare self.old.vars ≡ bare g.vars
            → IfOk result (λ fault. Follows later self.old self.new best fault
            (λ p. spec.else_sites p.names (frame_at later frame p) g (tree.maybe_else_view otherwise.now))
            (λ p. flow.join p.sight (flow.after_else p.names g (tree.maybe_else_view otherwise.now)))) }
    {
        let behind = self.flow()?;
        self.restore(before);
        let len = self.vars.len();
        let own = self.other(frame, otherwise)?;
        self.back_to(len);
        self.join(&behind);
        Ok(sooner(best, own))
    }

    /// What stands behind an `else`. A further `if` is alone there.
    #[cycle(stmts)]
    fn other(&mut self, frame: Frame, otherwise: &'a Option<ElseNode>) -> Found
        ensures { (later : List Name) → IsCounted self.old.later later → self.old.words ≡ false
            → IfOk result (λ fault. Walks later self.old self.new fault
            (λ p. spec.else_sites p.names (frame_at later frame p) p.sight (tree.maybe_else_view otherwise.now))
            (λ p. flow.after_else p.names p.sight (tree.maybe_else_view otherwise.now))) }
    {
        match otherwise {
            Some(way) => match way {
                ElseNode::Block(block) => self.block(frame, block),
                ElseNode::If(stmt) => self.stmt(frame, true, stmt.get()),
            },
            None => Ok(None),
        }
    }

    /// The arms on a term of this type, of which each path takes one.
    #[cycle(stmts)]
    fn block_arms(
        &mut self,
        best: Option<Fault>,
        frame: Frame,
        arms: &'a [BlockArm],
        kind: Kind,
    ) -> Found
        ensures { (later : List Name) → IsCounted self.old.later later → self.old.words ≡ false
            → IfOk result (λ fault. Follows later self.old self.new best fault
            (λ p. spec.arm_sites p.names (frame_at later frame p) p.sight kind [] (tree.block_arms_view arms.now))
            (λ p. flow.after_arms p.names p.sight kind (tree.block_arms_view arms.now))) }
    {
        let cases = cases_of(self.names, kind);
        let before = self.flow()?;
        self.end();
        let own = self.each_block_arm(frame, arms, cases, &before)?;
        Ok(sooner(best, own))
    }

    /// The arms, behind none of them yet, and before each the flow is this.
    #[cycle(stmts)]
    fn each_block_arm(
        &mut self,
        frame: Frame,
        arms: &'a [BlockArm],
        cases: Option<Cases<'n, 'a>>,
        before: &Flow,
    ) -> Found
        ensures { (later : List Name) (kind : TheKind) (g : Sight) → IsCounted self.old.later later → self.old.words ≡ false
            → option_map (cases_view (names_at self.old)) cases.entry ≡ spec_cases_of (names_at self.old) kind
            → IsFlowOf before.now g → sight_of self.old ≡ flow.dead g
            → IfOk result (λ fault. Walks later self.old self.new fault
            (λ p. spec.arm_sites p.names (frame_at later frame p) g kind [] (tree.block_arms_view arms.now))
            (λ p. flow.after_arms p.names g kind (tree.block_arms_view arms.now))) }
    {
        let mut best = None;
        let mut done = NameTable::new(self.alloc);
        for arm in arms {
            best = sooner(best, self.next_arm(frame, arm, cases, &done, before)?);
            add_arm(&mut done, &arm.pattern)?;
        }
        Ok(best)
    }

    /// An arm, before which the flow was this. Then its way meets those of the arms before.
    #[cycle(stmts)]
    fn next_arm(
        &mut self,
        frame: Frame,
        arm: &'a BlockArm,
        cases: Option<Cases<'n, 'a>>,
        done: &NameTable,
        before: &Flow,
    ) -> Found
        ensures { (later : List Name) (kind : TheKind) (names : List Name) (g : Sight) → IsCounted self.old.later later
            → self.old.words ≡ false
            → option_map (cases_view (names_at self.old)) cases.entry ≡ spec_cases_of (names_at self.old) kind
            → IsTableOf done.now names → IsFlowOf before.now g → bare self.old.vars ≡ bare g.vars
            → IfOk result (λ fault. Walks later self.old self.new fault
            (λ p. arm_own_sites p.names (frame_at later frame p) g kind names (tree.block_arm_view arm.now))
            (λ p. flow.join p.sight (flow.after_arm p.names g kind (tree.block_arm_view arm.now)))) }
    {
        let behind = self.flow()?;
        self.restore(before);
        let fault = self.block_arm(frame, arm, cases, done)?;
        self.join(&behind);
        Ok(fault)
    }

    #[cycle(stmts)]
    fn block_arm(
        &mut self,
        frame: Frame,
        arm: &'a BlockArm,
        cases: Option<Cases<'n, 'a>>,
        done: &NameTable,
    ) -> Found
        ensures { (later : List Name) (kind : TheKind) (names : List Name) → IsCounted self.old.later later
            → self.old.words ≡ false
            → option_map (cases_view (names_at self.old)) cases.entry ≡ spec_cases_of (names_at self.old) kind
            → IsTableOf done.now names
            → IfOk result (λ fault. Walks later self.old self.new fault
            (λ p. arm_own_sites p.names (frame_at later frame p) p.sight kind names (tree.block_arm_view arm.now))
            (λ p. flow.after_arm p.names p.sight kind (tree.block_arm_view arm.now))) }
    {
        let len = self.vars.len();
        let here = self.pattern(cases, done, &arm.pattern)?;
        let below = self.block(frame, &arm.body)?;
        self.back_to(len);
        Ok(sooner(here, below))
    }

    /// Statements in braces. Behind them their variables are out of sight.
    #[cycle(stmts)]
    pub(crate) fn block(&mut self, frame: Frame, block: &'a Block) -> Found
        ensures { (later : List Name) → IsCounted self.old.later later → self.old.words ≡ false
            → IfOk result (λ fault. Walks later self.old self.new fault
            (λ p. spec.block_sites p.names (frame_at later frame p) p.sight (tree.block_view block.now))
            (λ p. flow.after_block p.names p.sight (tree.block_view block.now))) }
    {
        let len = self.vars.len();
        let fault = self.stmts(frame, block.stmts.as_slice())?;
        self.back_to(len);
        Ok(fault)
    }

    #[cycle(stmts)]
    fn stmts(&mut self, frame: Frame, stmts: &'a [StmtNode]) -> Found
        ensures { (later : List Name) → IsCounted self.old.later later → self.old.words ≡ false
            → IfOk result (λ fault. Walks later self.old self.new fault
            (λ p. spec.stmts_sites p.names (frame_at later frame p) p.sight (tree.stmts_view stmts.now))
            (λ p. flow.after_stmts p.names p.sight (tree.stmts_view stmts.now))) }
    {
        self.raise_all(stmts)?;
        let mut best = None;
        for (place, stmt) in stmts.iter().enumerate() {
            self.pass(stmt);
            best = sooner(best, self.stmt(frame, place + 1 == stmts.len(), stmt)?);
        }
        Ok(best)
    }
}
