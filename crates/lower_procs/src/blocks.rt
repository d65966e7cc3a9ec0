//! What statements with blocks become, and blocks.

ghost use Rattle.std.specs.Prelude.{◌≡◌, ◌++◌, IfOk, IsErrOf, OnOk, Some, length};
ghost use Rattle.rp_grammar.specs.Trees.{StmtForm as FormTree, StmtTree};
ghost use Rattle.rp_ast.specs.View as tree;
ghost use Rattle.rp_lang.specs.Views.{stmt_arm_view, stmt_arms_view, stmts_view};
ghost use Rattle.type_rules.specs.Kinds.{bool_kind};
ghost use Rattle.lower_exprs.specs.declared.stop.Stop.TheVariants as stop;
ghost use Rattle.lower_procs.specs.Writing.{ArePast, ArmIsPast, ArmsArePast, AsksCondition, AsksTerm, ConditionIsPast, TermIsPast, Writes, WritesArm, WritesArms, WritesBlock, arms_in, behind, block_in, else_in, stmt_in};

use crate::pieces::{formula_in, is_apart, put_atomic, put_if, put_match};
use crate::stmts::claimed;
use crate::writer::{Frame, Writer};
use lower_exprs::{Stop, as_formula, as_term};
use rp_ast::{Block, BlockArm, ElseNode, ExprNode, StmtForm, StmtNode};
use rp_lang::{Expr, Formula, Stmt, StmtArm};
use rp_span::Span;
use rp_value::{Boxed, List};
use type_rules::Kind;
use type_tables::BOOL_KIND;
use type_terms::type_of;

impl<'t, 'n, 'a> Writer<'t, 'n, 'a> {
    /// A condition, which goes through a hidden slot where it stands apart.
    fn condition(
        &mut self,
        frame: Frame,
        at: Span,
        e: &'a ExprNode,
        out: &mut List<Stmt>,
    ) -> Result<Boxed<Formula>, Stop>
        ensures asks { IfOk result (λ test. AsksCondition self.old frame at (tree.expr_view e.now)
            (stmts_view out.old) self.new (stmts_view out.new) test) }
        ensures nodes { IsErrOf result stop.Nodes → ConditionIsPast self.old frame at (tree.expr_view e.now) }
    {
        let made = self.maker.value(Some(BOOL_KIND), e)?;
        if is_apart(frame, &made) {
            let slot = self.hide(true, at, BOOL_KIND, made.value, out)?;
            let test = Formula::Holds(Expr::Slot(slot));
            return Ok(Boxed::new(self.maker.work.alloc, test)?);
        }
        match formula_in(made.value) {
            Some(test) => Ok(test),
            None => {
                let made = claimed(&mut self.maker, e)?;
                let test = as_formula(made.value);
                Ok(Boxed::new(self.maker.work.alloc, test)?)
            }
        }
    }

    /// A term of this type that is matched on, which goes through a hidden slot where it stands apart.
    fn matched_on(
        &mut self,
        frame: Frame,
        at: Span,
        kind: Kind,
        e: &'a ExprNode,
        out: &mut List<Stmt>,
    ) -> Result<Boxed<Expr>, Stop>
        ensures asks { IfOk result (λ on. AsksTerm self.old frame at kind (tree.expr_view e.now)
            (stmts_view out.old) self.new (stmts_view out.new) on) }
        ensures nodes { IsErrOf result stop.Nodes → TermIsPast self.old frame at (tree.expr_view e.now) }
    {
        let made = self.maker.value(None, e)?;
        if is_apart(frame, &made) {
            let slot = self.hide(true, at, kind, made.value, out)?;
            return Ok(Boxed::new(self.maker.work.alloc, Expr::Slot(slot))?);
        }
        let on = as_term(made.value)?;
        Ok(Boxed::new(self.maker.work.alloc, on)?)
    }

    /// Adds what a statement becomes.
    #[cycle(writing)]
    fn stmt(&mut self, frame: Frame, stmt: &'a StmtNode, out: &mut List<Stmt>) -> Result<(), Stop>
        ensures writes { OnOk result (Writes self.old (stmt_in self.old frame (tree.stmt_view stmt.now))
            (behind (length self.old.slots) self.old.maker.reader (tree.stmt_view stmt.now))
            (stmts_view out.old) self.new (stmts_view out.new)) }
        ensures nodes { IsErrOf result stop.Nodes → ArePast self.old (stmt_in self.old frame (tree.stmt_view stmt.now)) }
    {
        let at = stmt.span;
        match &stmt.what {
            StmtForm::Var(name, ty, value) => self.var(frame, at, name, ty, value, out),
            StmtForm::New(name, id) => Ok(self.generate(at, name, id, out)?),
            StmtForm::Assign(name, value) => self.assign(frame, at, name, value, out),
            StmtForm::Access(access) => self.operate(frame, at, access, out),
            StmtForm::If(_, _, _) => self.branch(frame, stmt, out),
            StmtForm::Match(_, _) => self.choose(frame, stmt, out),
            StmtForm::Atomic(body) => self.atomic(frame, at, body, out),
            StmtForm::Assert(condition) => self.assert(frame, at, condition, out),
            StmtForm::Return(value) => self.leave(frame, at, value, out),
        }
    }

    /// An atomic block.
    #[cycle(writing)]
    fn atomic(
        &mut self,
        frame: Frame,
        at: Span,
        body: &'a Block,
        out: &mut List<Stmt>,
    ) -> Result<(), Stop>
        ensures writes { OnOk result (Writes self.old
            (stmt_in self.old frame (StmtTree.node at (FormTree.atomic (tree.block_view body.now))))
            self.old.maker.reader (stmts_view out.old) self.new (stmts_view out.new)) }
        ensures nodes { IsErrOf result stop.Nodes → ArePast self.old
            (stmt_in self.old frame (StmtTree.node at (FormTree.atomic (tree.block_view body.now)))) }
    {
        let inside = Frame {
            result: frame.result,
            inside_atomic: true,
        };
        let stmts = self.block(inside, body)?;
        put_atomic(at, stmts, out)?;
        Ok(())
    }

    /// An `if`.
    #[cycle(writing)]
    fn branch(&mut self, frame: Frame, stmt: &'a StmtNode, out: &mut List<Stmt>) -> Result<(), Stop>
        ensures writes { OnOk result (Writes self.old (stmt_in self.old frame (tree.stmt_view stmt.now))
            self.old.maker.reader (stmts_view out.old) self.new (stmts_view out.new)) }
        ensures nodes { IsErrOf result stop.Nodes → ArePast self.old (stmt_in self.old frame (tree.stmt_view stmt.now)) }
    {
        match &stmt.what {
            StmtForm::If(condition, body, other) => {
                let test = self.condition(frame, stmt.span, condition, out)?;
                let left = self.block(frame, body)?;
                let right = self.other(frame, other)?;
                put_if(stmt.span, test, left, right, out)?;
                Ok(())
            }
            _ => Err(Stop::Memory),
        }
    }

    /// What stands behind an `else`.
    #[cycle(writing)]
    fn other(&mut self, frame: Frame, other: &'a Option<ElseNode>) -> Result<List<Stmt>, Stop>
        ensures writes { IfOk result (λ stmts. WritesBlock self.old (else_in self.old frame (tree.maybe_else_view other.now))
            self.new (stmts_view stmts)) }
        ensures nodes { IsErrOf result stop.Nodes → ArePast self.old (else_in self.old frame (tree.maybe_else_view other.now)) }
    {
        match other {
            Some(node) => match node {
                ElseNode::Block(block) => self.block(frame, block),
                ElseNode::If(stmt) => {
                    let mut stmts = List::new(self.maker.work.alloc);
                    self.branch(frame, stmt.get(), &mut stmts)?;
                    Ok(stmts)
                }
            },
            None => Ok(List::new(self.maker.work.alloc)),
        }
    }

    /// A `match`.
    #[cycle(writing)]
    fn choose(&mut self, frame: Frame, stmt: &'a StmtNode, out: &mut List<Stmt>) -> Result<(), Stop>
        ensures writes { OnOk result (Writes self.old (stmt_in self.old frame (tree.stmt_view stmt.now))
            self.old.maker.reader (stmts_view out.old) self.new (stmts_view out.new)) }
        ensures nodes { IsErrOf result stop.Nodes → ArePast self.old (stmt_in self.old frame (tree.stmt_view stmt.now)) }
    {
        match &stmt.what {
            StmtForm::Match(term, arms) => {
                let kind = type_of(
                    self.maker.reader.names(),
                    &self.maker.reader.vars,
                    None,
                    term,
                )?;
                let on = self.matched_on(frame, stmt.span, kind, term, out)?;
                let made = self.arms(frame, kind, arms.as_slice())?;
                put_match(stmt.span, on, made, out)?;
                Ok(())
            }
            _ => Err(Stop::Memory),
        }
    }

    /// The arms of a `match` on a term of this type.
    #[cycle(writing)]
    fn arms(
        &mut self,
        frame: Frame,
        kind: Kind,
        arms: &'a [BlockArm],
    ) -> Result<List<StmtArm>, Stop>
        ensures writes { IfOk result (λ made. WritesArms self.old (arms_in self.old frame kind (tree.block_arms_view arms.now))
            self.new (stmt_arms_view made)) }
        ensures nodes { IsErrOf result stop.Nodes → ArmsArePast self.old
            (arms_in self.old frame kind (tree.block_arms_view arms.now)) }
    {
        let mut made = List::new(self.maker.work.alloc);
        for arm in arms {
            let next = self.arm(frame, kind, arm)?;
            made.push(next)?;
        }
        Ok(made)
    }

    /// An arm. Its variables go out of sight behind it.
    #[cycle(writing)]
    fn arm(&mut self, frame: Frame, kind: Kind, arm: &'a BlockArm) -> Result<StmtArm, Stop>
        ensures writes { IfOk result (λ made. WritesArm self.old frame kind (tree.block_arm_view arm.now) self.new (stmt_arm_view made)) }
        ensures nodes { IsErrOf result stop.Nodes → ArmIsPast self.old frame kind (tree.block_arm_view arm.now) }
    {
        let len = self.maker.reader.vars.len();
        let con = self
            .maker
            .reader
            .tables
            .con_number(kind, arm.pattern.con.text.as_slice())?;
        let slots = self.declare_all(kind, &arm.pattern)?;
        let body = self.block(frame, &arm.body)?;
        self.maker.reader.unbind(len, 0);
        Ok(StmtArm { con, slots, body })
    }

    /// What a block's statements become. Its variables go out of sight behind it.
    #[cycle(writing)]
    pub(crate) fn block(&mut self, frame: Frame, block: &'a Block) -> Result<List<Stmt>, Stop>
        ensures writes { IfOk result (λ stmts. WritesBlock self.old (block_in self.old frame (tree.block_view block.now))
            self.new (stmts_view stmts)) }
        ensures nodes { IsErrOf result stop.Nodes → ArePast self.old (block_in self.old frame (tree.block_view block.now)) }
    {
        let len = self.maker.reader.vars.len();
        let mut stmts = List::new(self.maker.work.alloc);
        for stmt in block.stmts.as_slice() {
            self.stmt(frame, stmt, &mut stmts)?;
        }
        self.maker.reader.unbind(len, 0);
        Ok(stmts)
    }
}
