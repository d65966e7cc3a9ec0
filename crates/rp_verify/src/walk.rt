ghost use Rattle.std.specs.Prelude.{◌≡◌, ◌+◌, ◌<◌, ◌^◌, ◌++◌, [], ◌∷◌, OnOk, IfOk};
ghost use Rattle.event_machine.specs.Checks.{Done, stmt_checks, stmts_checks};
ghost use Rattle.rp_lang.specs.Views.{formula_view, stmt_view, stmts_view};
ghost use Rattle.rp_verify.specs.means.Counted.{assertions};
ghost use Rattle.rp_verify.specs.means.Followed.{followed};
ghost use Rattle.rp_verify.specs.means.Found.{found_at};
ghost use Rattle.rp_verify.specs.means.Left.{left_checks};

use crate::left::Left;
use crate::rows::{Row, divided, holds_at_all};
use crate::verdict::Unproved;
use rp_lang::{Formula, GoalKind, GoalName, Stmt, StmtKind};
use rp_span::Span;
use rp_value::{List, Memory, copy_list};
use std::alloc::Global;

/// A walk through the checks of procedures, and the goals that it found false.
#[derive(Drop)]
pub struct Walk {
    /// The procedure, and the choices on the way to where the walk stands.
    pub proc: u32,
    pub path: List<u32>,
    /// The number of the next goal.
    pub next: u32,
    pub list: List<Unproved>,
}

impl Walk {
    /// Tries the assertion at the rows that come to it.
    fn claim(
        &mut self,
        alloc: Global,
        at: Span,
        formula: &Formula,
        rows: &[Row],
    ) -> Result<(), Memory>
        requires room { self.old.next + 1 < 2 ^ 32 }
        ensures { OnOk result (self.new ≡ record self.old {
          next = self.old.next + 1;
          list = self.old.list ++ found_at self.old.proc self.old.path self.old.next rows.now at (formula_view formula.now);
        }) }
    {
        if !holds_at_all(formula, rows) {
            let path = copy_list(alloc, self.path.as_slice())?;
            let name = GoalName {
                kind: GoalKind::Assert,
                proc: Some(self.proc),
                path,
                at,
                inv: None,
            };
            self.list.push(Unproved {
                goal: self.next,
                name,
            })?;
        }
        self.next += 1;
        Ok(())
    }

    /// Follows the statements and what is left behind them, where these rows come.
    #[cycle(walk)]
    fn follow(
        &mut self,
        alloc: Global,
        stmts: &[Stmt],
        left: &Left,
        rows: &[Row],
    ) -> Result<(), Memory>
        requires room { self.old.next + assertions (stmts_checks (stmts_view stmts.now) (left_checks left.now)) < 2 ^ 32 }
        ensures { OnOk result (self.new ≡ followed self.old rows.now (stmts_checks (stmts_view stmts.now) (left_checks left.now))) }
    {
        match stmts.split_first() {
            Some((first, others)) => self.follow_stmt(alloc, first, others, left, rows),
            None => match left {
                Left::Nothing => Ok(()),
                Left::Then(more, behind) => self.follow(alloc, more, behind, rows),
            },
        }
    }

    /// Follows a procedure's body.
    pub fn follow_body(
        &mut self,
        alloc: Global,
        body: &List<Stmt>,
        rows: &[Row],
    ) -> Result<(), Memory>
        requires room { self.old.next + assertions (stmts_checks (stmts_view body.now) Done) < 2 ^ 32 }
        ensures { OnOk result (self.new ≡ followed self.old rows.now (stmts_checks (stmts_view body.now) Done)) }
    {
        self.follow(alloc, body.as_slice(), &Left::Nothing, rows)
    }

    #[cycle(walk)]
    fn follow_stmt(
        &mut self,
        alloc: Global,
        stmt: &Stmt,
        others: &[Stmt],
        left: &Left,
        rows: &[Row],
    ) -> Result<(), Memory>
        requires room { self.old.next + assertions (stmt_checks (stmt_view stmt.now) (stmts_checks (stmts_view others.now) (left_checks left.now))) < 2 ^ 32 }
        ensures { OnOk result (self.new ≡ followed self.old rows.now (stmt_checks (stmt_view stmt.now) (stmts_checks (stmts_view others.now) (left_checks left.now)))) }
    {
        match &stmt.what {
            StmtKind::Assert(formula) => {
                self.claim(alloc, stmt.at, formula, rows)?;
                self.follow(alloc, others, left, rows)
            }
            StmtKind::If(formula, first, second) => {
                let split = divided(alloc, formula, rows)?;
                let behind = Left::Then(others, &*left);
                self.follow_branch(alloc, 1, first, &behind, split.holding.as_slice())?;
                self.follow_branch(alloc, 2, second, &behind, split.failing.as_slice())
            }
            _ => self.follow(alloc, others, left, rows),
        }
    }

    /// Follows a branch behind its choice.
    #[cycle(walk)]
    fn follow_branch(
        &mut self,
        alloc: Global,
        choice: u32,
        branch: &List<Stmt>,
        left: &Left,
        rows: &[Row],
    ) -> Result<(), Memory>
        requires room { self.old.next + assertions (stmts_checks (stmts_view branch.now) (left_checks left.now)) < 2 ^ 32 }
        ensures { let behind = record self.old { path = self.old.path ++ choice ∷ [] } in
            OnOk result (self.new ≡ record (followed behind rows.now (stmts_checks (stmts_view branch.now) (left_checks left.now))) { path = self.old.path }) }
    {
        self.path.push(choice)?;
        self.follow(alloc, branch.as_slice(), left, rows)?;
        self.path.pop();
        Ok(())
    }
}
