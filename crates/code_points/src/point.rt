// The points of a procedure, and what comes next at each of them.
ghost use Rattle.std.specs.Prelude.{◌≡◌, min};
ghost use Rattle.rp_lang.specs.declared.stmt.StmtKind.TheViews.{out-StmtArm};
ghost use Rattle.rp_lang.specs.Views.{stmt_view, stmts_view, stmt_arms_view};
ghost use Rattle.code_points.specs.Points as spec;

use rp_lang::{Stmt, StmtArm, StmtKind};
use rp_span::Span;

/// What comes next, with the number of its point.
#[derive(Clone, Copy)]
pub enum Spot<'a> {
    /// A statement.
    Before(u64, &'a Stmt),
    /// The end of an atomic block.
    Closing(u64, Span),
}

/// The number of points inside the statement, or the greatest number where there are more.
#[cycle(size)]
#[tactic(auto, using(rp_lang::proofs::StmtViews::stmt_views))]
pub(crate) fn inner(stmt: &Stmt) -> u64
    ensures { result ≡ min (spec.inner (stmt_view stmt.now)) 18446744073709551615 }
{
    match &stmt.what {
        StmtKind::Put(_, _) => 0,
        StmtKind::Decide(_, _) => 0,
        StmtKind::New(_, _) => 0,
        StmtKind::Operate(_, _) => 0,
        StmtKind::If(_, then_, else_) => size(then_.as_slice())
            .saturating_add(1)
            .saturating_add(size(else_.as_slice()).saturating_add(1)),
        StmtKind::Match(_, arms) => arms_size(arms.as_slice()),
        StmtKind::Atomic(body) => size(body.as_slice()).saturating_add(1),
        StmtKind::Assert(_) => 0,
        StmtKind::Return(None) => 0,
        StmtKind::Return(Some(_)) => 0,
    }
}

#[cycle(size)]
#[tactic(auto, using(rp_lang::proofs::StmtViews::stmt_views))]
pub fn size(stmts: &[Stmt]) -> u64
    ensures { result ≡ min (spec.size (stmts_view stmts.now)) 18446744073709551615 }
{
    let mut points: u64 = 0;
    for stmt in stmts {
        points = points.saturating_add(inner(stmt)).saturating_add(1);
    }
    points
}

#[cycle(size)]
#[tactic(auto, using(rp_lang::proofs::StmtViews::stmt_views))]
fn arms_size(arms: &[StmtArm]) -> u64
    ensures { result ≡ min (spec.arms_size (stmt_arms_view arms.now)) 18446744073709551615 }
{
    let mut points: u64 = 0;
    for arm in arms {
        points = points
            .saturating_add(size(arm.body.as_slice()))
            .saturating_add(1);
    }
    points
}
