ghost use Rattle.std.specs.Prelude.{◌≡◌, min};
ghost use Rattle.rp_lang.specs.Sizes.{st_count, sts_count, st_arms_count};
ghost use Rattle.rp_lang.specs.Views.{stmt_view, stmts_view, stmt_arms_view};

use crate::expr::Expr;
use crate::formula::Formula;
use rp_span::Span;
use rp_value::List;

/// A statement of a procedure, with the place where it stands.
#[cycle(stmt)]
#[derive(Drop)]
pub struct Stmt {
    pub at: Span,
    pub what: StmtKind,
}

#[cycle(stmt)]
#[derive(Drop)]
pub enum StmtKind {
    /// Puts the value of the expression into the slot.
    Put(u32, Expr),
    /// Puts the truth of the formula into the slot.
    Decide(u32, Formula),
    /// Puts a new id of the type into the slot.
    New(u32, u32),
    Operate(u32, List<Expr>),
    If(Formula, List<Stmt>, List<Stmt>),
    Match(Expr, List<StmtArm>),
    Atomic(List<Stmt>),
    Assert(Formula),
    Return(Option<Expr>),
}

/// An arm of a `StmtKind::Match`. The fields of its constructor go into its slots.
#[cycle(stmt)]
#[derive(Drop)]
pub struct StmtArm {
    pub con: u32,
    pub slots: List<u32>,
    pub body: List<Stmt>,
}

impl Stmt {
    /// The number of statements in it, itself among them, or the greatest number where there are more.
    #[cycle(stmt_count)]
    #[tactic(auto, using(crate::proofs::StmtViews::stmt_views))]
    pub fn count(&self) -> u64
        ensures { result ≡ min (st_count (stmt_view self.now)) 18446744073709551615 }
    {
        match &self.what {
            StmtKind::If(_, then_, else_) => count_all(then_.as_slice())
                .saturating_add(count_all(else_.as_slice()))
                .saturating_add(1),
            StmtKind::Match(_, arms) => count_arms(arms.as_slice()).saturating_add(1),
            StmtKind::Atomic(body) => count_all(body.as_slice()).saturating_add(1),
            StmtKind::Put(_, _)
            | StmtKind::Decide(_, _)
            | StmtKind::New(_, _)
            | StmtKind::Operate(_, _)
            | StmtKind::Assert(_)
            | StmtKind::Return(_) => 1,
        }
    }
}

/// The number of statements in all of these, or the greatest number where there are more.
#[cycle(stmt_count)]
#[tactic(auto, using(crate::proofs::StmtViews::stmt_views))]
pub fn count_all(stmts: &[Stmt]) -> u64
    ensures { result ≡ min (sts_count (stmts_view stmts.now)) 18446744073709551615 }
{
    let mut count: u64 = 0;
    for stmt in stmts {
        count = count.saturating_add(stmt.count());
    }
    count
}

#[cycle(stmt_count)]
#[tactic(auto, using(crate::proofs::StmtViews::stmt_views))]
fn count_arms(arms: &[StmtArm]) -> u64
    ensures { result ≡ min (st_arms_count (stmt_arms_view arms.now)) 18446744073709551615 }
{
    let mut count: u64 = 0;
    for arm in arms {
        count = count.saturating_add(count_all(arm.body.as_slice()));
    }
    count
}
