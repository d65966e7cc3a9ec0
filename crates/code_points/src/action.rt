// What an invocation does next.
ghost use Rattle.std.specs.Prelude.{◌≡◌};
ghost use Rattle.rp_lang.specs.Views.{stmt_view};
ghost use Rattle.code_points.specs.Actions.{st_action};
ghost use Rattle.code_points.specs.ActionView.{action_view};

use rp_lang::{Action, Stmt, StmtKind};

/// What the statement does next.
#[tactic(auto, using(rp_lang::proofs::StmtViews::stmt_views))]
pub(crate) fn action_of(stmt: &Stmt) -> Action
    ensures { action_view result ≡ st_action (stmt_view stmt.now) }
{
    match &stmt.what {
        StmtKind::Put(_, _) => Action::Local,
        StmtKind::Decide(_, _) => Action::Local,
        StmtKind::New(_, _) => Action::New,
        StmtKind::Operate(_, _) => Action::Op,
        StmtKind::If(_, _, _) => Action::Local,
        StmtKind::Match(_, _) => Action::Local,
        StmtKind::Atomic(_) => Action::Begin,
        StmtKind::Assert(_) => Action::Local,
        StmtKind::Return(None) => Action::Return,
        StmtKind::Return(Some(_)) => Action::Return,
    }
}
