// How many paths and goals statements have.
ghost use Rattle.event_machine.specs.Checks.{Checks, Done, stmt_checks, stmts_checks};
ghost use Rattle.rp_lang.specs.Views.{stmt_view, stmts_view};
ghost use Rattle.rp_verify.specs.means.Counted.{AreCounts};

use crate::counts::Counts;
use rp_lang::{Stmt, StmtKind};

/// The counts of the statement where what follows has these.
#[cycle(counts)]
fn stmt_counts(stmt: &Stmt, behind: Counts) -> Counts
    ensures { (next : Checks) → AreCounts next behind → AreCounts (stmt_checks (stmt_view stmt.now) next) result }
{
    match &stmt.what {
        StmtKind::Assert(_) => behind.with_goal(),
        StmtKind::If(_, first, second) => {
            stmts_counts(first.as_slice(), behind).and(stmts_counts(second.as_slice(), behind))
        }
        _ => behind,
    }
}

#[cycle(counts)]
fn stmts_counts(stmts: &[Stmt], behind: Counts) -> Counts
    ensures { (next : Checks) → AreCounts next behind → AreCounts (stmts_checks (stmts_view stmts.now) next) result }
{
    let mut counts = behind;
    let mut i = stmts.len();
    while i > 0 {
        i -= 1;
        counts = stmt_counts(&stmts[i], counts);
    }
    counts
}

/// The counts of a procedure's body.
pub fn body_counts(body: &[Stmt]) -> Counts
    ensures { AreCounts (stmts_checks (stmts_view body.now) Done) result }
{
    stmts_counts(body, Counts::at_end())
}
