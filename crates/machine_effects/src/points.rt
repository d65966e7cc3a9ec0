// What an invocation has left, one kind of action at a time, and the point from which it goes on.
ghost use Rattle.std.specs.Prelude.{◌≡◌, ◌<◌, ◌+◌, ℕ, length, slice_get, option_map, option_copied};
ghost use Rattle.rp_lang.specs.ProgramView.{program_view};
ghost use Rattle.rp_lang.specs.Views.{expr_view, exprs_view, stmt_view};
ghost use Rattle.event_machine.specs.Code.{Code};
ghost use Rattle.event_machine.specs.States.{Invocation};
ghost use Rattle.event_machine.specs.WellFormed.{At};
ghost use Rattle.code_points.specs.Points.{does_at};
ghost use Rattle.machine_state.specs.Fits.{Fits};
ghost use Rattle.machine_state.specs.StateView.{state_view, left_of};
ghost use Rattle.machine_effects.specs.means.Lefts as lefts;

use code_points::Spot;
use machine_state::State;
use rp_lang::{Expr, Program, Stmt, StmtKind};

/// The point behind the beginning of an atomic block, if the statement at this point is one.
#[tactic(auto, using(rp_lang::proofs::StmtViews::stmt_views))]
fn begin_point(at: u64, stmt: &Stmt) -> Option<u64>
    requires { at + 1 < 18446744073709551616 }
    ensures { (left : ℕ → Code) → option_map left result ≡ lefts.begun (does_at left at (stmt_view stmt.now)) }
{
    match &stmt.what {
        StmtKind::Atomic(_) => Some(at + 1),
        StmtKind::Put(_, _) => None,
        StmtKind::Decide(_, _) => None,
        StmtKind::New(_, _) => None,
        StmtKind::Operate(_, _) => None,
        StmtKind::If(_, _, _) => None,
        StmtKind::Match(_, _) => None,
        StmtKind::Assert(_) => None,
        StmtKind::Return(None) => None,
        StmtKind::Return(Some(_)) => None,
    }
}

/// The point behind the beginning of an atomic block, if that is next.
pub(crate) fn behind_begin(s: &State, p: &Program, i: u32) -> Option<u64>
    requires fits { Fits p.now s.now }
    requires within { i < length s.now.infos }
    ensures { (inv : Invocation) → At (state_view (program_view p.now) s.now).invocations i inv
        → option_map (left_of (slice_get (program_view p.now).procs inv.proc)) result ≡ lefts.begun inv.left }
{
    match s.spot(p, i) {
        Some(Spot::Before(at, stmt)) => begin_point(at, stmt),
        Some(Spot::Closing(_, _)) => None,
        None => None,
    }
}

/// The point behind the end of an atomic block, if that is next.
pub(crate) fn behind_end(s: &State, p: &Program, i: u32) -> Option<u64>
    requires fits { Fits p.now s.now }
    requires within { i < length s.now.infos }
    ensures { (inv : Invocation) → At (state_view (program_view p.now) s.now).invocations i inv
        → option_map (left_of (slice_get (program_view p.now).procs inv.proc)) result ≡ lefts.ended inv.left }
{
    match s.spot(p, i) {
        Some(Spot::Before(_at, _stmt)) => None,
        Some(Spot::Closing(at, _)) => Some(at + 1),
        None => None,
    }
}

/// The slot of a new identifier and the point behind, if the statement at this point makes one.
#[tactic(auto, using(rp_lang::proofs::StmtViews::stmt_views))]
fn new_point(at: u64, stmt: &Stmt) -> Option<(u32, u64)>
    requires { at + 1 < 18446744073709551616 }
    ensures { (left : ℕ → Code) → option_map (λ found. (found.0, left found.1)) result
        ≡ lefts.new (does_at left at (stmt_view stmt.now)) }
{
    match &stmt.what {
        StmtKind::New(slot, _) => Some((*slot, at + 1)),
        StmtKind::Put(_, _) => None,
        StmtKind::Decide(_, _) => None,
        StmtKind::Operate(_, _) => None,
        StmtKind::If(_, _, _) => None,
        StmtKind::Match(_, _) => None,
        StmtKind::Atomic(_) => None,
        StmtKind::Assert(_) => None,
        StmtKind::Return(None) => None,
        StmtKind::Return(Some(_)) => None,
    }
}

/// The slot of a new identifier and the point behind, if that is next.
pub(crate) fn behind_new(s: &State, p: &Program, i: u32) -> Option<(u32, u64)>
    requires fits { Fits p.now s.now }
    requires within { i < length s.now.infos }
    ensures { (inv : Invocation) → At (state_view (program_view p.now) s.now).invocations i inv
        → option_map (λ found. (found.0, left_of (slice_get (program_view p.now).procs inv.proc) found.1)) result
        ≡ lefts.new inv.left }
{
    match s.spot(p, i) {
        Some(Spot::Before(at, stmt)) => new_point(at, stmt),
        Some(Spot::Closing(_, _)) => None,
        None => None,
    }
}

/// The operation of the statement at this point, its arguments and the point behind.
#[tactic(auto, using(rp_lang::proofs::StmtViews::stmt_views))]
fn operation_point<'a>(at: u64, stmt: &'a Stmt) -> Option<(u32, &'a [Expr], u64)>
    requires { at + 1 < 18446744073709551616 }
    ensures { (left : ℕ → Code) → option_map (λ found. (found.0, exprs_view found.1.now, left found.2)) result
        ≡ lefts.operation (does_at left at (stmt_view stmt.now)) }
{
    match &stmt.what {
        StmtKind::Operate(op, args) => Some((*op, args.as_slice(), at + 1)),
        StmtKind::Put(_, _) => None,
        StmtKind::Decide(_, _) => None,
        StmtKind::New(_, _) => None,
        StmtKind::If(_, _, _) => None,
        StmtKind::Match(_, _) => None,
        StmtKind::Atomic(_) => None,
        StmtKind::Assert(_) => None,
        StmtKind::Return(None) => None,
        StmtKind::Return(Some(_)) => None,
    }
}

/// The operation that is next, its arguments and the point behind.
pub fn behind_operation<'p>(s: &State<'p>, p: &Program, i: u32) -> Option<(u32, &'p [Expr], u64)>
    requires fits { Fits p.now s.now }
    requires within { i < length s.now.infos }
    ensures { (inv : Invocation) → At (state_view (program_view p.now) s.now).invocations i inv
        → option_map (λ found. (found.0, exprs_view found.1.now, left_of (slice_get (program_view p.now).procs inv.proc) found.2))
        result ≡ lefts.operation inv.left }
{
    match s.spot(p, i) {
        Some(Spot::Before(at, stmt)) => operation_point(at, stmt),
        Some(Spot::Closing(_, _)) => None,
        None => None,
    }
}

/// The expression whose value the statement at this point returns.
#[tactic(auto, using(rp_lang::proofs::StmtViews::stmt_views))]
fn returned_by<'a>(_at: u64, stmt: &'a Stmt) -> Option<&'a Expr>
    ensures { (left : ℕ → Code) → option_map expr_view (option_copied result)
        ≡ lefts.result (does_at left _at (stmt_view stmt.now)) }
{
    match &stmt.what {
        StmtKind::Return(Some(e)) => Some(e),
        StmtKind::Return(None) => None,
        StmtKind::Put(_, _) => None,
        StmtKind::Decide(_, _) => None,
        StmtKind::New(_, _) => None,
        StmtKind::Operate(_, _) => None,
        StmtKind::If(_, _, _) => None,
        StmtKind::Match(_, _) => None,
        StmtKind::Atomic(_) => None,
        StmtKind::Assert(_) => None,
    }
}

/// The expression whose value is returned, if that is next.
pub fn returned<'p>(s: &State<'p>, p: &Program, i: u32) -> Option<&'p Expr>
    requires fits { Fits p.now s.now }
    requires within { i < length s.now.infos }
    ensures { (inv : Invocation) → At (state_view (program_view p.now) s.now).invocations i inv
        → option_map expr_view (option_copied result) ≡ lefts.result inv.left }
{
    match s.spot(p, i) {
        Some(Spot::Before(at, stmt)) => returned_by(at, stmt),
        Some(Spot::Closing(_, _)) => None,
        None => None,
    }
}
