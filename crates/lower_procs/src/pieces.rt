//! Statements by their parts.
#![tactic(auto, using(rp_lang::proofs::StmtViews::stmt_views))]

ghost use Rattle.std.specs.Prelude.{◌≡◌, ◌&&◌, not, IfOk, OnOk, Some, option_map};
ghost use Rattle.rp_span.specs.declared.Span.{Span as SpecSpan};
ghost use Rattle.rp_lang.specs.Stmts as st;
ghost use Rattle.rp_lang.specs.Views.{expr_view, formula_view, kind_view, stmt_arms_view, stmt_view, stmts_view};
ghost use Rattle.desugaring.specs.Statements as spec;
ghost use Rattle.lower_exprs.specs.Making.{value_view};
ghost use Rattle.lower_procs.specs.Writing.{formula_of, is_term};

use crate::writer::Frame;
use lower_exprs::{Made, Value};
use rp_lang::{Expr, Formula, Stmt, StmtArm, StmtKind};
use rp_span::Span;
use rp_value::{Boxed, List, Memory};
use std::alloc::Global;

/// A slot gets a value.
pub(crate) fn assigned(slot: u32, value: Value) -> StmtKind
    ensures { (at : SpecSpan) → kind_view result at ≡ spec.assigned at slot (value_view value) }
{
    match value {
        Value::Term(e) => StmtKind::Put(slot, e),
        Value::Formula(f) => StmtKind::Decide(slot, f.into_inner()),
    }
}

/// Outside `atomic`, what reads the store stands apart.
pub(crate) fn is_apart(frame: Frame, made: &Made) -> bool
    ensures { result ≡ (not frame.inside_atomic && made.now.reads) }
{
    !frame.inside_atomic && made.reads
}

/// A plain term that reads nothing.
pub(crate) fn is_plain(made: &Made) -> bool
    ensures { result ≡ (is_term (value_view made.now.value) && not made.now.reads) }
{
    match &made.value {
        Value::Term(_) => !made.reads,
        Value::Formula(_) => false,
    }
}

/// A formula, if it is one.
pub(crate) fn formula_in(value: Value) -> Option<Boxed<Formula>>
    ensures { option_map formula_view result ≡ formula_of (value_view value) }
{
    match value {
        Value::Formula(f) => Some(f),
        Value::Term(_) => None,
    }
}

fn one(alloc: Global, stmt: Stmt) -> Result<List<Stmt>, Memory>
    ensures { IfOk result (λ stmts. stmts_view stmts ≡ spec.one_st (stmt_view stmt)) }
{
    let mut stmts = List::new(alloc);
    stmts.push(stmt)?;
    Ok(stmts)
}

/// Adds a statement, in an atomic block of its own where it stands apart.
pub(crate) fn put(
    alloc: Global,
    apart: bool,
    at: Span,
    what: StmtKind,
    out: &mut List<Stmt>,
) -> Result<(), Memory>
    ensures { OnOk result (stmts_view out.new ≡ spec.append (stmts_view out.old)
        (spec.one_st (spec.set_apart apart at (kind_view what at)))) }
{
    let stmt = Stmt { at, what };
    if apart {
        let what = StmtKind::Atomic(one(alloc, stmt)?);
        out.push(Stmt { at, what })
    } else {
        out.push(stmt)
    }
}

/// Adds an `if`.
pub(crate) fn put_if(
    at: Span,
    test: Boxed<Formula>,
    left: List<Stmt>,
    right: List<Stmt>,
    out: &mut List<Stmt>,
) -> Result<(), Memory>
    ensures { OnOk result (stmts_view out.new ≡ spec.append (stmts_view out.old)
        (spec.one_st (st.If at (formula_view test) (stmts_view left) (stmts_view right)))) }
{
    let what = StmtKind::If(test.into_inner(), left, right);
    out.push(Stmt { at, what })
}

/// Adds a `match`.
pub(crate) fn put_match(
    at: Span,
    on: Boxed<Expr>,
    arms: List<StmtArm>,
    out: &mut List<Stmt>,
) -> Result<(), Memory>
    ensures { OnOk result (stmts_view out.new ≡ spec.append (stmts_view out.old)
        (spec.one_st (st.Match at (expr_view on) (stmt_arms_view arms)))) }
{
    let what = StmtKind::Match(on.into_inner(), arms);
    out.push(Stmt { at, what })
}

/// Adds an atomic block.
pub(crate) fn put_atomic(at: Span, body: List<Stmt>, out: &mut List<Stmt>) -> Result<(), Memory>
    ensures { OnOk result (stmts_view out.new ≡ spec.append (stmts_view out.old)
        (spec.one_st (st.Atomic at (stmts_view body)))) }
{
    let what = StmtKind::Atomic(body);
    out.push(Stmt { at, what })
}

/// Adds a `return` with a term.
pub(crate) fn put_return(at: Span, e: Expr, out: &mut List<Stmt>) -> Result<(), Memory>
    ensures { OnOk result (stmts_view out.new ≡ spec.append (stmts_view out.old)
        (spec.one_st (st.ReturnWith at (expr_view e)))) }
{
    let what = StmtKind::Return(Some(e));
    out.push(Stmt { at, what })
}
