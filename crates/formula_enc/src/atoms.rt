//! Formulas without parts, or their duals.
ghost use Rattle.std.specs.Prelude.{◌≡◌, IfOk, negsuc, pos, slice_get, true};
ghost use Rattle.rp_lang.specs.ProgramView.{program_view};
ghost use Rattle.rp_lang.specs.Formulas as fo;
ghost use Rattle.rp_lang.specs.Types as types;
ghost use Rattle.rp_lang.specs.Views.{expr_view, exprs_view};
ghost use Rattle.rp_logic.specs.Formulas as fm;
ghost use Rattle.rp_logic.specs.Terms as tm;
ghost use Rattle.rp_logic.specs.Views.{term_view, formula_view};
ghost use Rattle.rp_symbols.specs.Numbers.{same_rel};
ghost use Rattle.crdt_enc.specs.Builders as builders;
ghost use Rattle.crdt_enc.specs.FormulaFormulas as spec;
ghost use Rattle.crdt_enc.specs.QueryFormulas as queries;
ghost use Rattle.formula_enc.specs.means.Signs as by_sign;
ghost use Rattle.formula_enc.specs.Settings.{place_view, around_view};

use crate::bounds::{Bounds, count_of};
use crate::invocations::inv_before;
use crate::setting::{Place, Setting};
use crate::signs::signed;
use crate::terms::{term_of, terms_of};
use program_sigs::is_get;
use query_enc::{over_one, over_two, push_selectors, query_formula};
use rp_lang::{Expr, Program};
use rp_logic::{Atom, Fml, Term};
use rp_value::{Boxed, List, Memory, Ty};
use std::alloc::Global;

/// The two are equal.
#[tactic(auto, using(rp_logic::proofs::FormulaViews::formula_views))]
pub fn equal(
    alloc: Global,
    s: &Setting,
    bounds: &Bounds,
    sign: bool,
    a: &Expr,
    b: &Expr,
) -> Result<Fml, Memory>
    ensures { IfOk result (λ f. formula_view f ≡ fm.Lit sign (tm.Equal (spec.term_of (program_view s.now.program.now) (place_view s.now.at) (around_view s.now bounds.now) (expr_view a.now)) (spec.term_of (program_view s.now.program.now) (place_view s.now.at) (around_view s.now bounds.now) (expr_view b.now)))) }
{
    let left = Boxed::new(alloc, term_of(alloc, s, bounds, a)?)?;
    let right = term_of(alloc, s, bounds, b)?;
    Ok(Fml::Lit(sign, Atom::Equal(left.into_inner(), right)))
}

/// The first is at most the other and so much.
#[tactic(auto, using(rp_logic::proofs::FormulaViews::formula_views))]
fn at_most_with(
    alloc: Global,
    s: &Setting,
    bounds: &Bounds,
    sign: bool,
    a: &Expr,
    b: &Expr,
    k: i128,
) -> Result<Fml, Memory>
    ensures { IfOk result (λ f. formula_view f ≡ fm.Lit sign (tm.Le (spec.term_of (program_view s.now.program.now) (place_view s.now.at) (around_view s.now bounds.now) (expr_view a.now)) (spec.term_of (program_view s.now.program.now) (place_view s.now.at) (around_view s.now bounds.now) (expr_view b.now)) k)) }
{
    let left = Boxed::new(alloc, term_of(alloc, s, bounds, a)?)?;
    let right = term_of(alloc, s, bounds, b)?;
    Ok(Fml::Lit(
        sign,
        Atom::Le {
            a: left.into_inner(),
            b: right,
            k,
        },
    ))
}

/// The first is less than the other.
pub fn less(
    alloc: Global,
    s: &Setting,
    bounds: &Bounds,
    sign: bool,
    a: &Expr,
    b: &Expr,
) -> Result<Fml, Memory>
    ensures { IfOk result (λ f. formula_view f ≡ fm.Lit sign (tm.Le (spec.term_of (program_view s.now.program.now) (place_view s.now.at) (around_view s.now bounds.now) (expr_view a.now)) (spec.term_of (program_view s.now.program.now) (place_view s.now.at) (around_view s.now bounds.now) (expr_view b.now)) (negsuc 0))) }
{
    at_most_with(alloc, s, bounds, sign, a, b, -1)
}

/// The first is at most the other.
pub fn at_most(
    alloc: Global,
    s: &Setting,
    bounds: &Bounds,
    sign: bool,
    a: &Expr,
    b: &Expr,
) -> Result<Fml, Memory>
    ensures { IfOk result (λ f. formula_view f ≡ fm.Lit sign (tm.Le (spec.term_of (program_view s.now.program.now) (place_view s.now.at) (around_view s.now bounds.now) (expr_view a.now)) (spec.term_of (program_view s.now.program.now) (place_view s.now.at) (around_view s.now bounds.now) (expr_view b.now)) (pos 0))) }
{
    at_most_with(alloc, s, bounds, sign, a, b, 0)
}

/// The call is visible.
pub fn visible(
    alloc: Global,
    s: &Setting,
    bounds: &Bounds,
    sign: bool,
    call: &Expr,
) -> Result<Fml, Memory>
    ensures { IfOk result (λ f. formula_view f ≡ builders.over_one sign s.now.at.view (spec.term_of (program_view s.now.program.now) (place_view s.now.at) (around_view s.now bounds.now) (expr_view call.now))) }
{
    over_one(alloc, sign, s.at.view, term_of(alloc, s, bounds, call)?)
}

/// Whether the expression stands for an invocation.
#[tactic(auto, using(rp_lang::proofs::ExprViews::expr_views))]
fn gives_inv(s: &Setting, bounds: &Bounds, e: &Expr) -> bool
    ensures { result ≡ spec.gives_inv (around_view s.now bounds.now) (expr_view e.now) }
{
    match e {
        Expr::Bound(n) => bounds.is_inv(*n),
        Expr::OriginOf(_) => true,
        Expr::Slot(_) => false,
        Expr::Int(_) => false,
        Expr::Str(_) => false,
        Expr::Con(_, _) => false,
        Expr::Plus(_, _) => false,
        Expr::Add(_, _) => false,
        Expr::Sub(_, _) => false,
        Expr::Query(_, _) => false,
        Expr::OpOf(_) => false,
        Expr::OpTerm(_, _) => false,
        Expr::InfoOf(_) => false,
        Expr::InfoTerm(_, _) => false,
        Expr::ResultOf(_) => false,
        Expr::ResultTerm(_, None) => false,
        Expr::ResultTerm(_, Some(_)) => false,
        Expr::Unreturned => false,
    }
}

/// The first invocation is before the other, or isn't.
fn invs_before(alloc: Global, at: Place, sign: bool, i: &Term, j: &Term) -> Result<Fml, Memory>
    ensures { IfOk result (λ f. formula_view f ≡ by_sign.signed sign (spec.inv_before (place_view at) (term_view i.now) (term_view j.now))) }
{
    let made = Boxed::new(alloc, inv_before(alloc, at, i, j)?)?;
    signed(alloc, sign, made)
}

/// The first happened before the other: two calls, or two invocations.
#[tactic(auto, using(crate::proofs::SignLaws::signs))]
pub fn precedes(
    alloc: Global,
    s: &Setting,
    bounds: &Bounds,
    sign: bool,
    a: &Expr,
    b: &Expr,
) -> Result<Fml, Memory>
    ensures { IfOk result (λ f. formula_view f ≡ by_sign.signed sign (spec.formula_of (program_view s.now.program.now) (place_view s.now.at) (around_view s.now bounds.now) (fo.Before (expr_view a.now) (expr_view b.now)))) }
{
    let left = Boxed::new(alloc, term_of(alloc, s, bounds, a)?)?;
    let right = Boxed::new(alloc, term_of(alloc, s, bounds, b)?)?;
    if gives_inv(s, bounds, a) {
        invs_before(alloc, s.at, sign, left.get(), right.get())
    } else {
        over_two(alloc, sign, 4, left, right)
    }
}

/// Both calls are of one transaction.
pub fn same(
    alloc: Global,
    s: &Setting,
    bounds: &Bounds,
    sign: bool,
    a: &Expr,
    b: &Expr,
) -> Result<Fml, Memory>
    ensures { IfOk result (λ f. formula_view f ≡ builders.over_two sign same_rel (spec.term_of (program_view s.now.program.now) (place_view s.now.at) (around_view s.now bounds.now) (expr_view a.now)) (spec.term_of (program_view s.now.program.now) (place_view s.now.at) (around_view s.now bounds.now) (expr_view b.now))) }
{
    let left = Boxed::new(alloc, term_of(alloc, s, bounds, a)?)?;
    let right = Boxed::new(alloc, term_of(alloc, s, bounds, b)?)?;
    over_two(alloc, sign, 6, left, right)
}

/// Whether the program has a query of this number that holds or not.
fn asks(p: &Program, query: u32) -> bool
    ensures { result ≡ spec.asks (slice_get (program_view p.now).queries query) }
{
    match p.queries.as_slice().get(query as usize) {
        Some(query) => !is_get(query.kind),
        None => false,
    }
}

/// The term of type `Bool` is `true`.
#[tactic(auto, using(rp_logic::proofs::FormulaViews::formula_views, rp_logic::proofs::TermViews::term_views, crate::proofs::SignLaws::signs))]
fn is_true(alloc: Global, s: &Setting, bounds: &Bounds, sign: bool, e: &Expr) -> Result<Fml, Memory>
    ensures { IfOk result (λ f. formula_view f ≡ by_sign.signed sign (fm.Lit true (tm.Equal (spec.term_of (program_view s.now.program.now) (place_view s.now.at) (around_view s.now bounds.now) (expr_view e.now)) (tm.Con 1 tm.no_tm)))) }
{
    let t = term_of(alloc, s, bounds, e)?;
    Ok(Fml::Lit(sign, Atom::Equal(t, Term::Con(1, List::new(alloc)))))
}

/// A query that holds or not, by its number.
#[tactic(auto, using(query_enc::proofs::TermLists::listed))]
fn asked(
    alloc: Global,
    s: &Setting,
    bounds: &Bounds,
    query: u32,
    args: &[Expr],
) -> Result<Fml, Memory>
    ensures { IfOk result (λ f. formula_view f ≡ queries.query_formula (program_view s.now.program.now) s.now.at.view query (spec.list_of (spec.terms_of (program_view s.now.program.now) (place_view s.now.at) (around_view s.now bounds.now) (exprs_view args.now)))) }
{
    let args = terms_of(alloc, s, bounds, args)?;
    query_formula(alloc, s.program, s.at.view, query, args.as_slice())
}

/// The query holds, or doesn't.
fn asked_so(
    alloc: Global,
    s: &Setting,
    bounds: &Bounds,
    sign: bool,
    query: u32,
    args: &[Expr],
) -> Result<Fml, Memory>
    ensures { IfOk result (λ f. formula_view f ≡ by_sign.signed sign (queries.query_formula (program_view s.now.program.now) s.now.at.view query (spec.list_of (spec.terms_of (program_view s.now.program.now) (place_view s.now.at) (around_view s.now bounds.now) (exprs_view args.now))))) }
{
    let made = Boxed::new(alloc, asked(alloc, s, bounds, query, args)?)?;
    signed(alloc, sign, made)
}

/// A query that holds or not, or a term of type `Bool`.
#[tactic(auto, using(rp_lang::proofs::ExprViews::expr_views))]
pub fn holds(
    alloc: Global,
    s: &Setting,
    bounds: &Bounds,
    sign: bool,
    e: &Expr,
) -> Result<Fml, Memory>
    ensures { IfOk result (λ f. formula_view f ≡ by_sign.signed sign (spec.true_formula (program_view s.now.program.now) (place_view s.now.at) (around_view s.now bounds.now) (expr_view e.now))) }
{
    match e {
        Expr::Query(query, args) => if asks(s.program, *query) {
            asked_so(alloc, s, bounds, sign, *query, args.as_slice())
        } else {
            is_true(alloc, s, bounds, sign, e)
        },
        Expr::Slot(_) => is_true(alloc, s, bounds, sign, e),
        Expr::Bound(_) => is_true(alloc, s, bounds, sign, e),
        Expr::Int(_) => is_true(alloc, s, bounds, sign, e),
        Expr::Str(_) => is_true(alloc, s, bounds, sign, e),
        Expr::Con(_, _) => is_true(alloc, s, bounds, sign, e),
        Expr::Plus(_, _) => is_true(alloc, s, bounds, sign, e),
        Expr::Add(_, _) => is_true(alloc, s, bounds, sign, e),
        Expr::Sub(_, _) => is_true(alloc, s, bounds, sign, e),
        Expr::OpOf(_) => is_true(alloc, s, bounds, sign, e),
        Expr::OpTerm(_, _) => is_true(alloc, s, bounds, sign, e),
        Expr::OriginOf(_) => is_true(alloc, s, bounds, sign, e),
        Expr::InfoOf(_) => is_true(alloc, s, bounds, sign, e),
        Expr::InfoTerm(_, _) => is_true(alloc, s, bounds, sign, e),
        Expr::ResultOf(_) => is_true(alloc, s, bounds, sign, e),
        Expr::ResultTerm(_, None) => is_true(alloc, s, bounds, sign, e),
        Expr::ResultTerm(_, Some(_)) => is_true(alloc, s, bounds, sign, e),
        Expr::Unreturned => is_true(alloc, s, bounds, sign, e),
    }
}

/// The types of a constructor's fields.
pub fn fields_of(p: &Program, con: u32) -> &[Ty]
    ensures { result.now ≡ types.fields_of (program_view p.now).cons con }
{
    match p.cons.cons.as_slice().get(con as usize) {
        Some(decl) => decl.fields.as_slice(),
        None => &[],
    }
}

/// The term is built with this constructor.
#[tactic(auto, using(rp_logic::proofs::FormulaViews::formula_views, rp_logic::proofs::TermViews::term_views, crate::proofs::SignLaws::signs, query_enc::proofs::TermLists::same_terms))]
pub fn is_built(alloc: Global, p: &Program, sign: bool, con: u32, t: &Term) -> Result<Fml, Memory>
    ensures { IfOk result (λ f. formula_view f ≡ by_sign.signed sign (spec.is_built (program_view p.now) con (term_view t.now))) }
{
    let fields = count_of(fields_of(p, con))?;
    let mut args = List::new(alloc);
    push_selectors(alloc, &mut args, con, 0, fields, t)?;
    let t = t.copy(alloc)?;
    Ok(Fml::Lit(sign, Atom::Equal(t, Term::Con(con, args))))
}
