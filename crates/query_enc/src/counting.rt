//! Calls that an operation made, along a way.
ghost use Rattle.std.specs.Prelude.{◌≡◌, ◌++◌, ◌∷◌, [], true, false, IfOk, OnOk, map};
ghost use Rattle.rp_logic.specs.Terms as tm;
ghost use Rattle.rp_logic.specs.Views.{term_view, formula_view, formulas_view};
ghost use Rattle.reshape.specs.Joined.{joined};
ghost use Rattle.rp_symbols.specs.Numbers as number;
ghost use Rattle.crdt_enc.specs.Builders as builders;
ghost use Rattle.query_enc.specs.means.Such as such;

use crate::built::built;
use crate::lists::{push_copies, push_duals};
use crate::literals::{applied, over_one};
use crate::raising::raise;
use crate::tests::{Test, passes};
use crate::ways::Way;
use program_sigs::{op_con, plus};
use rp_lang::{OpDecl, Program};
use rp_logic::{Atom, Fml, Term};
use rp_value::{Boxed, List, Memory};
use std::alloc::Global;

/// Calls of the view, that go this way and pass the test, with what their operation may be over. They stand inside of `around`
/// quantifiers, the way's keys and the term outside.
#[derive(Drop)]
pub struct Such<'p, 'w, 'k, 't> {
    pub program: &'p Program,
    pub view: u32,
    pub around: u32,
    pub way: &'w Way<'k>,
    pub test: Test,
    pub own: Option<&'t Term>,
}

/// The keys on the way and the term behind them, under one quantifier more.
fn given(alloc: Global, s: &Such) -> Result<List<Term>, Memory>
    ensures { IfOk result (λ ts. map term_view ts ≡ such.given (such.such_view s.now)) }
{
    let mut terms = List::new(alloc);
    let inside = plus(s.around, 1)?;
    s.way.push_keys(alloc, inside, &mut terms)?;
    match s.own {
        Some(t) => {
            terms.push(raise(alloc, inside, t)?)?;
            Ok(terms)
        }
        None => Ok(terms),
    }
}

/// What the innermost variable's call is.
#[tactic(auto, using(rp_logic::proofs::TermViews::term_views))]
fn operation(alloc: Global) -> Result<Term, Memory>
    ensures { IfOk result (λ t. term_view t ≡ builders.applied number.op_fn (tm.Var 0)) }
{
    applied(alloc, 0, Term::Var(0))
}

/// The innermost variable is a call of this operation, or isn't.
#[tactic(auto, using(rp_logic::proofs::FormulaViews::formula_views))]
fn is_call_of(alloc: Global, s: &Such, sign: bool, op: u32, decl: &OpDecl) -> Result<Fml, Memory>
    ensures { IfOk result (λ f. formula_view f ≡ such.is_call_of (such.such_view s.now) sign op decl.now) }
{
    let call = Boxed::new(alloc, operation(alloc)?)?;
    let given = given(alloc, s)?;
    let con = op_con(s.program, op)?;
    let made = built(alloc, con, decl.args.count(), given, call.get())?;
    Ok(Fml::Lit(sign, Atom::Equal(call.into_inner(), made)))
}

/// The innermost variable is a call of the view by this operation, or isn't.
fn push_call(
    alloc: Global,
    out: &mut List<Fml>,
    s: &Such,
    sign: bool,
    op: u32,
    decl: &OpDecl,
) -> Result<(), Memory>
    ensures { OnOk result (map formula_view out.new ≡ map formula_view out.old ++ builders.over_one sign s.now.view (tm.Var 0) ∷ such.is_call_of (such.such_view s.now) sign op decl.now ∷ []) }
{
    out.push(over_one(alloc, sign, s.view, Term::Var(0))?)?;
    out.push(is_call_of(alloc, s, sign, op, decl)?)?;
    Ok(())
}

/// Some call by this operation that meets the rest.
#[tactic(auto, using(rp_logic::proofs::FormulaViews::formula_views, crate::proofs::Joins::joins))]
fn some_one(
    alloc: Global,
    s: &Such,
    kept: &[Fml],
    rest: &[Fml],
    op: u32,
    decl: &OpDecl,
) -> Result<Fml, Memory>
    ensures { IfOk result (λ f. formula_view f ≡ such.one true (such.such_view s.now) (formulas_view kept.now) (formulas_view rest.now) op decl.now) }
{
    let mut parts = List::new(alloc);
    push_call(alloc, &mut parts, s, true, op, decl)?;
    push_copies(alloc, &mut parts, kept)?;
    push_copies(alloc, &mut parts, rest)?;
    let body = Boxed::new(alloc, Fml::And(parts))?;
    Ok(Fml::Ex(0, body))
}

/// Each call by this operation meets a part of the rest.
#[tactic(auto, using(rp_logic::proofs::FormulaViews::formula_views, crate::proofs::Joins::joins))]
fn each_one(
    alloc: Global,
    s: &Such,
    kept: &[Fml],
    rest: &[Fml],
    op: u32,
    decl: &OpDecl,
) -> Result<Fml, Memory>
    ensures { IfOk result (λ f. formula_view f ≡ such.one false (such.such_view s.now) (formulas_view kept.now) (formulas_view rest.now) op decl.now) }
{
    let mut parts = List::new(alloc);
    push_call(alloc, &mut parts, s, false, op, decl)?;
    push_duals(alloc, &mut parts, kept)?;
    push_copies(alloc, &mut parts, rest)?;
    let body = Boxed::new(alloc, Fml::Or(parts))?;
    Ok(Fml::All(0, body))
}

fn one(
    alloc: Global,
    s: &Such,
    sign: bool,
    kept: &[Fml],
    rest: &[Fml],
    op: u32,
    decl: &OpDecl,
) -> Result<Fml, Memory>
    ensures { IfOk result (λ f. formula_view f ≡ such.one sign (such.such_view s.now) (formulas_view kept.now) (formulas_view rest.now) op decl.now) }
{
    if sign {
        some_one(alloc, s, kept, rest, op, decl)
    } else {
        each_one(alloc, s, kept, rest, op, decl)
    }
}

/// The formula of this operation, if it goes the way and passes the test.
#[tactic(auto, using(crate::proofs::Joins::joins))]
fn push_one(
    alloc: Global,
    out: &mut List<Fml>,
    s: &Such,
    sign: bool,
    kept: &[Fml],
    rest: &[Fml],
    op: u32,
    decl: &OpDecl,
) -> Result<(), Memory>
    ensures { OnOk result (formulas_view out.new ≡ joined (formulas_view out.old) (such.ones sign (such.such_view s.now) (formulas_view kept.now) (formulas_view rest.now) op (decl.now ∷ []))) }
{
    if !passes(s.way, s.test, decl)? {
        return Ok(());
    }
    out.push(one(alloc, s, sign, kept, rest, op, decl)?)?;
    Ok(())
}

/// One formula for each operation that goes the way and passes the test.
pub fn push_ones(
    alloc: Global,
    out: &mut List<Fml>,
    s: &Such,
    sign: bool,
    kept: &[Fml],
    rest: &[Fml],
) -> Result<(), Memory>
    ensures { OnOk result (formulas_view out.new ≡ joined (formulas_view out.old) (such.ones sign (such.such_view s.now) (formulas_view kept.now) (formulas_view rest.now) 0 s.now.program.now.ops)) }
{
    let mut op = 0;
    for decl in s.program.ops.as_slice() {
        push_one(alloc, out, s, sign, kept, rest, op, decl)?;
        op = plus(op, 1)?;
    }
    Ok(())
}
