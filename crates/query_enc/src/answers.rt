//! What is asked of the calls that count at the end of a way.
ghost use Rattle.std.specs.Prelude.{◌≡◌, ◌∷◌, [], true, IfOk, map};
ghost use Rattle.rp_lang.specs.ProgramView.{program_view};
ghost use Rattle.rp_logic.specs.Formulas.{no_fm};
ghost use Rattle.rp_logic.specs.Views.{term_view, formula_view, formulas_view};
ghost use Rattle.crdt_defs.specs.declared.asked.Question.TheVariants as question;
ghost use Rattle.crdt_enc.specs.QueryFormulas as spec;
ghost use Rattle.query_enc.specs.means.Such.{own_list};
ghost use Rattle.query_enc.specs.WayView.{way_view};

use crate::counting::Such;
use crate::literals::is_before;
use crate::staying::{each_call, some_call};
use crate::tests::Test;
use crate::ways::Way;
use crdt_defs::{Question, Winner};
use rp_lang::{OpKind, Program};
use rp_logic::{Fml, Term};
use rp_value::{List, Memory};
use std::alloc::Global;

/// The formula alone.
fn one(alloc: Global, f: Fml) -> Result<List<Fml>, Memory>
    ensures { IfOk result (λ fs. fs ≡ f ∷ []) }
{
    let mut fs = List::new(alloc);
    fs.push(f)?;
    Ok(fs)
}

/// Some call of the kind, over the term, meets the rest. It stands inside of so many quantifiers.
fn some_of_kind(
    alloc: Global,
    p: &Program,
    view: u32,
    around: u32,
    way: &Way,
    kind: OpKind,
    x: &Term,
    rest: &[Fml],
) -> Result<Fml, Memory>
    ensures { IfOk result (λ f. formula_view f ≡ spec.some_call (program_view p.now) view around (way_view way.now) (spec.is_kind kind) (term_view x.now ∷ []) (formulas_view rest.now)) }
{
    let such = Such {
        program: &*p,
        view,
        around,
        way: &*way,
        test: Test::Kind(kind),
        own: Some(&*x),
    };
    some_call(alloc, &such, rest)
}

/// Each call of the kind, over the term where there is one, meets a part of the rest.
fn each_of_kind(
    alloc: Global,
    p: &Program,
    view: u32,
    around: u32,
    way: &Way,
    kind: OpKind,
    x: Option<&Term>,
    rest: &[Fml],
) -> Result<Fml, Memory>
    ensures { IfOk result (λ f. formula_view f ≡ spec.each_call (program_view p.now) view around (way_view way.now) (spec.is_kind kind) (own_list x.entry) (formulas_view rest.now)) }
{
    let such = Such {
        program: &*p,
        view,
        around,
        way: &*way,
        test: Test::Kind(kind),
        own: x,
    };
    each_call(alloc, &such, rest)
}

/// Added and not removed later.
#[tactic(auto, using(rp_logic::proofs::FormulaViews::formula_views))]
fn add_wins(alloc: Global, p: &Program, view: u32, way: &Way, x: &Term) -> Result<Fml, Memory>
    ensures { IfOk result (λ f. formula_view f ≡ spec.answer_formula (program_view p.now) view (way_view way.now) question.AddWins (term_view x.now ∷ [])) }
{
    let later = one(alloc, is_before(alloc, false, 1, 0)?)?;
    let removed = each_of_kind(
        alloc,
        p,
        view,
        1,
        way,
        OpKind::Remove,
        Some(x),
        later.as_slice(),
    )?;
    let rest = one(alloc, removed)?;
    some_of_kind(alloc, p, view, 0, way, OpKind::Add, x, rest.as_slice())
}

/// Added, and each remove before such an add.
#[tactic(auto, using(rp_logic::proofs::FormulaViews::formula_views))]
fn remove_wins(alloc: Global, p: &Program, view: u32, way: &Way, x: &Term) -> Result<Fml, Memory>
    ensures { IfOk result (λ f. formula_view f ≡ spec.answer_formula (program_view p.now) view (way_view way.now) question.RemoveWins (term_view x.now ∷ [])) }
{
    let mut parts = List::new(alloc);
    parts.push(some_of_kind(alloc, p, view, 0, way, OpKind::Add, x, &[])?)?;
    let later = one(alloc, is_before(alloc, true, 1, 0)?)?;
    let added = some_of_kind(alloc, p, view, 1, way, OpKind::Add, x, later.as_slice())?;
    let rest = one(alloc, added)?;
    parts.push(each_of_kind(
        alloc,
        p,
        view,
        0,
        way,
        OpKind::Remove,
        Some(x),
        rest.as_slice(),
    )?)?;
    Ok(Fml::And(parts))
}

/// Assigned and not overwritten.
#[tactic(auto, using(rp_logic::proofs::FormulaViews::formula_views))]
fn many_values(alloc: Global, p: &Program, view: u32, way: &Way, x: &Term) -> Result<Fml, Memory>
    ensures { IfOk result (λ f. formula_view f ≡ spec.answer_formula (program_view p.now) view (way_view way.now) question.ManyValues (term_view x.now ∷ [])) }
{
    let later = one(alloc, is_before(alloc, false, 1, 0)?)?;
    let assigned = each_of_kind(
        alloc,
        p,
        view,
        1,
        way,
        OpKind::Assign,
        None,
        later.as_slice(),
    )?;
    let rest = one(alloc, assigned)?;
    some_of_kind(alloc, p, view, 0, way, OpKind::Assign, x, rest.as_slice())
}

/// Any operation at the key counts.
#[tactic(auto, using(crate::proofs::WayViews::way_views))]
fn at_key(
    alloc: Global,
    p: &Program,
    view: u32,
    way: &Way,
    winner: Winner,
    k: &Term,
) -> Result<Fml, Memory>
    ensures { IfOk result (λ f. formula_view f ≡ spec.answer_formula (program_view p.now) view (way_view way.now) (question.AtKey winner) (term_view k.now ∷ [])) }
{
    let there = Way::AtKey(winner, &*k, &*way);
    any_call(alloc, p, view, &there)
}

/// Some call that goes the way counts.
fn any_call(alloc: Global, p: &Program, view: u32, way: &Way) -> Result<Fml, Memory>
    ensures { IfOk result (λ f. formula_view f ≡ spec.some_call (program_view p.now) view 0 (way_view way.now) (λ decl. true) [] no_fm) }
{
    let such = Such {
        program: &*p,
        view,
        around: 0,
        way: &*way,
        test: Test::Any,
        own: None,
    };
    some_call(alloc, &such, &[])
}

/// What no structure makes true.
#[tactic(auto, using(rp_logic::proofs::FormulaViews::formula_views))]
pub fn untrue(alloc: Global) -> Fml
    ensures { formula_view result ≡ spec.untrue }
{
    Fml::Or(List::new(alloc))
}

/// The answer to a question over one term.
fn answer_over(
    alloc: Global,
    p: &Program,
    view: u32,
    way: &Way,
    question: Question,
    x: &Term,
) -> Result<Fml, Memory>
    ensures { IfOk result (λ f. formula_view f ≡ spec.answer_formula (program_view p.now) view (way_view way.now) question (term_view x.now ∷ [])) }
{
    match question {
        Question::AddWins => add_wins(alloc, p, view, way, x),
        Question::RemoveWins => remove_wins(alloc, p, view, way, x),
        Question::ManyValues => many_values(alloc, p, view, way, x),
        Question::AtKey(winner) => at_key(alloc, p, view, way, winner, x),
        Question::Latest => Ok(untrue(alloc)),
        Question::Total => Ok(untrue(alloc)),
        Question::NoQuestion => Ok(untrue(alloc)),
    }
}

/// The answer to a question over these terms. Questions with a value, and those over other than one term, have no truth.
pub fn answer(
    alloc: Global,
    p: &Program,
    view: u32,
    way: &Way,
    question: Question,
    args: &[Term],
) -> Result<Fml, Memory>
    ensures { IfOk result (λ f. formula_view f ≡ spec.answer_formula (program_view p.now) view (way_view way.now) question (map term_view args.now)) }
{
    match args {
        [] => Ok(untrue(alloc)),
        [x] => answer_over(alloc, p, view, way, question, x),
        [_, _, ..] => Ok(untrue(alloc)),
    }
}
