//! The formulas of queries.
ghost use Rattle.std.specs.Prelude.{◌≡◌, Some, IfOk, map, slice_get, option_map, option_copied};
ghost use Rattle.rp_lang.specs.Paths as paths;
ghost use Rattle.rp_lang.specs.ProgramView.{program_view};
ghost use Rattle.rp_lang.specs.Views.{crdt_view};
ghost use Rattle.rp_logic.specs.Views.{term_view, formula_view};
ghost use Rattle.crdt_defs.specs.Queries as asked;
ghost use Rattle.crdt_enc.specs.QueryFormulas as spec;
ghost use Rattle.query_enc.specs.WayView.{way_view};

use crate::answers::{answer, untrue};
use crate::ways::Way;
use crdt_defs::{Question, Winner};
use rp_lang::{Crdt, PathStep, Program, QueryDecl, QueryKind, field_in, root_crdt};
use rp_logic::{Fml, Term};
use rp_value::{Boxed, Memory};
use std::alloc::Global;

/// What a kind of query asks of a type.
#[tactic(auto, using(rp_lang::proofs::CrdtViews::crdt_views))]
fn question(crdt: &Crdt, kind: QueryKind) -> Question
    ensures { result ≡ asked.question (crdt_view crdt.now) kind }
{
    match crdt {
        Crdt::SetAw(_) => match kind {
            QueryKind::Contains => Question::AddWins,
            _ => Question::NoQuestion,
        },
        Crdt::SetRw(_) => match kind {
            QueryKind::Contains => Question::RemoveWins,
            _ => Question::NoQuestion,
        },
        Crdt::MvReg(_) => match kind {
            QueryKind::Contains => Question::ManyValues,
            _ => Question::NoQuestion,
        },
        Crdt::MapUw(_, _) => match kind {
            QueryKind::HasKey => Question::AtKey(Winner::Update),
            _ => Question::NoQuestion,
        },
        Crdt::MapDw(_, _) => match kind {
            QueryKind::HasKey => Question::AtKey(Winner::Delete),
            _ => Question::NoQuestion,
        },
        Crdt::Reg(_) => match kind {
            QueryKind::GetReg => Question::Latest,
            _ => Question::NoQuestion,
        },
        Crdt::Counter => match kind {
            QueryKind::GetSum => Question::Total,
            _ => Question::NoQuestion,
        },
        Crdt::Struct(_) => Question::NoQuestion,
    }
}

/// The type at each key of a map.
#[tactic(auto, using(rp_lang::proofs::CrdtViews::crdt_views))]
fn held_in(crdt: &Crdt) -> Option<&Crdt>
    ensures { option_map crdt_view (option_copied result) ≡ asked.held_in (crdt_view crdt.now) }
{
    match crdt {
        Crdt::MapUw(_, at_each) => Some(at_each.get()),
        Crdt::MapDw(_, at_each) => Some(at_each.get()),
        Crdt::SetAw(_) => None,
        Crdt::SetRw(_) => None,
        Crdt::Reg(_) => None,
        Crdt::MvReg(_) => None,
        Crdt::Counter => None,
        Crdt::Struct(_) => None,
    }
}

/// What a map keeps.
#[tactic(auto, using(rp_lang::proofs::CrdtViews::crdt_views))]
fn winner_in(crdt: &Crdt) -> Winner
    ensures { result ≡ asked.winner_in (crdt_view crdt.now) }
{
    match crdt {
        Crdt::MapDw(_, _) => Winner::Delete,
        Crdt::MapUw(_, _) => Winner::Update,
        Crdt::SetAw(_) => Winner::Update,
        Crdt::SetRw(_) => Winner::Update,
        Crdt::Reg(_) => Winner::Update,
        Crdt::MvReg(_) => Winner::Update,
        Crdt::Counter => Winner::Update,
        Crdt::Struct(_) => Winner::Update,
    }
}

/// The formula where this way was taken, to this type, and the path leads on.
#[tactic(auto, using(crate::proofs::WayViews::way_views))]
fn ask(
    alloc: Global,
    p: &Program,
    view: u32,
    kind: QueryKind,
    crdt: &Crdt,
    path: &[PathStep],
    way: &Way,
    args: &[Term],
) -> Result<Fml, Memory>
    ensures { IfOk result (λ f. formula_view f ≡ spec.ask_formula (program_view p.now) view kind (Some (crdt_view crdt.now)) path.now (way_view way.now) (map term_view args.now)) }
{
    match path {
        [] => answer(alloc, p, view, way, question(crdt, kind), args),
        [PathStep::Field(n), rest @ ..] => match field_in(crdt, *n) {
            Some(part) => {
                let there = Way::AtField(*n, &*way);
                ask(alloc, p, view, kind, part, rest, &there, args)
            }
            None => Ok(untrue(alloc)),
        },
        [PathStep::Key(_), rest @ ..] => match args {
            [k, more @ ..] => match held_in(crdt) {
                Some(part) => {
                    let there = Way::AtKey(winner_in(crdt), k, &*way);
                    ask(alloc, p, view, kind, part, rest, &there, more)
                }
                None => Ok(untrue(alloc)),
            },
            [] => Ok(untrue(alloc)),
        },
    }
}

/// The formula of the query, along the path from its root.
#[tactic(auto, using(crate::proofs::WayViews::way_views))]
fn ask_root(
    alloc: Global,
    p: &Program,
    view: u32,
    query: &QueryDecl,
    args: &[Term],
) -> Result<Fml, Memory>
    ensures { IfOk result (λ f. formula_view f ≡ spec.query_by (program_view p.now) view (Some query.now) (map term_view args.now)) }
{
    match root_crdt(p.roots.as_slice(), query.root) {
        Some(crdt) => {
            let way = Way::Root(query.root);
            ask(
                alloc,
                p,
                view,
                query.kind,
                crdt,
                query.path.as_slice(),
                &way,
                args,
            )
        }
        None => Ok(untrue(alloc)),
    }
}

/// The formula of the program's query of this number at the view relation, over these terms.
pub fn query_formula(
    alloc: Global,
    p: &Program,
    view: u32,
    query: u32,
    args: &[Term],
) -> Result<Fml, Memory>
    ensures { IfOk result (λ f. formula_view f ≡ spec.query_formula (program_view p.now) view query (map term_view args.now)) }
{
    match p.queries.as_slice().get(query as usize) {
        Some(query) => ask_root(alloc, p, view, query, args),
        None => Ok(untrue(alloc)),
    }
}

/// The formula of the program's query of this number at the view relation, over these terms.
pub fn encode_query(
    alloc: Global,
    p: &Program,
    view: u32,
    query: u32,
    args: &[Term],
) -> Result<Boxed<Fml>, Memory>
    ensures { IfOk result (λ f. formula_view f ≡ spec.query_formula (program_view p.now) view query (map term_view args.now)) }
{
    Ok(Boxed::new(alloc, query_formula(alloc, p, view, query, args)?)?)
}
