ghost use Rattle.std.specs.Prelude.{◌≡◌, ◌<◌, ◌≤◌, ◌+◌, [], ◌∷◌, Some, None, length, slice_get, map, option_map, option_copied};
ghost use Rattle.std.specs.FinSet as set;
ghost use Rattle.rp_value.specs.ValueView.{value_view, values_view};
ghost use Rattle.rp_lang.specs.Paths as paths;
ghost use Rattle.rp_lang.specs.Views.{crdt_view, root_view};
ghost use Rattle.rp_lang.specs.ProgramView.{program_view};
ghost use Rattle.crdt_defs.specs.Calls.{calls_view};
ghost use Rattle.crdt_defs.specs.Snapshots.{bit};
ghost use Rattle.crdt_defs.specs.Doing as doing;
ghost use Rattle.crdt_defs.specs.Meaning.{among};
ghost use Rattle.crdt_defs.specs.Queries as spec;

use crate::answer::answer;
use crate::history::{History, MOST};
use crate::row::{enter_field, mark, narrow};
use crate::view::View;
use crdt_defs::{Answer, Found, Question, Winner};
use rp_lang::{Crdt, OpDecl, PathStep, Program, QueryDecl, QueryKind, Root, field_in, root_crdt};
use rp_value::Value;

/// What a kind of query asks of a type.
#[tactic(auto, using(rp_lang::proofs::CrdtViews::crdt_views))]
fn question(crdt: &Crdt, kind: QueryKind) -> Question
    ensures { result ≡ spec.question (crdt_view crdt.now) kind }
{
    match crdt {
        Crdt::SetAw(_) => match kind {
            QueryKind::Contains => Question::AddWins,
            _ => Question::NoQuestion,
        },
        Crdt::SetRw(_) => match kind {
            QueryKind::Contains => Question::RemoveWins,
            _ => Question::NoQuestion,
        },
        Crdt::MvReg(_) => match kind {
            QueryKind::Contains => Question::ManyValues,
            _ => Question::NoQuestion,
        },
        Crdt::MapUw(_, _) => match kind {
            QueryKind::HasKey => Question::AtKey(Winner::Update),
            _ => Question::NoQuestion,
        },
        Crdt::MapDw(_, _) => match kind {
            QueryKind::HasKey => Question::AtKey(Winner::Delete),
            _ => Question::NoQuestion,
        },
        Crdt::Reg(_) => match kind {
            QueryKind::GetReg => Question::Latest,
            _ => Question::NoQuestion,
        },
        Crdt::Counter => match kind {
            QueryKind::GetSum => Question::Total,
            _ => Question::NoQuestion,
        },
        Crdt::Struct(_) => Question::NoQuestion,
    }
}

/// The type at each key of a map.
#[tactic(auto, using(rp_lang::proofs::CrdtViews::crdt_views))]
fn held_in(crdt: &Crdt) -> Option<&Crdt>
    ensures { option_map crdt_view (option_copied result) ≡ spec.held_in (crdt_view crdt.now) }
{
    match crdt {
        Crdt::MapUw(_, at_each) => Some(at_each.get()),
        Crdt::MapDw(_, at_each) => Some(at_each.get()),
        Crdt::SetAw(_) => None,
        Crdt::SetRw(_) => None,
        Crdt::Reg(_) => None,
        Crdt::MvReg(_) => None,
        Crdt::Counter => None,
        Crdt::Struct(_) => None,
    }
}

/// What a map keeps.
#[tactic(auto, using(rp_lang::proofs::CrdtViews::crdt_views))]
fn winner_in(crdt: &Crdt) -> Winner
    ensures { result ≡ spec.winner_in (crdt_view crdt.now) }
{
    match crdt {
        Crdt::MapDw(_, _) => Winner::Delete,
        Crdt::MapUw(_, _) => Winner::Update,
        Crdt::SetAw(_) => Winner::Update,
        Crdt::SetRw(_) => Winner::Update,
        Crdt::Reg(_) => Winner::Update,
        Crdt::MvReg(_) => Winner::Update,
        Crdt::Counter => Winner::Update,
        Crdt::Struct(_) => Winner::Update,
    }
}

/// The answer where `depth` steps were taken, to this type, and the path leads on. `row` has the calls that count.
fn ask(
    h: &History,
    ops: &[OpDecl],
    kind: QueryKind,
    crdt: &Crdt,
    path: &[PathStep],
    depth: usize,
    args: &[Value],
    row: &mut [bool],
    spare: &mut [bool],
) -> Answer
    requires row { length row.old ≡ length h.now }
    requires spare { length spare.old ≡ length h.now }
    requires deep { depth + length path.now < 9223372036854775808 }
    ensures { result ≡ spec.ask ops.now (calls_view h.now) kind (Some (crdt_view crdt.now)) path.now depth (bit row.old) (map value_view args.now) }
{
    match path {
        [] => answer(h, ops, depth, row, question(crdt, kind), args, spare),
        [PathStep::Field(n), rest @ ..] => match field_in(crdt, *n) {
            Some(part) => {
                enter_field(h, ops, depth, row, *n, spare);
                ask(h, ops, kind, part, rest, depth + 1, args, spare, row)
            }
            None => Answer::Truth(false),
        },
        [PathStep::Key(_), rest @ ..] => match args {
            [k, more @ ..] => match held_in(crdt) {
                Some(part) => {
                    narrow(h, ops, winner_in(crdt), depth, row, k, spare);
                    ask(h, ops, kind, part, rest, depth + 1, more, spare, row)
                }
                None => Answer::Truth(false),
            },
            [] => Answer::Truth(false),
        },
    }
}

fn ask_root(
    h: &History,
    roots: &[Root],
    ops: &[OpDecl],
    query: &QueryDecl,
    args: &[Value],
    row: &mut [bool],
    spare: &mut [bool],
) -> Answer
    requires row { length row.old ≡ length h.now }
    requires spare { length spare.old ≡ length h.now }
    ensures { result ≡ spec.ask ops.now (calls_view h.now) query.now.kind (paths.root_crdt (slice_get (map root_view roots.now) query.now.root)) query.now.path 0 (bit row.old) (map value_view args.now) }
{
    match root_crdt(roots, query.root) {
        Some(crdt) => ask(
            h,
            ops,
            query.kind,
            crdt,
            query.path.as_slice(),
            0,
            args,
            row,
            spare,
        ),
        None => Answer::Truth(false),
    }
}

fn answer_in_rows<V: View>(
    h: &History,
    roots: &[Root],
    ops: &[OpDecl],
    query: &QueryDecl,
    view: &V,
    args: &[Value],
    row: &mut [bool],
    spare: &mut [bool],
) -> Answer
    requires row { length row.old ≡ length h.now }
    requires spare { length spare.old ≡ length h.now }
    ensures { result ≡ spec.answer_to (map root_view roots.now) ops.now query.now (calls_view h.now) (set.contains (V.calls view.now)) (map value_view args.now) }
{
    mark(h, ops, view, query.root, row);
    ask_root(h, roots, ops, query, args, row, spare)
}

/// The answer of a query at the calls of a view.
fn answer_to<V: View>(
    h: &History,
    roots: &[Root],
    ops: &[OpDecl],
    query: &QueryDecl,
    view: &V,
    args: &[Value],
) -> Answer
    ensures { result ≡ spec.answer_to (map root_view roots.now) ops.now query.now (calls_view h.now) (set.contains (V.calls view.now)) (map value_view args.now) }
{
    let calls = h.len() as usize;
    let mut row = [false; MOST];
    let mut spare = [false; MOST];
    answer_in_rows(
        h,
        roots,
        ops,
        query,
        view,
        args,
        &mut row[..calls],
        &mut spare[..calls],
    )
}

fn truth(answer: Answer) -> bool
    ensures { result ≡ spec.is_true answer }
{
    match answer {
        Answer::Truth(holds) => holds,
        Answer::Value(_) => false,
    }
}

fn found(answer: Answer) -> Found
    ensures { result ≡ spec.found_in answer }
{
    match answer {
        Answer::Truth(_) => Found::Nothing,
        Answer::Value(found) => found,
    }
}

/// Whether a query of these roots and operations holds at the calls of a view. It takes no memory.
pub fn query_holds<V: View>(
    roots: &[Root],
    ops: &[OpDecl],
    query: &QueryDecl,
    h: &History,
    view: &V,
    args: &[Value],
) -> bool
    ensures { result ≡ spec.is_true (spec.answer_to (map root_view roots.now) ops.now query.now (calls_view h.now) (set.contains (V.calls view.now)) (map value_view args.now)) }
{
    truth(answer_to(h, roots, ops, query, view, args))
}

/// What a query of these roots and operations finds at the calls of a view. It takes no memory.
pub fn query_value<V: View>(
    roots: &[Root],
    ops: &[OpDecl],
    query: &QueryDecl,
    h: &History,
    view: &V,
    args: &[Value],
) -> Found
    ensures { result ≡ spec.found_in (spec.answer_to (map root_view roots.now) ops.now query.now (calls_view h.now) (set.contains (V.calls view.now)) (map value_view args.now)) }
{
    found(answer_to(h, roots, ops, query, view, args))
}

/// The answer of a program's query at the calls of a view, `false` where the program has no query of that number. It
/// takes no memory.
pub fn answer_of<V: View>(p: &Program, h: &History, view: &V, query: u32, args: &[Value]) -> Answer
    ensures { result ≡ spec.answer_in (program_view p.now) query (calls_view h.now) (set.contains (V.calls view.now)) (map value_view args.now) }
{
    match p.queries.as_slice().get(query as usize) {
        Some(query) => answer_to(h, p.roots.as_slice(), p.ops.as_slice(), query, view, args),
        None => Answer::Truth(false),
    }
}

/// Whether a program's query holds at the calls of a view. It takes no memory.
pub fn holds<V: View>(p: &Program, h: &History, view: &V, query: u32, args: &[Value]) -> bool
    ensures { result ≡ spec.is_true (spec.answer_in (program_view p.now) query (calls_view h.now) (set.contains (V.calls view.now)) (map value_view args.now)) }
{
    truth(answer_of(p, h, view, query, args))
}

/// What a program's query of a counter or a register finds at the calls of a view. It takes no memory.
pub fn value_of<V: View>(p: &Program, h: &History, view: &V, query: u32, args: &[Value]) -> Found
    ensures { result ≡ spec.found_in (spec.answer_in (program_view p.now) query (calls_view h.now) (set.contains (V.calls view.now)) (map value_view args.now)) }
{
    found(answer_of(p, h, view, query, args))
}
