//! Work for a benchmark of the store: `store_bench WHAT CALLS REPEATS` makes a history of so many calls and asks one
//! thing of it so many times. What it prints tells that the answers were used; how long it takes is measured outside.
#![tactic(auto)]

mod history;
mod shape;

use crdt_defs::Found;
use crdt_lib::{History, ListView, is_snapshot, query_holds, query_value};
use history::{every_call, long_past, made};
use rp_lang::QueryKind;
use rp_value::{List, Memory, Value};
use shape::{Case, Shape, case_of, shape_of};
use std::alloc::Global;
use std::env;
use std::process::ExitCode;

/// 1 where the query holds or finds something.
fn ask(case: &Case, h: &History, view: &ListView) -> u32 {
    let roots = case.roots.as_slice();
    let ops = case.ops.as_slice();
    let args = case.args.as_slice();
    match case.query.kind {
        QueryKind::Contains | QueryKind::HasKey => {
            u32::from(query_holds(roots, ops, &case.query, h, view, args))
        }
        QueryKind::GetReg | QueryKind::GetSum => {
            match query_value(roots, ops, &case.query, h, view, args) {
                Found::Sum(_) | Found::At(_) => 1,
                Found::Nothing => 0,
            }
        }
    }
}

/// How many of the repeats of a query hold or find something.
fn ask_often(case: &Case, h: &History, view: &ListView, repeats: u32) -> u32 {
    let mut hits: u32 = 0;
    for _ in 0..repeats {
        hits = hits.wrapping_add(ask(case, h, view));
    }
    hits
}

/// How many of the repeats of the test say that all calls are a consistent snapshot.
fn test_often(h: &History, committed: &[bool], view: &ListView, repeats: u32) -> u32 {
    let mut hits: u32 = 0;
    for _ in 0..repeats {
        hits = hits.wrapping_add(u32::from(is_snapshot(h, committed, view)));
    }
    hits
}

/// How many calls a history without a call accepts and takes, one after the other, each with a past of all before it.
fn push_often(alloc: Global, repeats: u32) -> Result<u32, Memory> {
    let mut h = History::new(alloc);
    for _ in 0..repeats {
        let call = long_past(alloc, h.len())?;
        if h.accepts(&call) {
            h.push(call)?;
        }
    }
    Ok(h.len())
}

fn answers(alloc: Global, shape: Shape, calls: u32, repeats: u32) -> Result<u32, Memory> {
    let case = case_of(alloc, shape)?;
    let h = made(alloc, shape, calls)?;
    let view = every_call(alloc, h.len())?;
    match shape {
        Shape::Push => push_often(alloc, repeats),
        Shape::Snapshot => Ok(test_often(&h, &[true; 16_384], &view, repeats)),
        Shape::Adds | Shape::Removes | Shape::Counter | Shape::Nested | Shape::Deletes => {
            Ok(ask_often(&case, &h, &view, repeats))
        }
    }
}

/// The three words behind the program's name.
fn asked(rt: &HostRuntime) -> Option<(Shape, u32, u32)> {
    let Ok(words) = env::args(rt) else {
        return None;
    };
    let mut words = words.skip(1);
    let shape = shape_of(words.next()?.as_str())?;
    let calls = words.next()?.parse::<u32>().ok()?;
    let repeats = words.next()?.parse::<u32>().ok()?;
    Some((shape, calls, repeats))
}

fn main(rt: HostRuntime) -> ExitCode {
    let Some((shape, calls, repeats)) = asked(&rt) else {
        return ExitCode::from(2);
    };
    match answers(rt.alloc(), shape, calls, repeats) {
        Ok(hits) => match println!(rt; "{hits}") {
            Ok(()) => ExitCode::from(0),
            Err(_) => ExitCode::from(4),
        },
        Err(Memory) => ExitCode::from(5),
    }
}
