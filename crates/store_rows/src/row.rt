// The kinds of rows, and whether one is met.
ghost use Rattle.std.specs.Prelude.{◌<◌, length};

use crate::notation::{Word, call, cut, history, listed};
use crdt_defs::Found;
use crdt_lib::{
    History, ListView, View, atoms_of, holds, is_snapshot, query_holds, query_value, value_of,
};
use rp_lang::Program;
use rp_value::{List, Memory, Value};
use std::alloc::Global;

/// More than the number of any transaction of a row.
const TRANSACTIONS: usize = 10;

/// What an answer that is no truth value says: `none`, `@` and the call, or a sum.
fn found_in(answer: &str) -> Option<Found> {
    if answer == "none" {
        return Some(Found::Nothing);
    }
    match answer.strip_prefix('@') {
        Some(call) => Some(Found::At(u32::read(call)?)),
        None => Some(Found::Sum(answer.parse::<i128>().ok()?)),
    }
}

/// Whether `yes` or `no` says it.
fn is_said(answer: &str, holds: bool) -> bool {
    match answer {
        "yes" => holds,
        "no" => !holds,
        _ => false,
    }
}

/// Whether the program's query has this answer, and the query alone too.
fn is_answer(
    p: &Program,
    query: u32,
    h: &History,
    view: &ListView,
    args: &[Value],
    answer: &str,
) -> bool {
    let roots = p.roots.as_slice();
    let ops = p.ops.as_slice();
    let asked = p.queries.as_slice().get(query as usize);
    match found_in(answer) {
        Some(found) => {
            let alone = match asked {
                Some(asked) => query_value(roots, ops, asked, h, view, args),
                None => Found::Nothing,
            };
            value_of(p, h, view, query, args) == found && alone == found
        }
        None => {
            let alone = match asked {
                Some(asked) => query_holds(roots, ops, asked, h, view, args),
                None => false,
            };
            is_said(answer, holds(p, h, view, query, args)) && is_said(answer, alone)
        }
    }
}

/// The view of these calls, where they ascend.
fn view_of(alloc: Global, text: &str) -> Result<Option<ListView>, Memory> {
    let Some(calls) = listed::<u32>(alloc, text)? else {
        return Ok(None);
    };
    if !ListView::accepts(calls.as_slice()) {
        return Ok(None);
    }
    Ok(Some(ListView::new(calls)))
}

/// `CALLS | CALLS SEEN | ARGUMENTS | ANSWER`
fn is_answered(alloc: Global, p: &Program, query: u32, text: &str) -> Result<bool, Memory> {
    let (calls, text) = cut(text, '|');
    let (seen, text) = cut(text, '|');
    let (args, answer) = cut(text, '|');
    let Some(args) = listed::<Value>(alloc, args)? else {
        return Ok(false);
    };
    let Some(view) = view_of(alloc, seen)? else {
        return Ok(false);
    };
    let Some(h) = history(alloc, calls)? else {
        return Ok(false);
    };
    Ok(is_answer(p, query, &h, &view, args.as_slice(), answer))
}

/// The transactions of the list.
fn these(list: &[u32]) -> [bool; TRANSACTIONS] {
    let mut committed = [false; TRANSACTIONS];
    for tx in list {
        if (*tx as usize) < TRANSACTIONS {
            committed[*tx as usize] = true;
        }
    }
    committed
}

/// `CALLS | CALLS SEEN | TRANSACTIONS COMMITTED | ANSWER`
fn is_snapshot_told(alloc: Global, text: &str) -> Result<bool, Memory> {
    let (calls, text) = cut(text, '|');
    let (seen, text) = cut(text, '|');
    let (committed, answer) = cut(text, '|');
    let Some(committed) = listed::<u32>(alloc, committed)? else {
        return Ok(false);
    };
    let Some(view) = view_of(alloc, seen)? else {
        return Ok(false);
    };
    let Some(h) = history(alloc, calls)? else {
        return Ok(false);
    };
    Ok(is_said(answer, is_snapshot(&h, &these(committed.as_slice()), &view)))
}

/// `CALLS | CALL | ANSWER`: whether the history accepts the call.
fn is_accepted(alloc: Global, text: &str) -> Result<bool, Memory> {
    let (calls, text) = cut(text, '|');
    let (next, answer) = cut(text, '|');
    let Some(h) = history(alloc, calls)? else {
        return Ok(false);
    };
    let Some(next) = call(alloc, next, h.len())? else {
        return Ok(false);
    };
    Ok(is_said(answer, h.accepts(&next)))
}

/// `CALLS | NUMBER OF CALLS | CALL | OPERATION | CALLS BEFORE IT`
fn is_before_told(alloc: Global, text: &str) -> Result<bool, Memory> {
    let (calls, text) = cut(text, '|');
    let (len, text) = cut(text, '|');
    let (number, text) = cut(text, '|');
    let (op, before) = cut(text, '|');
    let Some(before) = view_of(alloc, before)? else {
        return Ok(false);
    };
    let Some(h) = history(alloc, calls)? else {
        return Ok(false);
    };
    let (Some(len), Some(d), Some(op)) = (u32::read(len), u32::read(number), u32::read(op)) else {
        return Ok(false);
    };
    if h.len() != len || d >= h.len() {
        return Ok(false);
    }
    Ok(h.call(d).op == op && is_before(&h, d, &before))
}

/// Whether the calls before d are those of the view.
fn is_before(h: &History, d: u32, before: &ListView) -> bool
    requires { d < length h.now }
{
    for c in 0..h.len() {
        if h.before(c, d) != before.has(c) {
            return false;
        }
    }
    true
}

/// `NUMBERS | HOW MANY | NUMBER | ANSWER`: whether the view of these numbers has the number; `refused`: they are none.
fn is_view_told(alloc: Global, text: &str) -> Result<bool, Memory> {
    let (numbers, text) = cut(text, '|');
    let (size, text) = cut(text, '|');
    let (number, answer) = cut(text, '|');
    let Some(view) = view_of(alloc, numbers)? else {
        return Ok(answer == "refused");
    };
    match (u32::read(size), u32::read(number)) {
        (Some(size), Some(number)) => {
            Ok(view.size() == size && is_said(answer, view.has(number)))
        }
        _ => Ok(false),
    }
}

/// `VALUES | TYPE | NUMBERS`: the numbers of the atoms of a type in a constructor's value with these fields.
fn are_atoms(alloc: Global, text: &str) -> Result<bool, Memory> {
    let (values, text) = cut(text, '|');
    let (ty, numbers) = cut(text, '|');
    let (Some(ty), Some(numbers)) = (u32::read(ty), listed::<u32>(alloc, numbers)?) else {
        return Ok(false);
    };
    let Some(args) = listed::<Value>(alloc, values)? else {
        return Ok(false);
    };
    let value = Value::Con { con: 3, args };
    let atoms: List<u32> = atoms_of(alloc, &value, ty)?;
    Ok(atoms.as_slice() == numbers.as_slice())
}

/// Whether a line's row is met, where it is a row.
pub(crate) fn is_met(
    alloc: Global,
    p: &Program,
    query: u32,
    line: &str,
) -> Result<Option<bool>, Memory> {
    let (kind, text) = cut(line, ' ');
    let met = match kind {
        "ask" => is_answered(alloc, p, query, text)?,
        "snapshot" => is_snapshot_told(alloc, text)?,
        "accepts" => is_accepted(alloc, text)?,
        "before" => is_before_told(alloc, text)?,
        "view" => is_view_told(alloc, text)?,
        "atoms" => are_atoms(alloc, text)?,
        _ => return Ok(None),
    };
    Ok(Some(met))
}
