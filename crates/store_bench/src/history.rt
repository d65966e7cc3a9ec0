// Histories to ask things of.
use crate::shape::Shape;
use crdt_defs::CallRec;
use crdt_lib::{History, ListView};
use rp_value::{List, Memory, Value};
use std::alloc::Global;

/// How many calls a past has at most.
const PAST: u32 = 64;

fn zeros(alloc: Global, count: u32) -> Result<List<Value>, Memory> {
    let mut args = List::new(alloc);
    for _ in 0..count {
        args.push(Value::Int(0))?;
    }
    Ok(args)
}

/// The numbers from one up to another.
fn numbers(alloc: Global, from: u32, to: u32) -> Result<List<u32>, Memory> {
    let mut calls = List::new(alloc);
    for c in from..to {
        calls.push(c)?;
    }
    Ok(calls)
}

/// The operation of call number c and how many arguments it has. In each ten calls the fifth is the second operation,
/// where the shape has one.
fn doing(shape: Shape, c: u32) -> (u32, u32) {
    let is_tenth = c % 10 == 5;
    match shape {
        Shape::Adds | Shape::Counter | Shape::Snapshot | Shape::Push => (1, 1),
        Shape::Removes => if is_tenth { (2, 1) } else { (1, 1) },
        Shape::Nested => (1, 7),
        Shape::Deletes => if is_tenth { (2, 1) } else { (1, 7) },
    }
}

fn call(alloc: Global, op: u32, args: u32, c: u32, past: List<u32>) -> Result<CallRec, Memory> {
    Ok(CallRec {
        op,
        args: zeros(alloc, args)?,
        inv: 0,
        tx: c / 4,
        stamp: u64::from(c),
        past,
    })
}

/// A history of so many calls, each of which has seen the 64 calls before it.
pub(crate) fn made(alloc: Global, shape: Shape, calls: u32) -> Result<History, Memory> {
    let mut h = History::new(alloc);
    for _ in 0..calls {
        let c = h.len();
        let (op, args) = doing(shape, c);
        let past = numbers(alloc, c.saturating_sub(PAST), c)?;
        let next = call(alloc, op, args, c, past)?;
        if h.accepts(&next) {
            h.push(next)?;
        }
    }
    Ok(h)
}

/// The next call behind `calls` calls, which has seen all of them.
pub(crate) fn long_past(alloc: Global, calls: u32) -> Result<CallRec, Memory> {
    let past = numbers(alloc, 0, calls)?;
    call(alloc, 1, 1, calls, past)
}

/// The view of the first calls.
pub(crate) fn every_call(alloc: Global, calls: u32) -> Result<ListView, Memory> {
    let numbers = numbers(alloc, 0, calls)?;
    if ListView::accepts(numbers.as_slice()) {
        Ok(ListView::new(numbers))
    } else {
        Ok(ListView::new(List::new(alloc)))
    }
}
