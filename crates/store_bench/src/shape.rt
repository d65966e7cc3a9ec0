// What is asked, of which replicated type.
use rp_lang::{Crdt, OpDecl, OpKind, PathStep, QueryDecl, QueryKind, Root};
use rp_value::{Boxed, List, Memory, Ty, Value, copy_list};
use std::alloc::Global;

/// How many maps stand in each other.
const DEPTH: usize = 6;

#[derive(Clone, Copy)]
pub(crate) enum Shape {
    /// An add-wins set with adds alone.
    Adds,
    /// The same, with a remove in ten calls.
    Removes,
    Counter,
    /// A register under six keys.
    Nested,
    /// The same, with a delete of the outermost key in ten calls.
    Deletes,
    /// The test of a snapshot of all calls.
    Snapshot,
    /// Pushing calls with long pasts.
    Push,
}

pub(crate) fn shape_of(word: &str) -> Option<Shape> {
    match word {
        "adds" => Some(Shape::Adds),
        "removes" => Some(Shape::Removes),
        "counter" => Some(Shape::Counter),
        "nested" => Some(Shape::Nested),
        "deletes" => Some(Shape::Deletes),
        "snapshot" => Some(Shape::Snapshot),
        "push" => Some(Shape::Push),
        _ => None,
    }
}

/// A root with its operations, a query of it, and the query's arguments.
#[derive(Drop)]
pub(crate) struct Case {
    pub roots: List<Root>,
    pub ops: List<OpDecl>,
    pub query: QueryDecl,
    pub args: List<Value>,
}

fn op(alloc: Global, path: &[PathStep], kind: OpKind) -> Result<OpDecl, Memory> {
    Ok(OpDecl {
        root: 0,
        path: copy_list(alloc, path)?,
        kind,
        args: List::new(alloc),
    })
}

fn new_case(
    alloc: Global,
    crdt: Crdt,
    path: &[PathStep],
    kinds: (OpKind, OpKind),
    kind: QueryKind,
    args: usize,
) -> Result<Case, Memory> {
    let mut roots = List::new(alloc);
    roots.push(Root {
        name: List::new(alloc),
        crdt,
    })?;
    let mut ops = List::new(alloc);
    ops.push(op(alloc, &[], OpKind::Tx)?)?;
    ops.push(op(alloc, path, kinds.0)?)?;
    ops.push(op(alloc, &[], kinds.1)?)?;
    let mut zeros = List::new(alloc);
    for _ in 0..args {
        zeros.push(Value::Int(0))?;
    }
    Ok(Case {
        roots,
        ops,
        query: QueryDecl {
            root: 0,
            path: copy_list(alloc, path)?,
            kind,
            args: List::new(alloc),
            result: Ty::Int,
        },
        args: zeros,
    })
}

/// A register inside six maps.
fn nested(alloc: Global) -> Result<Crdt, Memory> {
    let mut crdt = Crdt::Reg(Ty::Int);
    for _ in 0..DEPTH {
        crdt = Crdt::MapUw(Ty::Int, Boxed::new(alloc, crdt)?);
    }
    Ok(crdt)
}

pub(crate) fn case_of(alloc: Global, shape: Shape) -> Result<Case, Memory> {
    match shape {
        Shape::Adds | Shape::Removes | Shape::Snapshot | Shape::Push => new_case(
            alloc,
            Crdt::SetAw(Ty::Int),
            &[],
            (OpKind::Add, OpKind::Remove),
            QueryKind::Contains,
            1,
        ),
        Shape::Counter => new_case(
            alloc,
            Crdt::Counter,
            &[],
            (OpKind::Increment, OpKind::Increment),
            QueryKind::GetSum,
            0,
        ),
        Shape::Nested | Shape::Deletes => new_case(
            alloc,
            nested(alloc)?,
            &[PathStep::Key(Ty::Int); DEPTH],
            (OpKind::Assign, OpKind::Delete),
            QueryKind::GetReg,
            DEPTH,
        ),
    }
}
