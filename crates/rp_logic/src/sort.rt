ghost use Rattle.std.specs.Prelude.{◌≡◌, IfOk};

use rp_value::{List, Memory, copy_list};
use std::alloc::Global;

/// A sort: elements with no structure, of which there may be none, all whole numbers, all lists of bytes, or the
/// terms of constructors, which are named by their numbers.
#[derive(Drop)]
pub enum Sort {
    Plain,
    Int,
    Str,
    Datatype(List<u32>),
}

/// A function, by the sorts of its arguments and of its result.
#[derive(Drop)]
pub struct FnDecl {
    pub args: List<u32>,
    pub result: u32,
}

/// A constructor, by its datatype and the sorts of its arguments.
#[derive(Drop)]
pub struct LogicCon {
    pub sort: u32,
    pub args: List<u32>,
}

/// A constant beside those of a signature, with its sort.
#[derive(Clone, Copy)]
pub struct NewConst {
    pub number: u32,
    pub sort: u32,
}

impl Sort {
    /// An equal sort.
    pub fn copy(&self, alloc: Global) -> Result<Sort, Memory>
        ensures { IfOk result (λ copy. copy ≡ self.now) }
    {
        match self {
            Sort::Plain => Ok(Sort::Plain),
            Sort::Int => Ok(Sort::Int),
            Sort::Str => Ok(Sort::Str),
            Sort::Datatype(cons) => Ok(Sort::Datatype(copy_list(alloc, cons.as_slice())?)),
        }
    }
}

impl FnDecl {
    /// An equal declaration.
    pub fn copy(&self, alloc: Global) -> Result<FnDecl, Memory>
        ensures { IfOk result (λ copy. copy ≡ self.now) }
    {
        Ok(FnDecl {
            args: copy_list(alloc, self.args.as_slice())?,
            result: self.result,
        })
    }
}

impl LogicCon {
    /// An equal constructor.
    pub fn copy(&self, alloc: Global) -> Result<LogicCon, Memory>
        ensures { IfOk result (λ copy. copy ≡ self.now) }
    {
        Ok(LogicCon {
            sort: self.sort,
            args: copy_list(alloc, self.args.as_slice())?,
        })
    }
}

pub fn copy_sorts(alloc: Global, sorts: &[Sort]) -> Result<List<Sort>, Memory>
    ensures { IfOk result (λ copies. copies ≡ sorts.now) }
{
    let mut copies = List::new(alloc);
    for sort in sorts {
        copies.push(sort.copy(alloc)?)?;
    }
    Ok(copies)
}

pub fn copy_fns(alloc: Global, fns: &[FnDecl]) -> Result<List<FnDecl>, Memory>
    ensures { IfOk result (λ copies. copies ≡ fns.now) }
{
    let mut copies = List::new(alloc);
    for decl in fns {
        copies.push(decl.copy(alloc)?)?;
    }
    Ok(copies)
}

pub fn copy_rels(alloc: Global, rels: &[List<u32>]) -> Result<List<List<u32>>, Memory>
    ensures { IfOk result (λ copies. copies ≡ rels.now) }
{
    let mut copies = List::new(alloc);
    for args in rels {
        copies.push(copy_list(alloc, args.as_slice())?)?;
    }
    Ok(copies)
}

pub fn copy_cons(alloc: Global, cons: &[LogicCon]) -> Result<List<LogicCon>, Memory>
    ensures { IfOk result (λ copies. copies ≡ cons.now) }
{
    let mut copies = List::new(alloc);
    for con in cons {
        copies.push(con.copy(alloc)?)?;
    }
    Ok(copies)
}
