ghost use Rattle.std.specs.Prelude.{◌≡◌, IfOk};

use rp_value::{List, Memory, Value, copy_list, copy_values};
use std::alloc::Global;

/// One step of a run. A list `sees` is strictly ascending.
#[derive(Drop)]
pub enum Step {
    Invoke {
        proc: u32,
        args: List<Value>,
    },
    Begin {
        inv: u32,
        stamp: u64,
        sees: List<u32>,
    },
    Op {
        inv: u32,
        stamp: u64,
    },
    Local {
        inv: u32,
    },
    New {
        inv: u32,
        id: Value,
    },
    Commit {
        inv: u32,
    },
    Return {
        inv: u32,
    },
    Fail {
        inv: u32,
    },
    Check {
        sees: List<u32>,
    },
}

/// What an invocation does next.
#[derive(Clone, Copy, PartialEq, Eq)]
pub enum Action {
    Begin,
    Op,
    Local,
    New,
    Commit,
    Return,
}

impl Step {
    /// An equal step.
    pub fn copy(&self, alloc: Global) -> Result<Step, Memory>
        ensures { IfOk result (λ copy. copy ≡ self.now) }
    {
        match self {
            Step::Invoke { proc, args } => Ok(Step::Invoke {
                proc: *proc,
                args: copy_values(alloc, args.as_slice())?,
            }),
            Step::Begin { inv, stamp, sees } => Ok(Step::Begin {
                inv: *inv,
                stamp: *stamp,
                sees: copy_list(alloc, sees.as_slice())?,
            }),
            Step::Op { inv, stamp } => Ok(Step::Op {
                inv: *inv,
                stamp: *stamp,
            }),
            Step::Local { inv } => Ok(Step::Local { inv: *inv }),
            Step::New { inv, id } => Ok(Step::New {
                inv: *inv,
                id: id.copy(alloc)?,
            }),
            Step::Commit { inv } => Ok(Step::Commit { inv: *inv }),
            Step::Return { inv } => Ok(Step::Return { inv: *inv }),
            Step::Fail { inv } => Ok(Step::Fail { inv: *inv }),
            Step::Check { sees } => Ok(Step::Check {
                sees: copy_list(alloc, sees.as_slice())?,
            }),
        }
    }
}
