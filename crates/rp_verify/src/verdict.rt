ghost use Rattle.std.specs.Prelude.{◌≡◌};
ghost use Rattle.rp_verify.specs.declared.verdict.GoalErr.TheVariants.{Memory as OutOfMemory};

use rp_lang::GoalName;
use rp_value::{List, Memory};
use thiserror::Error;

/// A goal that isn't proved, with its number from 1.
#[derive(Drop)]
pub struct Unproved {
    pub goal: u32,
    pub name: GoalName,
}

/// What `verify` finds of a program's goals.
#[derive(Drop)]
pub enum Verdict {
    Verified { goals: u32 },
    Unproved { goals: u32, list: List<Unproved> },
}

/// Why goals weren't tried.
#[derive(Clone, Copy, Debug, PartialEq, Eq, Error)]
pub enum GoalErr {
    #[error("a procedure has more than 1024 paths")]
    Paths { proc: u32 },
    #[error("the program has more than 2048 goals")]
    Goals,
    #[error("out of memory")]
    Memory,
}

impl From<Memory> for GoalErr {
    ghost from_gives = { λ _ e. e ≡ OutOfMemory };

    fn from(_: Memory) -> GoalErr {
        GoalErr::Memory
    }
}
