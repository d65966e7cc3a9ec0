use crdt_lib::{History, ListView};
use rp_lang::Program;
use rp_value::{List, Value};

/// What became of an invocation.
#[derive(Drop)]
pub enum Outcome {
    Unreturned,
    /// It has returned without a value.
    Returned,
    ReturnedWith(Value),
}

/// An invocation, as far as an invariant may speak of it.
#[derive(Drop)]
pub struct Info {
    pub proc: u32,
    pub args: List<Value>,
    pub outcome: Outcome,
}

/// What an expression or a formula reads.
#[derive(Drop)]
pub struct Reading<'a> {
    pub program: &'a Program,
    /// How many identifiers there are of each type, and how many opaque values.
    pub universe: u32,
    pub history: &'a History,
    /// Of each transaction whether it is committed.
    pub committed: &'a [bool],
    pub infos: &'a [Info],
    /// The visible calls.
    pub view: &'a ListView,
    /// A slot without a value isn't set.
    pub slots: &'a [Option<Value>],
}
