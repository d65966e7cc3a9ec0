use rp_value::{List, Value};

/// A call of a history. The past is strictly ascending.
#[derive(Drop)]
pub struct CallRec {
    /// The operation's number in the program.
    pub op: u32,
    pub args: List<Value>,
    pub inv: u32,
    pub tx: u32,
    pub stamp: u64,
    /// The calls that happen before this one.
    pub past: List<u32>,
}
