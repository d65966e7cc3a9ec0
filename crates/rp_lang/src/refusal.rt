use crate::step::Action;
use rp_value::Value;

/// Why a step was refused.
#[derive(Drop)]
pub enum Refusal {
    NoInvocation(u32),
    NotRunning(u32),
    /// The invocation does this next, and not what the step says.
    WrongPoint(Action),
    BadArgs,
    UnknownId(Value),
    NotCommitted(u32),
    NotClosed(u32),
    StampUsed(u64),
    StampLow(u64),
    NotFresh(Value),
    OutOfUniverse(Value),
}
