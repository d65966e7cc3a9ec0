use crate::symbol::Symbol;
use rp_value::List;

/// A term as a node: its symbol, and the numbers of its arguments.
#[derive(Drop)]
pub struct Node {
    pub symbol: Symbol,
    pub parts: List<u32>,
}
