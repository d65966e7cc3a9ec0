use crate::crdt::Crdt;
use rp_value::Bytes;

/// A replicated object of a program.
#[derive(Drop)]
pub struct Root {
    pub name: Bytes,
    pub crdt: Crdt,
}
