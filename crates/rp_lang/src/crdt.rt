use rp_value::{Boxed, Bytes, List, Ty};

/// A replicated data type. A map has its keys' type and what it holds at each key.
#[cycle(crdt)]
#[derive(Drop)]
pub enum Crdt {
    /// A set where an element added and removed concurrently stays.
    SetAw(Ty),
    /// A set where an element added and removed concurrently goes.
    SetRw(Ty),
    /// A register with one value, that of the last assignment.
    Reg(Ty),
    /// A register with the values of all assignments that no later one replaced.
    MvReg(Ty),
    Counter,
    /// A map where an update that is concurrent to a delete stays.
    MapUw(Ty, Boxed<Crdt>),
    /// A map where an update that is concurrent to a delete goes.
    MapDw(Ty, Boxed<Crdt>),
    Struct(List<Field>),
}

/// A named part of a `Crdt::Struct`.
#[cycle(crdt)]
#[derive(Drop)]
pub struct Field {
    pub name: Bytes,
    pub crdt: Crdt,
}
