ghost use Rattle.std.specs.Prelude.{◌≡◌, IfOk, IsTrue, ◌↔◌};

use crate::list::{Bytes, List, copy_bytes};
use crate::memory::Memory;
use std::alloc::Global;

/// A value of a program. `Atom` has its type's number in a `TypeTable`, `Con` its constructor's in a `ConTable`.
#[derive(Drop)]
pub enum Value {
    Int(i128),
    Str(Bytes),
    Atom { ty: u32, num: u32 },
    Con { con: u32, args: List<Value> },
    Call(u32),
    Inv(u32),
}

impl Value {
    /// Whether the values are equal. It takes no memory.
    #[cycle(same)]
    pub fn same(&self, other: &Value) -> bool
        ensures { IsTrue result ↔ (self.now ≡ other.now) }
    {
        match (self, other) {
            (Value::Int(a), Value::Int(b)) => a == b,
            (Value::Str(a), Value::Str(b)) => a == b,
            (Value::Atom { ty: s, num: a }, Value::Atom { ty: t, num: b }) => s == t && a == b,
            (Value::Con { con: c, args: a }, Value::Con { con: d, args: b }) => c == d
                && same_all(a.as_slice(), b.as_slice()),
            (Value::Call(a), Value::Call(b)) => a == b,
            (Value::Inv(a), Value::Inv(b)) => a == b,
            _ => false,
        }
    }

    /// An equal value.
    #[cycle(copy)]
    pub fn copy(&self, alloc: Global) -> Result<Value, Memory>
        ensures { IfOk result (λ copy. copy ≡ self.now) }
    {
        match self {
            Value::Int(n) => Ok(Value::Int(*n)),
            Value::Str(bytes) => Ok(Value::Str(copy_bytes(alloc, bytes.as_slice())?)),
            Value::Atom { ty, num } => Ok(Value::Atom { ty: *ty, num: *num }),
            Value::Con { con, args } => Ok(Value::Con {
                con: *con,
                args: copy_values(alloc, args.as_slice())?,
            }),
            Value::Call(c) => Ok(Value::Call(*c)),
            Value::Inv(i) => Ok(Value::Inv(*i)),
        }
    }
}

#[cycle(same)]
fn same_all(a: &[Value], b: &[Value]) -> bool
    ensures { IsTrue result ↔ (a.now ≡ b.now) }
{
    if a.len() != b.len() {
        return false;
    }
    for i in 0..a.len() {
        if !a[i].same(&b[i]) {
            return false;
        }
    }
    true
}

/// The list of equal values.
#[cycle(copy)]
pub fn copy_values(alloc: Global, values: &[Value]) -> Result<List<Value>, Memory>
    ensures { IfOk result (λ copies. copies ≡ values.now) }
{
    let mut copies = List::new(alloc);
    for value in values {
        copies.push(value.copy(alloc)?)?;
    }
    Ok(copies)
}
