// Truth values and numbers.
ghost use Rattle.std.specs.Prelude.{◌≡◌, ◌+ℤ◌, ◌-ℤ◌};
ghost use Rattle.rp_value.specs.ValueView.{value_view};
ghost use Rattle.rp_value.specs.Values.{Con, no_val, false_val};
ghost use Rattle.crdt_defs.specs.Truths as spec;
ghost use Rattle.crdt_truth.specs.Within.{SumFits, DifferenceFits};

use rp_value::{List, Value};
use std::alloc::Global;

/// The constructor without fields.
#[tactic(auto, using(rp_value::proofs::ValueViews::value_views))]
pub fn built(alloc: Global, con: u32) -> Value
    ensures { value_view result ≡ Con con no_val }
{
    Value::Con {
        con,
        args: List::new(alloc),
    }
}

pub fn false_value(alloc: Global) -> Value
    ensures { value_view result ≡ false_val }
{
    built(alloc, 0)
}

pub fn truth_value(alloc: Global, holds: bool) -> Value
    ensures { value_view result ≡ spec.truth_val holds }
{
    if holds {
        built(alloc, 1)
    } else {
        built(alloc, 0)
    }
}

/// The integer that a value is.
#[tactic(auto, using(rp_value::proofs::ValueViews::value_views))]
pub fn number(value: &Value) -> i128
    ensures { result ≡ spec.number (value_view value.now) }
{
    match value {
        Value::Int(n) => *n,
        Value::Str(_) => 0,
        Value::Atom { .. } => 0,
        Value::Con { .. } => 0,
        Value::Call(_) => 0,
        Value::Inv(_) => 0,
    }
}

/// A sum of 128 bits.
pub fn plus(a: i128, b: i128) -> i128
    requires { SumFits a b }
    ensures { result ≡ (a +ℤ b) }
{
    a + b
}

/// A difference of 128 bits.
pub fn minus(a: i128, b: i128) -> i128
    requires { DifferenceFits a b }
    ensures { result ≡ (a -ℤ b) }
{
    a - b
}
