// Integers inside values.
ghost use Rattle.std.specs.Prelude.{◌≡◌, map};
ghost use Rattle.std.specs.List.{list_all};
ghost use Rattle.rp_value.specs.ValueView.{value_view, values_view};
ghost use Rattle.crdt_defs.specs.Atoms as spec;

use rp_value::Value;

fn in_range(n: i128) -> bool
    ensures { result ≡ spec.in_range n }
{
    -9_223_372_036_854_775_808 <= n && n <= 9_223_372_036_854_775_807
}

/// Whether each integer inside the value has 64 bits.
#[cycle(ints)]
#[tactic(auto, using(rp_value::proofs::ValueViews::value_views))]
pub fn ints_fit(value: &Value) -> bool
    ensures { result ≡ spec.ints_fit (value_view value.now) }
{
    match value {
        Value::Int(n) => in_range(*n),
        Value::Con { con: _, args } => fields_fit(args.as_slice()),
        Value::Str(_) => true,
        Value::Atom { .. } => true,
        Value::Call(_) => true,
        Value::Inv(_) => true,
    }
}

#[cycle(ints)]
fn fields_fit(values: &[Value]) -> bool
    ensures { result ≡ spec.all_ints_fit (values_view values.now) }
{
    for value in values {
        if !ints_fit(value) {
            return false;
        }
    }
    true
}

/// Whether each integer inside the values has 64 bits.
#[tactic(auto, using(crdt_lib::proofs::IntegerLemmas::ints_listed))]
pub fn all_ints_fit(values: &[Value]) -> bool
    ensures { result ≡ list_all spec.ints_fit (map value_view values.now) }
{
    fields_fit(values)
}
