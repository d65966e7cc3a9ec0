// Identifiers and opaque values that are known from results.
ghost use Rattle.std.specs.Prelude.{◌≡◌, [], ◌∷◌, OnOk, OnErr};
ghost use Rattle.rp_value.specs.Values.{Atom};
ghost use Rattle.rp_value.specs.ValueView.{value_view, values_view};
ghost use Rattle.crdt_defs.specs.Fitting.{atoms, atoms_in_fields};
ghost use Rattle.machine_returns.specs.Known.{Extends, Knows};

use machine_state::Table;
use machine_tests::has_atom;
use rp_value::{Memory, Value};

/// Notes those inside the value that aren't known, at the end.
#[cycle(note)]
#[tactic(auto, using(rp_value::proofs::ValueViews::value_views))]
fn note(known: &mut Table<Value>, value: &Value) -> Result<(), Memory>
    ensures extends { Extends known.old known.new }
    ensures knows { OnOk result (Knows known.old (atoms (value_view value.now)) known.new) }
{
    match value {
        Value::Atom { ty, num } => note_atom(known, *ty, *num),
        Value::Con { con: _con, args } => note_all(known, args.as_slice()),
        Value::Int(_n) => Ok(()),
        Value::Str(_bytes) => Ok(()),
        Value::Call(_c) => Ok(()),
        Value::Inv(_i) => Ok(()),
    }
}

/// Notes the identifier or opaque value, if it isn't known.
fn note_atom(known: &mut Table<Value>, ty: u32, num: u32) -> Result<(), Memory>
    ensures extends { Extends known.old known.new }
    ensures knows { OnOk result (Knows known.old (Atom ty num ∷ []) known.new) }
{
    if has_atom(known.as_slice(), ty, num) {
        return Ok(());
    }
    known.push(Value::Atom { ty, num })?;
    Ok(())
}

#[cycle(note)]
fn note_all(known: &mut Table<Value>, values: &[Value]) -> Result<(), Memory>
    ensures extends { Extends known.old known.new }
    ensures knows { OnOk result (Knows known.old (atoms_in_fields (values_view values.now)) known.new) }
{
    for value in values {
        note(known, value)?;
    }
    Ok(())
}

/// The identifiers and opaque values inside are known from now on. On `Memory` nothing changes.
pub(crate) fn learn(known: &mut Table<Value>, value: &Value) -> Result<(), Memory>
    ensures ok { OnOk result (Knows known.old (atoms (value_view value.now)) known.new) }
    ensures err { OnErr result (known.new ≡ known.old) }
{
    let before = known.count();
    if note(known, value).is_err() {
        known.cut(before);
        return Err(Memory);
    }
    Ok(())
}
