// Which values fit a type.
ghost use Rattle.std.specs.Prelude.{◌≡◌, map, slice_get};
ghost use Rattle.rp_value.specs.declared.tables.Ty.TheVariants as ty;
ghost use Rattle.rp_value.specs.ValueView.{value_view, values_view};
ghost use Rattle.rp_lang.specs.Programs.{Prog};
ghost use Rattle.rp_lang.specs.ProgramView.{program_view};
ghost use Rattle.crdt_defs.specs.Fitting as spec;

use rp_lang::Program;
use rp_value::{Ty, Value};

fn makes(p: &Program, con: u32, datatype: u32) -> bool
    ensures { result ≡ spec.cons_to datatype (slice_get p.now.cons.cons con) }
{
    match p.cons.cons.as_slice().get(con as usize) {
        Some(decl) => decl.of == datatype,
        None => false,
    }
}

fn fields_of(p: &Program, con: u32) -> &[Ty]
    ensures { result.now ≡ spec.fields_of (slice_get p.now.cons.cons con) }
{
    match p.cons.cons.as_slice().get(con as usize) {
        Some(decl) => decl.fields.as_slice(),
        None => &[],
    }
}

#[tactic(auto, using(rp_value::proofs::ValueViews::value_views))]
fn is_integer(value: &Value) -> bool
    ensures { (p : Prog) → result ≡ spec.fits p ty.Int (value_view value.now) }
{
    match value {
        Value::Int(_) => true,
        Value::Str(_) => false,
        Value::Atom { .. } => false,
        Value::Con { .. } => false,
        Value::Call(_) => false,
        Value::Inv(_) => false,
    }
}

#[tactic(auto, using(rp_value::proofs::ValueViews::value_views))]
fn is_string(value: &Value) -> bool
    ensures { (p : Prog) → result ≡ spec.fits p ty.Str (value_view value.now) }
{
    match value {
        Value::Int(_) => false,
        Value::Str(_) => true,
        Value::Atom { .. } => false,
        Value::Con { .. } => false,
        Value::Call(_) => false,
        Value::Inv(_) => false,
    }
}

#[tactic(auto, using(rp_value::proofs::ValueViews::value_views))]
fn is_atom_of(value: &Value, of: u32) -> bool
    ensures { (p : Prog) → result ≡ spec.fits p (ty.Atom of) (value_view value.now) }
{
    match value {
        Value::Int(_) => false,
        Value::Str(_) => false,
        Value::Atom { ty, .. } => *ty == of,
        Value::Con { .. } => false,
        Value::Call(_) => false,
        Value::Inv(_) => false,
    }
}

/// Whether the value is of the datatype.
#[cycle(fits)]
#[tactic(auto, using(rp_value::proofs::ValueViews::value_views))]
fn is_made_of(value: &Value, p: &Program, datatype: u32) -> bool
    ensures { result ≡ spec.fits (program_view p.now) (ty.Datatype datatype) (value_view value.now) }
{
    match value {
        Value::Int(_) => false,
        Value::Str(_) => false,
        Value::Atom { .. } => false,
        Value::Con { con, args } => makes(p, *con, datatype)
            && all_fit(args.as_slice(), p, fields_of(p, *con)),
        Value::Call(_) => false,
        Value::Inv(_) => false,
    }
}

/// Whether the value is of the type.
#[cycle(fits)]
fn fits(value: &Value, p: &Program, of: Ty) -> bool
    ensures { result ≡ spec.fits (program_view p.now) of (value_view value.now) }
{
    match of {
        Ty::Int => is_integer(value),
        Ty::Str => is_string(value),
        Ty::Atom(atoms) => is_atom_of(value, atoms),
        Ty::Datatype(datatype) => is_made_of(value, p, datatype),
        Ty::Call => false,
        Ty::Inv => false,
        Ty::Operation => false,
        Ty::Info => false,
        Ty::Outcome => false,
    }
}

#[cycle(fits)]
#[tactic(auto, using(crate::proofs::FittingLemmas::fit_more, crate::proofs::FittingLemmas::none_fit))]
fn all_fit(values: &[Value], p: &Program, types: &[Ty]) -> bool
    ensures { result ≡ spec.fields_fit (program_view p.now) types.now (values_view values.now) }
{
    if values.len() != types.len() {
        return false;
    }
    for i in 0..values.len() {
        if !fits(&values[i], p, types[i]) {
            return false;
        }
    }
    true
}

/// Whether these are values of these types, one of each.
#[tactic(auto, using(crate::proofs::FittingLemmas::fields_listed))]
pub fn are_of(values: &[Value], p: &Program, types: &[Ty]) -> bool
    ensures { result ≡ spec.all_fit (program_view p.now) types.now (map value_view values.now) }
{
    all_fit(values, p, types)
}

/// Whether values of the type are identifiers.
pub fn names_ids(p: &Program, of: u32) -> bool
    ensures { result ≡ spec.names_ids (slice_get p.now.types.atoms of) }
{
    match p.types.atoms.as_slice().get(of as usize) {
        Some(decl) => decl.is_id,
        None => false,
    }
}
