//! Identifiers inside of a term, by the constructors of datatypes.
ghost use Rattle.std.specs.Prelude.{◌≡◌, ◌<◌, ◌++◌, IfOk, get_or, OnOk, map, length, slice_get};
ghost use Rattle.rp_lang.specs.ProgramView.{program_view};
ghost use Rattle.rp_logic.specs.Views.{formula_view};
ghost use Rattle.crdt_defs.specs.Fitting as fitting;
ghost use Rattle.hist_struct.specs.Conditions as conditions;
ghost use Rattle.hist_struct.specs.Axioms as spec;
ghost use Rattle.place_axioms.specs.Spots.{spot_view};
ghost use Rattle.place_axioms.specs.means.Below as means;

use crate::spots::Spot;
use axiom_forms::id_rel;
use program_sigs::plus;
use rp_lang::Program;
use rp_logic::Fml;
use rp_value::{AtomType, List, Memory, Ty};
use std::alloc::Global;

/// Whether the type of this number is one of identifiers.
fn names_ids(atoms: &[AtomType], ty: u32) -> bool
    ensures { result ≡ fitting.names_ids (slice_get atoms.now ty) }
{
    match atoms.get(ty as usize) {
        Some(atom) => atom.is_id,
        None => false,
    }
}

/// The constructors of a datatype, none where there is none of this number.
fn cons_of(p: &Program, d: u32) -> &[u32]
    ensures { result.now ≡ conditions.cons_of (slice_get p.now.types.datatypes d) }
{
    match p.types.datatypes.as_slice().get(d as usize) {
        Some(data) => data.cons.as_slice(),
        None => &[],
    }
}

/// The types of a constructor's fields, none where there is none of this number.
fn fields_of(p: &Program, con: u32) -> &[Ty]
    ensures { result.now ≡ fitting.fields_of (slice_get p.now.cons.cons con) }
{
    match p.cons.cons.as_slice().get(con as usize) {
        Some(decl) => decl.fields.as_slice(),
        None => &[],
    }
}

/// The type at a place.
fn field(fields: &[Ty], place: usize) -> Ty
    requires { place < length fields.now }
    ensures { result ≡ get_or fields.now place result }
{
    fields[place]
}

/// How many fields there are.
fn count_of(fields: &[Ty]) -> Result<u32, Memory>
    ensures { IfOk result (λ n. n ≡ length fields.now) }
{
    if fields.len() > u32::MAX as usize {
        return Err(Memory);
    }
    Ok(fields.len() as u32)
}

/// Of the term itself, if it is an identifier.
fn push_atom(
    alloc: Global,
    axioms: &mut List<Fml>,
    p: &Program,
    sort: u32,
    kind: u32,
    ty: u32,
    spot: &Spot,
) -> Result<(), Memory>
    ensures { OnOk result (map formula_view axioms.new ≡ map formula_view axioms.old ++ means.of_atom (program_view p.now) sort kind (spot_view spot.now).given ty (spot_view spot.now).term) }
{
    if !names_ids(p.types.atoms.as_slice(), ty) {
        return Ok(());
    }
    axioms.push(spot.told(alloc, sort, id_rel(p, ty, kind)?)?)?;
    Ok(())
}

/// Of the identifiers in the term, which is of the type, below so many datatypes.
#[cycle(push_type)]
fn push_type(
    alloc: Global,
    axioms: &mut List<Fml>,
    p: &Program,
    sort: u32,
    kind: u32,
    fuel: u32,
    ty: &Ty,
    spot: &Spot,
) -> Result<(), Memory>
    ensures { OnOk result (map formula_view axioms.new ≡ map formula_view axioms.old ++ means.below (program_view p.now) sort kind fuel (spot_view spot.now).given ty.now (spot_view spot.now).term) }
{
    if fuel == 0 {
        return Ok(());
    }
    match *ty {
        Ty::Atom(k) => push_atom(alloc, axioms, p, sort, kind, k, spot),
        Ty::Datatype(d) => push_cons(alloc, axioms, p, sort, kind, fuel - 1, cons_of(p, d), spot),
        _ => Ok(()),
    }
}

/// So by each of these constructors.
#[cycle(push_type)]
fn push_cons(
    alloc: Global,
    axioms: &mut List<Fml>,
    p: &Program,
    sort: u32,
    kind: u32,
    fuel: u32,
    cons: &[u32],
    spot: &Spot,
) -> Result<(), Memory>
    ensures { OnOk result (map formula_view axioms.new ≡ map formula_view axioms.old ++ spec.in_cons (program_view p.now) (means.below (program_view p.now) sort kind fuel) (spot_view spot.now).given cons.now (spot_view spot.now).term) }
{
    for con in cons {
        push_con(alloc, axioms, p, sort, kind, fuel, *con, spot)?;
    }
    Ok(())
}

/// So by this constructor.
#[cycle(push_type)]
fn push_con(
    alloc: Global,
    axioms: &mut List<Fml>,
    p: &Program,
    sort: u32,
    kind: u32,
    fuel: u32,
    con: u32,
    spot: &Spot,
) -> Result<(), Memory>
    ensures { OnOk result (map formula_view axioms.new ≡ map formula_view axioms.old ++ spec.of_con (means.below (program_view p.now) sort kind fuel) (spot_view spot.now).given con (fitting.fields_of (slice_get (program_view p.now).cons.cons con)) (spot_view spot.now).term) }
{
    push_fields(
        alloc,
        axioms,
        p,
        sort,
        kind,
        fuel,
        con,
        fields_of(p, con),
        spot,
    )
}

/// So in each of the constructor's fields.
#[cycle(push_type)]
pub fn push_fields(
    alloc: Global,
    axioms: &mut List<Fml>,
    p: &Program,
    sort: u32,
    kind: u32,
    fuel: u32,
    con: u32,
    fields: &[Ty],
    spot: &Spot,
) -> Result<(), Memory>
    ensures { OnOk result (map formula_view axioms.new ≡ map formula_view axioms.old ++ spec.of_con (means.below (program_view p.now) sort kind fuel) (spot_view spot.now).given con fields.now (spot_view spot.now).term) }
{
    let places = count_of(fields)?;
    let mut i = 0;
    for place in 0..fields.len() {
        let ty = field(fields, place);
        let part = Spot::Part(con, places, i, &*spot);
        push_type(alloc, axioms, p, sort, kind, fuel, &ty, &part)?;
        i = plus(i, 1)?;
    }
    Ok(())
}
