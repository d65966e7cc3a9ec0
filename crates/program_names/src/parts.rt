//! The names of numbered parts, and the types that they ask. A number past the last has the empty name, and asks none.
ghost use Rattle.std.specs.Prelude.{◌≡◌, slice_get};
ghost use Rattle.rp_lang.specs.ProgramView.{program_view};
ghost use Rattle.rp_lang.specs.Types.{fields_of};
ghost use Rattle.rp_lang.specs.Typing.{proc_params};
ghost use Rattle.program_names.specs.Called as spec;

use rp_lang::Program;
use rp_value::Ty;

pub fn atom_name(p: &Program, ty: u32) -> &[u8]
    ensures { result.now ≡ spec.atom_name (program_view p.now) ty }
{
    match p.types.atoms.as_slice().get(ty as usize) {
        Some(atom) => atom.name.as_slice(),
        None => &[],
    }
}

pub fn con_name(p: &Program, con: u32) -> &[u8]
    ensures { result.now ≡ spec.con_name (program_view p.now) con }
{
    match p.cons.cons.as_slice().get(con as usize) {
        Some(con) => con.name.as_slice(),
        None => &[],
    }
}

/// The types of the constructor's fields.
pub fn con_fields(p: &Program, con: u32) -> &[Ty]
    ensures { result.now ≡ fields_of p.now.cons con }
{
    match p.cons.cons.as_slice().get(con as usize) {
        Some(con) => con.fields.as_slice(),
        None => &[],
    }
}

#[tactic(auto, using(rp_lang::proofs::ProcViews::proc_at))]
pub fn proc_name(p: &Program, proc: u32) -> &[u8]
    ensures { result.now ≡ spec.proc_name (program_view p.now) proc }
{
    match p.procs.as_slice().get(proc as usize) {
        Some(proc) => proc.name.as_slice(),
        None => &[],
    }
}

/// The types of the procedure's parameters.
#[tactic(auto, using(rp_lang::proofs::ProcViews::proc_at))]
pub fn params_of(p: &Program, proc: u32) -> &[Ty]
    ensures { result.now ≡ proc_params (slice_get (program_view p.now).procs proc) }
{
    match p.procs.as_slice().get(proc as usize) {
        Some(proc) => proc.params.as_slice(),
        None => &[],
    }
}
