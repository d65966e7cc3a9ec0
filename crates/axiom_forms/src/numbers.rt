//! The numbers of the relations of a program's signatures.
ghost use Rattle.std.specs.Prelude.{◌≡◌, ◌+◌, ◌*◌, take, if◌then◌else◌, IfOk};
ghost use Rattle.rp_lang.specs.ProgramView.{program_view};
ghost use Rattle.rp_symbols.specs.Numbers as spec;

use program_sigs::plus;
use rp_lang::Program;
use rp_value::{AtomType, Memory};

/// The number, and one more where that counts.
fn counted(n: u32, counts: bool) -> Result<u32, Memory>
    ensures { IfOk result (λ m. m ≡ n + (if counts then 1 else 0)) }
{
    if counts { plus(n, 1) } else { Ok(n) }
}

/// How many of the types are types of identifiers.
fn ids(atoms: &[AtomType]) -> Result<u32, Memory>
    ensures { IfOk result (λ n. n ≡ spec.ids atoms.now) }
{
    let mut count = 0;
    for atom in atoms {
        count = counted(count, atom.is_id)?;
    }
    Ok(count)
}

/// How many types of identifiers are before this type.
fn ids_before(atoms: &[AtomType], ty: u32) -> Result<u32, Memory>
    ensures { IfOk result (λ n. n ≡ spec.ids (take ty atoms.now)) }
{
    if (ty as usize) < atoms.len() {
        ids(&atoms[..ty as usize])
    } else {
        ids(atoms)
    }
}

/// Three times the number, where it fits.
fn three_times(n: u32) -> Result<u32, Memory>
    ensures { IfOk result (λ m. m ≡ 3 * n) }
{
    match n.checked_mul(3) {
        Some(m) => Ok(m),
        None => Err(Memory),
    }
}

/// The relation of the identifiers of this type that stand in operations (0), in arguments (1) or in results (2).
pub fn id_rel(p: &Program, ty: u32, kind: u32) -> Result<u32, Memory>
    ensures { IfOk result (λ n. n ≡ spec.id_rel (program_view p.now) ty kind) }
{
    let before = three_times(ids_before(p.types.atoms.as_slice(), ty)?)?;
    plus(9, plus(before, kind)?)
}

/// What the invocation sees from this begin on.
pub fn seen_rel(p: &Program, begin: u32) -> Result<u32, Memory>
    ensures { IfOk result (λ n. n ≡ spec.seen_rel (program_view p.now) begin) }
{
    let before = three_times(ids(p.types.atoms.as_slice())?)?;
    let place = plus(begin, begin)?;
    plus(9, plus(before, place)?)
}

/// What it reads right after that begin.
pub fn read_rel(p: &Program, begin: u32) -> Result<u32, Memory>
    ensures { IfOk result (λ n. n ≡ spec.read_rel (program_view p.now) begin) }
{
    let before = three_times(ids(p.types.atoms.as_slice())?)?;
    let place = plus(plus(begin, begin)?, 1)?;
    plus(9, plus(before, place)?)
}
