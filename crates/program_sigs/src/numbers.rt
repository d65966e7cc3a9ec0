//! The numbers of sorts and constructors in the signatures of a program. A number past what a list can hold is want of
//! memory: no signature so large is made.
ghost use Rattle.std.specs.Prelude.{◌≡◌, ◌+◌, IfOk};
ghost use Rattle.rp_lang.specs.ProgramView.{program_view};
ghost use Rattle.rp_symbols.specs.Numbers as spec;
ghost use Rattle.rp_symbols.specs.Signatures as sigs;

use rp_lang::Program;
use rp_value::{Memory, Ty};

/// The sum, where it fits.
pub fn plus(a: u32, b: u32) -> Result<u32, Memory>
    ensures { IfOk result (λ n. n ≡ a + b) }
{
    match a.checked_add(b) {
        Some(n) => Ok(n),
        None => Err(Memory),
    }
}

/// The sort of the datatype of this number.
pub fn data_sort(p: &Program, datatype: u32) -> Result<u32, Memory>
    ensures { IfOk result (λ n. n ≡ spec.data_sort (program_view p.now) datatype) }
{
    let first = plus(4, p.types.atoms.count())?;
    plus(first, datatype)
}

/// The sort of operations.
pub fn op_sort(p: &Program) -> Result<u32, Memory>
    ensures { IfOk result (λ n. n ≡ spec.op_sort (program_view p.now)) }
{
    data_sort(p, p.types.datatypes.count())
}

/// The sort of records.
pub fn info_sort(p: &Program) -> Result<u32, Memory>
    ensures { IfOk result (λ n. n ≡ spec.info_sort (program_view p.now)) }
{
    let operations = op_sort(p)?;
    plus(operations, 1)
}

/// The sort of outcomes.
pub fn outcome_sort(p: &Program) -> Result<u32, Memory>
    ensures { IfOk result (λ n. n ≡ spec.outcome_sort (program_view p.now)) }
{
    let operations = op_sort(p)?;
    plus(operations, 2)
}

/// The sort of a type's elements.
pub fn sort_of(p: &Program, ty: Ty) -> Result<u32, Memory>
    ensures { IfOk result (λ n. n ≡ sigs.sort_of (program_view p.now) ty) }
{
    match ty {
        Ty::Int => plus(2, p.types.atoms.count()),
        Ty::Str => plus(3, p.types.atoms.count()),
        Ty::Atom(n) => plus(2, n),
        Ty::Datatype(d) => data_sort(p, d),
        Ty::Call => Ok(0),
        Ty::Inv => Ok(1),
        Ty::Operation => op_sort(p),
        Ty::Info => info_sort(p),
        Ty::Outcome => outcome_sort(p),
    }
}

/// The constructor of the operation of this number.
pub fn op_con(p: &Program, op: u32) -> Result<u32, Memory>
    ensures { IfOk result (λ n. n ≡ spec.op_con (program_view p.now) op) }
{
    plus(p.cons.cons.count(), op)
}

/// The constructor of the records of the procedure of this number.
pub fn info_con(p: &Program, proc: u32) -> Result<u32, Memory>
    ensures { IfOk result (λ n. n ≡ spec.info_con (program_view p.now) proc) }
{
    let operations = op_con(p, p.ops.count())?;
    plus(operations, proc)
}

/// The constructor of an invocation that hasn't returned.
pub fn unreturned_con(p: &Program) -> Result<u32, Memory>
    ensures { IfOk result (λ n. n ≡ spec.unreturned_con (program_view p.now)) }
{
    info_con(p, p.procs.count())
}

/// The constructor of the outcomes of the procedure of this number.
pub fn outcome_con(p: &Program, proc: u32) -> Result<u32, Memory>
    ensures { IfOk result (λ n. n ≡ spec.outcome_con (program_view p.now) proc) }
{
    let first = plus(unreturned_con(p)?, 1)?;
    plus(first, proc)
}
