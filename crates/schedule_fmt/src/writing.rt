//! Texts of schedules and values.
ghost use Rattle.std.specs.Prelude.{◌≡◌, IfOk, map};
ghost use Rattle.rp_value.specs.ValueView.{value_view};
ghost use Rattle.rp_lang.specs.ProgramView.{program_view};
ghost use Rattle.schedule_fmt.specs.Texts as spec;
ghost use Rattle.schedule_fmt.specs.Views.{schedule_view};

use crate::printer::{put_schedule, put_value};
use crate::schedule::Schedule;
use rp_lang::Program;
use rp_value::{Bytes, List, Memory, Value};
use std::alloc::Global;

/// The greatest length of a `List`.
const MOST: usize = 4_294_967_294;

fn into_bytes(out: Vec<u8>) -> Result<Bytes, Memory>
    ensures { IfOk result (λ bytes. bytes ≡ out.items) }
{
    if out.len() > MOST {
        return Err(Memory);
    }
    Ok(List::from_vec(out))
}

/// The text of a schedule. `read` reads it as this schedule, where its numbers and names are those of the program, each
/// constructor in its values makes the type that its place asks, and it is within the limits.
pub fn write(alloc: Global, s: &Schedule, p: &Program) -> Result<Bytes, Memory>
    ensures { IfOk result (λ bytes. bytes ≡ spec.schedule_text (program_view p.now) (schedule_view s.now)) }
{
    let mut out = Vec::new(alloc);
    put_schedule(&mut out, p, s.universe, s.steps.as_slice())?;
    into_bytes(out)
}

/// The text of a value.
pub fn value_text(alloc: Global, p: &Program, value: &Value) -> Result<Bytes, Memory>
    ensures { IfOk result (λ bytes. bytes ≡ spec.value_text (program_view p.now) (value_view value.now)) }
{
    let mut out = Vec::new(alloc);
    put_value(&mut out, value, p)?;
    into_bytes(out)
}
