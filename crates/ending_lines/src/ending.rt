// The line of an end, and that of a limit.
ghost use Rattle.std.specs.Prelude.{◌≡◌, ◌++◌, ◌∷◌, [], codes, decimal, string_bytes, IfOk, OnOk};
ghost use Rattle.rp_lang.specs.ProgramView.{program_view};
ghost use Rattle.machine_state.specs.StepView.{what_view};
ghost use Rattle.replay.specs.Outcomes.{outcome_view};
ghost use Rattle.ending_lines.specs.Endings as spec;

use crate::refused::why_text;
use replay::Outcome;
use rp_lang::{LimitName, Program, Refusal, What};
use rp_span::{Text, line_of};
use rp_value::Memory;
use std::alloc::Global;

/// The end of a line that counts steps.
fn steps_end(steps: u32) -> &'static str
    ensures { result.now ≡ spec.steps_end steps }
{
    if steps == 1 { " step\n" } else { " steps\n" }
}

fn clean_line(alloc: Global, steps: u32) -> Result<Vec<u8>, Memory>
    ensures { IfOk result (λ line. line.items ≡ spec.clean_line steps) }
{
    let end = steps_end(steps);
    Ok(format!(in alloc; "clean: {steps}{end}")?.into_bytes())
}

/// Where an assertion stands.
fn assertion_text(alloc: Global, text: &Text, at: u32) -> Result<Vec<u8>, Memory>
    ensures { IfOk result (λ line. line.items ≡ spec.assertion_text text.now at) }
{
    let place = line_of(text, at.min(text.len() as u32));
    let line = place.line;
    let column = place.col;
    Ok(format!(in alloc; "assertion at {line}:{column}")?.into_bytes())
}

/// The name of an invariant.
fn name_of(p: &Program, inv: u32) -> &[u8]
    ensures { result.now ≡ spec.inv_name (program_view p.now) inv }
{
    match p.invs.as_slice().get(inv as usize) {
        Some(inv) => inv.name.as_slice(),
        None => &[],
    }
}

fn invariant_text(alloc: Global, p: &Program, inv: u32) -> Result<Vec<u8>, Memory>
    ensures { IfOk result (λ line. line.items ≡ spec.invariant_text (program_view p.now) inv) }
{
    let mut text = b"invariant ".as_slice().to_vec(alloc)?;
    text.extend_from_slice(name_of(p, inv))?;
    Ok(text)
}

/// What was violated, in words.
fn what_text(alloc: Global, text: &Text, p: &Program, what: What) -> Result<Vec<u8>, Memory>
    ensures { IfOk result (λ line. line.items ≡ spec.what_text text.now (program_view p.now) (what_view what)) }
{
    match what {
        What::Assertion(at) => assertion_text(alloc, text, at.from),
        What::Invariant(inv) => invariant_text(alloc, p, inv),
    }
}

/// The line that says it of a step.
fn step_line(alloc: Global, head: &str, step: u32, said: &[u8]) -> Result<Vec<u8>, Memory>
    ensures { IfOk result (λ line. line.items ≡ spec.step_line head.now step said.now) }
{
    let mut line = format!(in alloc; "{head}: step {step} ")?.into_bytes();
    line.extend_from_slice(said)?;
    line.push(b'\n')?;
    Ok(line)
}

/// The line that tells how a schedule ends. The text is that of the program.
pub fn ending_line(
    alloc: Global,
    text: &Text,
    p: &Program,
    end: &Outcome,
) -> Result<Vec<u8>, Memory>
    ensures { IfOk result (λ line. line.items
        ≡ spec.ending_line text.now (program_view p.now) (outcome_view end.now)) }
{
    match end {
        Outcome::Clean { steps } => clean_line(alloc, *steps),
        Outcome::Violated { step, what } => {
            step_line(
                alloc,
                "violated",
                *step,
                what_text(alloc, text, p, *what)?.as_slice(),
            )
        }
        Outcome::Refused { step, why } => {
            step_line(alloc, "refused", *step, why_text(alloc, p, why)?.as_slice())
        }
    }
}

/// The line of a limit that a step meets.
pub fn limit_line(alloc: Global, which: LimitName, step: u32) -> Result<Vec<u8>, Memory>
    ensures { IfOk result (λ line. line.items ≡ spec.limit_line which step) }
{
    let name = which.name();
    let number = which.number();
    Ok(format!(in alloc; "refused: limit {name} {number} at step {step}\n")?.into_bytes())
}
