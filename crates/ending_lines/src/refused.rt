// Why a step was refused, in words.
ghost use Rattle.std.specs.Prelude.{◌≡◌, ◌++◌, ◌∷◌, [], codes, decimal, string_bytes, IfOk};
ghost use Rattle.rp_value.specs.ValueView.{value_view};
ghost use Rattle.rp_lang.specs.ProgramView.{program_view};
ghost use Rattle.code_points.specs.ActionView.{action_view};
ghost use Rattle.machine_state.specs.StepView.{why_view};
ghost use Rattle.schedule_fmt.specs.Texts as schedules;
ghost use Rattle.ending_lines.specs.Endings as spec;

use rp_lang::{Action, Program, Refusal};
use rp_value::{Memory, Value};
use schedule_fmt::value_text;
use std::alloc::Global;

fn action_name(next: Action) -> &'static str
    ensures { result.now ≡ spec.action_name (action_view next) }
{
    match next {
        Action::Begin => "begin",
        Action::Op => "op",
        Action::Local => "local",
        Action::New => "new",
        Action::Commit => "commit",
        Action::Return => "return",
    }
}

/// Words, and a number behind them.
fn with_number(alloc: Global, words: &str, number: u64) -> Result<Vec<u8>, Memory>
    ensures { IfOk result (λ text. text.items ≡ words.now ++ decimal number) }
{
    Ok(format!(in alloc; "{words}{number}")?.into_bytes())
}

/// Words, and the text of a value behind them.
fn with_value(alloc: Global, p: &Program, words: &str, value: &Value) -> Result<Vec<u8>, Memory>
    ensures { IfOk result (λ text. text.items
        ≡ words.now ++ schedules.value_text (program_view p.now) (value_view value.now)) }
{
    let value = value_text(alloc, p, value)?;
    let mut text = words.as_bytes().to_vec(alloc)?;
    text.extend_from_slice(value.as_slice())?;
    Ok(text)
}

fn words(alloc: Global, words: &str) -> Result<Vec<u8>, Memory>
    ensures { IfOk result (λ text. text.items ≡ words.now) }
{
    Ok(words.as_bytes().to_vec(alloc)?)
}

/// What is said of a refused step.
pub fn why_text(alloc: Global, p: &Program, why: &Refusal) -> Result<Vec<u8>, Memory>
    ensures { IfOk result (λ text. text.items ≡ spec.why_text (program_view p.now) (why_view why.now)) }
{
    match why {
        Refusal::NoInvocation(i) => with_number(alloc, "no invocation ", u64::from(*i)),
        Refusal::NotRunning(i) => with_number(alloc, "not running ", u64::from(*i)),
        Refusal::WrongPoint(next) => {
            let name = action_name(*next);
            Ok(format!(in alloc; "wrong point, next is {name}")?.into_bytes())
        }
        Refusal::BadArgs => words(alloc, "bad args"),
        Refusal::UnknownId(id) => with_value(alloc, p, "unknown id ", id),
        Refusal::NotCommitted(tx) => with_number(alloc, "not committed ", u64::from(*tx)),
        Refusal::NotClosed(tx) => {
            with_number(alloc, "not closed, missing transaction ", u64::from(*tx))
        }
        Refusal::StampUsed(stamp) => with_number(alloc, "stamp used ", *stamp),
        Refusal::StampLow(stamp) => with_number(alloc, "stamp low, seen ", *stamp),
        Refusal::NotFresh(id) => with_value(alloc, p, "not fresh ", id),
        Refusal::OutOfUniverse(value) => with_value(alloc, p, "out of universe ", value),
    }
}
