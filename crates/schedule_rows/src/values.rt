//! Rows on values: what a text means, the longest value at a place, and what is written.
ghost use Rattle.std.specs.Prelude.{◌≤◌, length};

use crate::spelled::{line_text, text_of};
use rp_lang::{Program, Step};
use rp_value::{Memory, Ty, Value};
use schedule_fmt::{ValueAt, read, read_value, value_text};
use std::alloc::Global;

/// Appends a value in numbers: `7`, `TYPE#NUMBER`, `CONSTRUCTOR(VALUES)`, and the bytes of a string as numbers.
#[cycle(show)]
fn show(value: &Value, out: &mut String) -> Result<(), Memory> {
    match value {
        Value::Int(n) => write!(out, "{n}")?,
        Value::Str(bytes) => show_bytes(bytes.as_slice(), out)?,
        Value::Atom { ty, num } => write!(out, "{ty}#{num}")?,
        Value::Con { con, args } => {
            write!(out, "{con}(")?;
            show_all(args.as_slice(), out)?;
            out.push(')')?;
        }
        Value::Call(c) => write!(out, "call {c}")?,
        Value::Inv(i) => write!(out, "invocation {i}")?,
    }
    Ok(())
}

#[cycle(show)]
fn show_all(values: &[Value], out: &mut String) -> Result<(), Memory> {
    for (i, value) in values.iter().enumerate() {
        if i > 0 {
            out.push(' ')?;
        }
        show(value, out)?;
    }
    Ok(())
}

fn show_bytes(bytes: &[u8], out: &mut String) -> Result<(), Memory> {
    out.push('"')?;
    for b in bytes {
        write!(out, " {b}")?;
    }
    Ok(())
}

/// The arguments of an `invoke`, or the value of a `new`.
fn show_step(step: &Step, out: &mut String) -> Result<(), Memory> {
    match step {
        Step::Invoke { proc, args } => {
            write!(out, "{proc} of ")?;
            show_all(args.as_slice(), out)
        }
        Step::New { inv, id } => {
            write!(out, "{inv} gets ")?;
            show(id, out)
        }
        _ => Ok(()),
    }
}

/// `LINE`: what the values of a line mean, behind the number of its procedure or its invocation.
pub(crate) fn meant(
    alloc: Global,
    p: &Program,
    given: &str,
    out: &mut String,
) -> Result<(), Memory> {
    let text = line_text(alloc, given)?;
    let bytes = text.as_slice();
    if bytes.len() > 4_194_304 {
        return Ok(());
    }
    match read(alloc, bytes, p) {
        Ok(s) => {
            for step in s.steps.as_slice() {
                show_step(step, out)?;
            }
        }
        Err(_) => out.push_str("nothing")?,
    }
    Ok(())
}

/// Whether these bytes stand in the text from the one place up to the other.
fn stands(text: &[u8], from: usize, to: usize, bytes: &[u8]) -> bool {
    if to > text.len() {
        return false;
    }
    if from > to {
        return false;
    }
    &text[from..to] == bytes
}

/// The value and its end, and whether it is written as it stands.
fn show_found(
    alloc: Global,
    p: &Program,
    text: &[u8],
    from: u32,
    found: &ValueAt,
    out: &mut String,
) -> Result<(), Memory> {
    let again = value_text(alloc, p, &found.value)?;
    let is_same = stands(text, from as usize, found.to as usize, again.as_slice());
    show(&found.value, out)?;
    let to = found.to;
    write!(out, " to {to}")?;
    if !is_same {
        out.push_str(", written otherwise")?;
    }
    Ok(())
}

/// The type of a word: `int`, `string`, or `data` and a number.
fn ty_of(word: &str) -> Option<Ty> {
    match word {
        "int" => Some(Ty::Int),
        "string" => Some(Ty::Str),
        _ => Some(Ty::Datatype(word.strip_prefix("data")?.parse::<u32>().ok()?)),
    }
}

/// `TYPE FROM TEXT`: the longest value that stands at a place which asks the type.
pub(crate) fn longest(
    alloc: Global,
    p: &Program,
    given: &str,
    out: &mut String,
) -> Result<(), Memory> {
    let (ty, rest) = given.split_once(' ').unwrap_or((given, ""));
    let (from, text) = rest.split_once(' ').unwrap_or((rest, ""));
    let text = text_of(alloc, text)?;
    let bytes = text.as_slice();
    let (Some(ty), Ok(from)) = (ty_of(ty), from.parse::<u32>()) else {
        return Ok(());
    };
    if bytes.len() > 4_194_304 {
        return Ok(());
    }
    if from as usize > bytes.len() {
        return Ok(());
    }
    match read_value(alloc, p, ty, bytes, from)? {
        Some(found) => show_found(alloc, p, bytes, from, &found, out),
        None => {
            out.push_str("none")?;
            Ok(())
        }
    }
}

/// The integer, or the atom `TYPE#NUMBER`.
fn value_of(word: &str) -> Option<Value> {
    match word.split_once('#') {
        Some((ty, num)) => Some(Value::Atom {
            ty: ty.parse::<u32>().ok()?,
            num: num.parse::<u32>().ok()?,
        }),
        None => Some(Value::Int(word.parse::<i128>().ok()?)),
    }
}

/// `VALUE`: the text of an integer or an atom.
pub(crate) fn text(
    alloc: Global,
    p: &Program,
    given: &str,
    out: &mut String,
) -> Result<(), Memory> {
    let Some(value) = value_of(given) else {
        return Ok(());
    };
    for b in value_text(alloc, p, &value)?.as_slice() {
        out.push(char::from(*b))?;
    }
    Ok(())
}
