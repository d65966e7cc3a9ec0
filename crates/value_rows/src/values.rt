//! Rows on places, values, lists and boxes.

use crate::words::{bytes_of, number};
use rp_span::{Text, line_of};
use rp_value::{Boxed, List, Memory, Value, copy_bytes, copy_list, copy_values};
use std::alloc::Global;

/// `TEXT BYTE`: the line and the column of the byte, and how long the text is.
pub(crate) fn place(alloc: Global, given: &str, out: &mut String) -> Result<(), Memory> {
    let (word, at) = given.split_once(' ').unwrap_or((given, ""));
    let bytes = bytes_of(alloc, word)?;
    if bytes.len() > 4_194_304 {
        return Ok(());
    }
    let text = Text::new(bytes);
    let at = number(at).min(text.len() as u32);
    let pos = line_of(&text, at);
    let (len, is_empty) = (text.bytes().len(), text.is_empty());
    write!(
        out,
        "{}:{} at {} of {len} {is_empty}",
        pos.line, pos.col, pos.byte
    )?;
    Ok(())
}

/// The value that a word writes: `"TEXT`, `TYPE#NUMBER` for an atom, `CONSTRUCTOR(` over all values that stand before it,
/// `call:NUMBER`, `inv:NUMBER`, or an integer.
fn value_of(alloc: Global, word: &str, before: &[Value]) -> Result<Value, Memory> {
    if let Some(text) = word.strip_prefix('"') {
        Ok(Value::Str(copy_bytes(alloc, text.as_bytes())?))
    } else if let Some(con) = word.strip_suffix('(') {
        Ok(Value::Con {
            con: number(con),
            args: copy_values(alloc, before)?,
        })
    } else if let Some((ty, num)) = word.split_once('#') {
        Ok(Value::Atom {
            ty: number(ty),
            num: number(num),
        })
    } else if let Some(call) = word.strip_prefix("call:") {
        Ok(Value::Call(number(call)))
    } else if let Some(inv) = word.strip_prefix("inv:") {
        Ok(Value::Inv(number(inv)))
    } else {
        Ok(Value::Int(i128::from(word.parse::<i64>().unwrap_or(0))))
    }
}

/// The values of a line. A constructor takes those before it.
fn values_of(alloc: Global, words: &str) -> Result<List<Value>, Memory> {
    let mut values = List::new(alloc);
    for word in words.split(' ') {
        let value = value_of(alloc, word, values.as_slice())?;
        if word.ends_with('(') {
            values = List::new(alloc);
        }
        values.push(value)?;
    }
    Ok(values)
}

/// Whether the values are the same. Where a copy of the one isn't the one, the answer is turned.
fn are_same(alloc: Global, one: &Value, other: &Value) -> Result<bool, Memory> {
    let copy = one.copy(alloc)?;
    let is_copied = copy.same(one) && copy.same(other) == one.same(other);
    Ok(is_copied == one.same(other))
}

/// `VALUES & VALUES`: whether the last values of the two lines are the same.
pub(crate) fn same(alloc: Global, given: &str, out: &mut String) -> Result<(), Memory> {
    let (one, other) = given.split_once(" & ").unwrap_or((given, ""));
    let ones = values_of(alloc, one)?;
    let others = values_of(alloc, other)?;
    if let (Some(one), Some(other)) = (ones.as_slice().last(), others.as_slice().last()) {
        let are_same = are_same(alloc, one, other)?;
        write!(out, "{are_same}")?;
    }
    Ok(())
}

/// The list of the numbers of a line.
fn numbers_of(alloc: Global, words: &str) -> Result<List<u32>, Memory> {
    let mut list = List::new(alloc);
    for word in words.split(' ') {
        if word != "none" {
            list.push(number(word))?;
        }
    }
    Ok(list)
}

/// `NUMBERS`: a list of them: how many, the first, the last and the greatest, then what is taken from its end.
pub(crate) fn list(alloc: Global, given: &str, out: &mut String) -> Result<(), Memory> {
    let mut list = numbers_of(alloc, given)?;
    if !list.is_empty() {
        let (count, first, last) = (list.count(), *list.get(0), list[list.len() - 1]);
        let most = list.iter().copied().max().unwrap_or(0);
        write!(out, "{count} {first} {last} {most}")?;
    }
    for _ in 0..=list.len() {
        write!(out, " {:?}", list.pop())?;
    }
    Ok(())
}

/// `WORD WORD`: whether lists of their bytes are equal.
pub(crate) fn bytes(alloc: Global, given: &str, out: &mut String) -> Result<(), Memory> {
    let (one, other) = given.split_once(' ').unwrap_or((given, ""));
    let bytes = Vec::from_slice(alloc, other.as_bytes())?;
    if bytes.len() > 1_000 {
        return Ok(());
    }
    let is_equal = copy_list(alloc, one.as_bytes())? == List::from_vec(bytes);
    write!(out, "{is_equal}")?;
    Ok(())
}

/// `NUMBER NUMBER`: what a box of the first shows twice, whether it equals one of the second, and what it gives back.
pub(crate) fn boxed(alloc: Global, given: &str, out: &mut String) -> Result<(), Memory> {
    let (one, other) = given.split_once(' ').unwrap_or((given, ""));
    let held: Boxed<u32> = Boxed::new(alloc, number(one))?;
    let is_equal = held == Boxed::new(alloc, number(other))?;
    let (shown, again, inner) = (*held.get(), *held, held.into_inner());
    write!(out, "{shown} {again} {is_equal} {inner}")?;
    Ok(())
}
