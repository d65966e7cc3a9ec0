// How numbers, values, calls and histories are written. A list has commas; `-`, or nothing, is the empty one.
use crdt_defs::CallRec;
use crdt_lib::History;
use rp_value::{List, Memory, Value};
use std::alloc::Global;

/// What stands before and behind the first such mark, without spaces around.
pub(crate) fn cut(text: &str, mark: char) -> (&str, &str) {
    match text.split_once(mark) {
        Some((first, rest)) => (first.trim(), rest.trim()),
        None => (text.trim(), ""),
    }
}

/// What a word stands for.
pub(crate) trait Word: Sized {
    fn read(word: &str) -> Option<Self>;
}

impl Word for u32 {
    fn read(word: &str) -> Option<u32> {
        word.parse::<u32>().ok()
    }
}

/// `3` is an integer, `#3` an identifier, and `2#3` an atom of type 2.
impl Word for Value {
    fn read(word: &str) -> Option<Value> {
        match word.split_once('#') {
            Some(("", num)) => Some(Value::Atom {
                ty: 0,
                num: u32::read(num)?,
            }),
            Some((ty, num)) => Some(Value::Atom {
                ty: u32::read(ty)?,
                num: u32::read(num)?,
            }),
            None => Some(Value::Int(word.parse::<i128>().ok()?)),
        }
    }
}

/// What a list of words stands for.
pub(crate) fn listed<T: Word + Drop>(alloc: Global, text: &str) -> Result<Option<List<T>>, Memory> {
    let mut list = List::new(alloc);
    if text.is_empty() || text == "-" {
        return Ok(Some(list));
    }
    for word in text.split(',') {
        match T::read(word) {
            Some(item) => list.push(item)?,
            None => return Ok(None),
        }
    }
    Ok(Some(list))
}

/// The number of an operation: 0 of `tx`, 1 of `a`, 2 of `b` and so on.
fn op_named(name: &str) -> Option<u32> {
    match name.as_bytes() {
        [b't', b'x'] => Some(0),
        [letter @ b'a'..=b'z'] => Some(u32::from(*letter - b'a') + 1),
        _ => None,
    }
}

/// The number that is written, or this one where none is.
fn number_or(text: &str, number: u32) -> Option<u32> {
    if text.is_empty() {
        return Some(number);
    }
    u32::read(text)
}

/// A call: the operation, its arguments in brackets, `/` and its transaction (else 0), which is its invocation too, `@`
/// and its stamp (else its number), `<` and its past.
pub(crate) fn call(alloc: Global, text: &str, number: u32) -> Result<Option<CallRec>, Memory> {
    let (text, past) = cut(text, '<');
    let (text, stamp) = cut(text, '@');
    let (text, tx) = cut(text, '/');
    let (name, args) = cut(text, '(');
    let args = args.strip_suffix(')').unwrap_or(args);
    let (Some(op), Some(tx), Some(stamp)) = (
        op_named(name),
        number_or(tx, 0),
        number_or(stamp, number),
    ) else {
        return Ok(None);
    };
    let (Some(args), Some(past)) = (listed::<Value>(alloc, args)?, listed::<u32>(alloc, past)?)
    else {
        return Ok(None);
    };
    Ok(Some(CallRec {
        op,
        args,
        inv: tx,
        tx,
        stamp: u64::from(stamp),
        past,
    }))
}

/// The history of these calls, where it accepts each.
pub(crate) fn history(alloc: Global, text: &str) -> Result<Option<History>, Memory> {
    let mut h = History::new(alloc);
    for word in text.split_whitespace() {
        let Some(next) = call(alloc, word, h.len())? else {
            return Ok(None);
        };
        if !h.accepts(&next) {
            return Ok(None);
        }
        h.push(next)?;
    }
    Ok(Some(h))
}
