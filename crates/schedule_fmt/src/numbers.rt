//! Numbers at a place of a text.
ghost use Rattle.std.specs.Prelude.{◌≡◌, ◌≤◌, drop, IfSome};
ghost use Rattle.schedule_fmt.specs.means.Reading as spec;

use crate::bytes::{is_digit, next_is};

/// Further digits behind a number, as long as it is at most `most`.
fn digits(text: &[u8], from: usize, first: u64, most: u64) -> (u64, usize)
    requires { first ≤ most }
    ensures is { result ≡ spec.digits_from most first (drop from text.now) from }
    ensures within { result.0 ≤ most }
{
    let mut value = first;
    let mut at = from;
    while at < text.len() {
        let b = text[at];
        if !is_digit(b) {
            return (value, at);
        }
        let next = value as u128 * 10 + (b - b'0') as u128;
        if next > most as u128 {
            return (value, at);
        }
        value = next as u64;
        at += 1;
    }
    (value, at)
}

/// The number at the place, as far as it is at most `most`, and the place behind it. A zero is a number alone.
pub(crate) fn number(text: &[u8], at: usize, most: u64) -> Option<(u64, usize)>
    requires { 9 ≤ most }
    ensures is { result ≡ spec.number most text.now at }
    ensures within { IfSome result (λ r. r.0 ≤ most) }
{
    if at >= text.len() {
        return None;
    }
    let b = text[at];
    if b == b'0' {
        return Some((0, at + 1));
    }
    if !is_digit(b) {
        return None;
    }
    Some(digits(text, at + 1, (b - b'0') as u64, most))
}

/// The greatest number of an invocation, a transaction, or an id or opaque value.
const MOST: u64 = 4_294_967_295;

/// The number below 2^32 at the place.
pub(crate) fn short_number(text: &[u8], at: usize) -> Option<(u32, usize)>
    ensures { result ≡ spec.number 4294967295 text.now at }
{
    match number(text, at, MOST) {
        Some((n, to)) => Some((n as u32, to)),
        None => None,
    }
}

/// The integer of 64 bits at the place.
pub(crate) fn int(text: &[u8], at: usize) -> Option<(i128, usize)>
    ensures { result ≡ spec.int text.now at }
{
    if next_is(b'-', text, at) {
        let (n, to) = number(text, at + 1, 9_223_372_036_854_775_808)?;
        if n == 0 {
            return None;
        }
        return Some((-(n as i128), to));
    }
    let (n, to) = number(text, at, 9_223_372_036_854_775_807)?;
    Some((n as i128, to))
}
