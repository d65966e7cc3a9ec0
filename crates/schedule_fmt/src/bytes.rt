//! Bytes, words and names at a place of a text.
ghost use Rattle.std.specs.Prelude.{◌≡◌, ◌≤◌, ◌<◌, length, drop, IsTrue, IfSome};
ghost use Rattle.std.specs.List.{prefix_len, position_from, list_all};
ghost use Rattle.rp_grammar.specs.Bytes as class;
ghost use Rattle.schedule_fmt.specs.means.Reading as spec;
ghost use Rattle.schedule_fmt.specs.Schedules.{is_name};

use memchr::memchr;

pub(crate) fn is_letter(b: u8) -> bool
    ensures { result ≡ class.is_letter b }
{
    matches!(b, b'a'..=b'z' | b'A'..=b'Z' | b'_')
}

pub(crate) fn is_digit(b: u8) -> bool
    ensures { result ≡ class.is_digit b }
{
    matches!(b, b'0'..=b'9')
}

pub(crate) fn is_name_byte(b: u8) -> bool
    ensures { result ≡ class.is_name_byte b }
{
    is_letter(b) || is_digit(b)
}

/// Whether it stands for itself in a string.
pub(crate) fn is_plain(b: u8) -> bool
    ensures { result ≡ class.is_plain b }
{
    b >= 0x20 && b <= 0x7E && b != b'"' && b != b'\\'
}

/// Whether it may follow a backslash in a string.
pub(crate) fn is_escaped(b: u8) -> bool
    ensures { result ≡ class.is_escaped b }
{
    matches!(b, b'"' | b'\\' | b'n')
}

/// What stands from the place on.
pub(crate) fn rest(text: &[u8], at: usize) -> &[u8]
    ensures { result.now ≡ drop at text.now }
{
    if at < text.len() { &text[at..] } else { &[] }
}

/// Whether the text ends at the place.
pub(crate) fn ends(text: &[u8], at: usize) -> bool
    ensures { result ≡ spec.ends text.now at }
{
    rest(text, at).is_empty()
}

/// Whether the byte stands at the place.
pub(crate) fn next_is(b: u8, text: &[u8], at: usize) -> bool
    ensures is { result ≡ spec.next_is b text.now at }
    ensures within { IsTrue result → at < length text.now }
{
    at < text.len() && text[at] == b
}

/// The place behind the word.
pub(crate) fn word(w: &[u8], text: &[u8], at: usize) -> Option<usize>
    ensures { result ≡ spec.word w.now text.now at }
{
    if rest(text, at).starts_with(w) {
        Some(at + w.len())
    } else {
        None
    }
}

fn name_len(bytes: &[u8]) -> usize
    ensures is { result ≡ prefix_len class.is_name_byte bytes.now }
    ensures within { result ≤ length bytes.now }
{
    let mut n = 0;
    while n < bytes.len() && is_name_byte(bytes[n]) {
        n += 1;
    }
    n
}

/// Whether it is a letter or `_`, and then letters, digits and `_`.
pub(crate) fn is_name(name: &[u8]) -> bool
    ensures { result ≡ is_name name.now }
{
    match name.split_first() {
        Some((first, more)) => is_letter(*first) && are_name_bytes(more),
        None => false,
    }
}

fn are_name_bytes(bytes: &[u8]) -> bool
    ensures { result ≡ list_all class.is_name_byte bytes.now }
{
    for b in bytes {
        if !is_name_byte(*b) {
            return false;
        }
    }
    true
}

/// The place behind the longest name.
pub(crate) fn name_end(text: &[u8], at: usize) -> Option<usize>
    ensures is { result ≡ spec.name_end text.now at }
    ensures within { IfSome result (λ to. (at ≤ to) × (to ≤ length text.now)) }
{
    let bytes = rest(text, at);
    if bytes.is_empty() || !is_letter(bytes[0]) {
        return None;
    }
    Some(at + 1 + name_len(&bytes[1..]))
}

/// The first newline from the place on.
pub(crate) fn newline(text: &[u8], from: usize) -> Option<usize>
    ensures is { result ≡ position_from spec.is_newline from (drop from text.now) }
    ensures within { IfSome result (λ end. (from ≤ end) × (end < length text.now)) }
{
    match memchr(b'\n', rest(text, from)) {
        Some(further) => Some(from + further),
        None => None,
    }
}
