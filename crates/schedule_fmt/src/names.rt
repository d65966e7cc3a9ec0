//! Constructors whose names begin a text, and types that places ask.
ghost use Rattle.std.specs.Prelude.{◌≡◌, ◌≤◌, length, slice_get};
ghost use Rattle.rp_lang.specs.ProgramView.{program_view};
ghost use Rattle.schedule_fmt.specs.means.Reading as reading;

use crate::bytes::is_name;
use rp_lang::Program;
use rp_value::{ConDecl, Ty};

/// The length of the constructor's name where the bytes begin with it, else 0.
fn front_len(bytes: &[u8], con: &ConDecl) -> usize
    ensures is { result ≡ reading.front_len bytes.now con.now }
    ensures within { result ≤ length bytes.now }
{
    let name = con.name.as_slice();
    if is_name(name) && bytes.starts_with(name) {
        name.len()
    } else {
        0
    }
}

/// The length of the longest name of a constructor with which the bytes begin, or 0.
pub(crate) fn longest_name(p: &Program, bytes: &[u8]) -> usize
    ensures is { result ≡ reading.longest_name bytes.now (program_view p.now).cons.cons }
    ensures within { result ≤ length bytes.now }
{
    let mut longest = 0;
    for con in p.cons.cons.as_slice() {
        longest = front_len(bytes, con).max(longest);
    }
    longest
}

/// The type of this number, if there is one.
pub(crate) fn asked_at(tys: &[Ty], i: usize) -> Option<Ty>
    ensures { result ≡ slice_get tys.now i }
{
    match tys.get(i) {
        Some(ty) => Some(*ty),
        None => None,
    }
}
