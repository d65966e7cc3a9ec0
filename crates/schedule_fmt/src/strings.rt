//! Strings at a place of a text.
ghost use Rattle.std.specs.Prelude.{◌≡◌, ◌++◌, true, false, IfOk, IsErrOf, Some, None, OnOk};
ghost use Rattle.schedule_fmt.specs.means.Reading as spec;
ghost use Rattle.schedule_fmt.specs.declared.stop.Stop.TheVariants as stop;

use crate::bytes::{is_escaped, is_plain};
use crate::stop::Stop;
use rp_value::{Bytes, List, Memory};
use std::alloc::Global;

/// Whether the byte may stand behind an opening quote, where a backslash may stand before it.
fn may_stand(escaped: bool, b: u8) -> bool
    ensures { result ≡ spec.may_stand escaped b }
{
    if escaped {
        is_escaped(b)
    } else {
        b == b'\\' || is_plain(b)
    }
}

/// Adds what the byte means.
fn add(bytes: &mut Bytes, escaped: bool, b: u8) -> Result<(), Memory>
    ensures { OnOk result (bytes.new ≡ bytes.old ++ spec.added_by escaped b) }
{
    if escaped {
        bytes.push(if b == b'n' { b'\n' } else { b })
    } else if b == b'\\' {
        Ok(())
    } else {
        bytes.push(b)
    }
}

/// The bytes of the string whose opening quote stands before the place, and the place behind its closing one.
pub(crate) fn string(alloc: Global, text: &[u8], from: usize) -> Result<(Bytes, usize), Stop>
    ensures found { IfOk result (λ r. spec.string text.now from ≡ Some r) }
    ensures none { IsErrOf result stop.Absent → spec.string text.now from ≡ None }
{
    let mut bytes = List::new(alloc);
    let mut escaped = false;
    let mut at = from;
    while at < text.len() {
        let b = text[at];
        if !escaped && b == b'"' {
            return Ok((bytes, at + 1));
        }
        if !may_stand(escaped, b) {
            return Err(Stop::Absent);
        }
        add(&mut bytes, escaped, b)?;
        escaped = !escaped && b == b'\\';
        at += 1;
    }
    Err(Stop::Absent)
}
