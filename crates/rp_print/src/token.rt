//! Single tokens, each behind a space.

ghost use Rattle.std.specs.Prelude.{◌≡◌, ◌∷◌, [], ◌++◌, false, OnOk};
ghost use Rattle.rp_grammar.specs.Spelling.{spelling};
ghost use Rattle.rp_grammar.specs.Terminals as terminal;
ghost use Rattle.rp_print.specs.Printed.{followed, escape, written, separator};

use rp_grammar::{Symbol, Word, symbol_text, word_text};
use rp_value::Memory;

fn put(out: &mut Vec<u8>, text: &[u8]) -> Result<(), Memory>
    ensures { OnOk result (out.new.items ≡ out.old.items ++ 32 ∷ text.now) }
{
    out.push(b' ')?;
    out.extend_from_slice(text)?;
    Ok(())
}

/// A word that begins a line: no space stands before it.
pub fn put_first(out: &mut Vec<u8>, w: Word) -> Result<(), Memory>
    ensures { OnOk result (out.new.items ≡ out.old.items ++ spelling w) }
{
    out.extend_from_slice(word_text(w))?;
    Ok(())
}

pub fn put_word(out: &mut Vec<u8>, w: Word) -> Result<(), Memory>
    ensures { OnOk result (out.new.items ≡ out.old.items ++ followed (terminal.word w ∷ [])) }
{
    put(out, word_text(w))
}

pub fn put_symbol(out: &mut Vec<u8>, m: Symbol) -> Result<(), Memory>
    ensures { OnOk result (out.new.items ≡ out.old.items ++ followed (terminal.symbol m ∷ [])) }
{
    put(out, symbol_text(m))
}

/// What stands before the member of this number, from 0.
pub fn put_separator(out: &mut Vec<u8>, m: Symbol, i: usize) -> Result<(), Memory>
    ensures { OnOk result (out.new.items ≡ out.old.items ++ followed (separator m i)) }
{
    if i == 0 {
        return Ok(());
    }
    put_symbol(out, m)
}

pub fn put_name(out: &mut Vec<u8>, bytes: &[u8]) -> Result<(), Memory>
    ensures { OnOk result (out.new.items ≡ out.old.items
        ++ followed (terminal.name bytes.now ∷ [])) }
{
    put(out, bytes)
}

pub fn put_int(out: &mut Vec<u8>, n: u128) -> Result<(), Memory>
    ensures { OnOk result (out.new.items ≡ out.old.items ++ followed (terminal.int n ∷ [])) }
{
    let mut digits = itoa::Buffer::new();
    put(out, digits.format(n).as_bytes())
}

/// A byte of a string.
fn put_byte(out: &mut Vec<u8>, b: u8) -> Result<(), Memory>
    ensures { OnOk result (out.new.items ≡ out.old.items ++ written b) }
{
    if b == b'\n' {
        out.extend_from_slice(b"\\n")?;
        return Ok(());
    }
    if b == b'"' || b == b'\\' {
        out.push(b'\\')?;
    }
    out.push(b)?;
    Ok(())
}

fn put_escaped(out: &mut Vec<u8>, meant: &[u8]) -> Result<(), Memory>
    ensures { OnOk result (out.new.items ≡ out.old.items ++ escape meant.now) }
{
    for b in meant {
        put_byte(out, *b)?;
    }
    Ok(())
}

pub fn put_str(out: &mut Vec<u8>, meant: &[u8]) -> Result<(), Memory>
    ensures { OnOk result (out.new.items ≡ out.old.items
        ++ followed (terminal.str meant.now ∷ [])) }
{
    out.extend_from_slice(b" \"")?;
    put_escaped(out, meant)?;
    out.push(b'"')?;
    Ok(())
}
