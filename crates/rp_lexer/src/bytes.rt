//! Classes of bytes.

ghost use Rattle.std.specs.Prelude.{◌≡◌};
ghost use Rattle.rp_grammar.specs.Bytes.{is_blank, is_letter, is_digit, is_name_byte, is_plain, is_escaped};

pub(crate) fn is_blank(b: u8) -> bool
    ensures { result ≡ is_blank b }
{
    matches!(b, b' ' | b'\n' | b'\t' | b'\r')
}

pub(crate) fn is_letter(b: u8) -> bool
    ensures { result ≡ is_letter b }
{
    matches!(b, b'a'..=b'z' | b'A'..=b'Z' | b'_')
}

pub(crate) fn is_digit(b: u8) -> bool
    ensures { result ≡ is_digit b }
{
    matches!(b, b'0'..=b'9')
}

pub(crate) fn is_name_byte(b: u8) -> bool
    ensures { result ≡ is_name_byte b }
{
    is_letter(b) || is_digit(b)
}

// Stands for itself in a string.
pub(crate) fn is_plain(b: u8) -> bool
    ensures { result ≡ is_plain b }
{
    b >= 0x20 && b <= 0x7E && b != b'"' && b != b'\\'
}

// May follow a backslash in a string.
pub(crate) fn is_escaped(b: u8) -> bool
    ensures { result ≡ is_escaped b }
{
    matches!(b, b'"' | b'\\' | b'n')
}
