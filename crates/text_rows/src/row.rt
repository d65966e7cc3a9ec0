//! A row, as it is written.

use rp_value::Memory;
use std::alloc::Global;

/// A row: its name, and the lines behind it.
#[derive(Clone, Copy)]
pub struct Row<'a> {
    pub name: &'a str,
    lines: &'a str,
}

/// What a line says behind a word and a blank.
fn behind<'a>(line: &'a str, word: &str) -> Option<&'a str> {
    line.strip_prefix(word)?.strip_prefix(' ')
}

fn number(digits: &str) -> usize {
    digits.parse::<usize>().unwrap_or(0)
}

/// Adds a piece so many times.
fn add_times(text: &mut Vec<u8>, piece: &[u8], times: usize) -> Result<(), Memory> {
    for _ in 0..times {
        text.extend_from_slice(piece)?;
    }
    Ok(())
}

/// Adds a line in which `%` is this number, and `$` the one before.
fn add_numbered(alloc: Global, text: &mut Vec<u8>, piece: &str, own: usize) -> Result<(), Memory> {
    let before = own.saturating_sub(1);
    let own = format!(in alloc; "{own}")?;
    let before = format!(in alloc; "{before}")?;
    for byte in piece.as_bytes() {
        match *byte {
            b'%' => text.extend_from_slice(own.as_bytes())?,
            b'$' => text.extend_from_slice(before.as_bytes())?,
            other => text.push(other)?,
        }
    }
    text.push(b'\n')?;
    Ok(())
}

/// Adds a line for each of the numbers between those that stand in front of the piece.
fn add_each(alloc: Global, text: &mut Vec<u8>, said: &str) -> Result<(), Memory> {
    let Some((first, rest)) = said.split_once(' ') else {
        return Ok(());
    };
    let Some((last, piece)) = rest.split_once(' ') else {
        return Ok(());
    };
    for own in number(first)..=number(last) {
        add_numbered(alloc, text, piece, own)?;
    }
    Ok(())
}

/// Adds what a line says of the text, and answers whether it says any of it.
fn add_part(alloc: Global, text: &mut Vec<u8>, line: &str) -> Result<bool, Memory> {
    if let Some(piece) = behind(line, "text") {
        text.extend_from_slice(piece.as_bytes())?;
    } else if let Some(piece) = behind(line, "line") {
        text.extend_from_slice(piece.as_bytes())?;
        text.push(b'\n')?;
    } else if let Some((times, piece)) = behind(line, "times").and_then(|said| said.split_once(
        ' ',
    )) {
        add_times(text, piece.as_bytes(), number(times))?;
    } else if let Some((times, byte)) = behind(line, "bytes").and_then(|said| said.split_once(
        ' ',
    )) {
        add_times(text, &[byte.parse::<u8>().unwrap_or(0)], number(times))?;
    } else if let Some(said) = behind(line, "each") {
        add_each(alloc, text, said)?;
    } else {
        return Ok(false);
    }
    Ok(true)
}

impl<'a> Row<'a> {
    /// The row that is written so, its name in the first line.
    pub fn new(written: &'a str) -> Row<'a> {
        match written.split_once('\n') {
            Some((name, lines)) => Row { name, lines },
            None => Row {
                name: written,
                lines: "",
            },
        }
    }

    /// What the first line says that begins with the word.
    pub fn said(&self, word: &str) -> Option<&'a str> {
        for line in self.lines.split('\n') {
            if let Some(said) = behind(line, word) {
                return Some(said);
            }
        }
        None
    }

    /// The number that the first line says that begins with the word.
    pub fn number(&self, word: &str) -> Option<usize> {
        self.said(word).map(number)
    }

    /// The numbers that the first line says that begins with the word.
    pub fn numbers(&self, alloc: Global, word: &str) -> Result<Vec<u64>, Memory> {
        let mut numbers = Vec::new(alloc);
        if let Some(said) = self.said(word) {
            for digits in said.split(' ') {
                numbers.push(number(digits) as u64)?;
            }
        }
        Ok(numbers)
    }

    /// The text: its parts, one behind the other, or the row's name, where no line says any.
    pub fn text(&self, alloc: Global) -> Result<Vec<u8>, Memory> {
        let mut text = Vec::new(alloc);
        let mut is_said = false;
        for line in self.lines.split('\n') {
            if add_part(alloc, &mut text, line)? {
                is_said = true;
            }
        }
        if !is_said {
            text.extend_from_slice(self.name.as_bytes())?;
        }
        Ok(text)
    }

    /// The schedule: its parts, one behind the other, if a line says any.
    pub fn schedule(&self, alloc: Global) -> Result<Option<Vec<u8>>, Memory> {
        let mut text = Vec::new(alloc);
        let mut is_said = false;
        for line in self.lines.split('\n') {
            if let Some(part) = behind(line, "schedule") {
                if add_part(alloc, &mut text, part)? {
                    is_said = true;
                }
            }
        }
        Ok(if is_said { Some(text) } else { None })
    }

    /// What all lines say that begin with the word, each in a line of its own.
    pub fn lines(&self, alloc: Global, word: &str) -> Result<Vec<u8>, Memory> {
        let mut lines = Vec::new(alloc);
        for line in self.lines.split('\n') {
            if let Some(said) = behind(line, word) {
                lines.extend_from_slice(said.as_bytes())?;
                lines.push(b'\n')?;
            }
        }
        Ok(lines)
    }

    /// Whether there is a line that says what is wanted.
    pub fn wants_something(&self) -> bool {
        self.said("tokens").is_some()
            || self.said("word").is_some()
            || self.said("symbol").is_some()
            || self.said("tree").is_some()
            || self.said("status").is_some()
    }
}
