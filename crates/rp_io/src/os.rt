ghost use Rattle.std.specs.Prelude.{◌≡◌, ◌≤◌, [], length, IfOk};
ghost use Rattle.std.specs.declared.option.Option.TheVariants.{None};

use crate::{Failed, Files, Sink};
use std::io::{Print, Read, Seek, SeekFrom, Write};
use std::{fs, io};

/// Reads a file from a place on, until the buffer is full or the file ends.
fn read_from<R: fs::Files>(rt: &R, name: &str, from: u64, buf: &mut [u8]) -> io::Result<usize>
    ensures { IfOk result (λ n. n ≤ length buf.new) }
{
    let mut file = fs::open(rt, name)?;
    file.seek(SeekFrom::Start(from))?;
    let mut len = 0;
    'reads: while len < buf.len() {
        let n = file.read(&mut buf[len..])?;
        if n == 0 {
            break;
        }
        len += n;
    }
    Ok(len)
}

/// Writes all of the piece to the standard output.
fn write_whole<P: Print>(rt: &P, piece: &[u8]) -> io::Result<()> {
    let mut out = io::writer(rt);
    let mut rest = piece;
    'writes: while !rest.is_empty() {
        let n = out.write(rest)?;
        if n == 0 {
            return Err(io::Error::from(io::ErrorKind::WriteZero));
        }
        rest = &rest[n..];
    }
    Ok(())
}

/// The files of the operating system. Nothing is said of what they hold.
#[derive(Drop)]
pub struct OsFiles<'a, R: fs::Files> {
    rt: &'a R,
    faults: u64,
    given: u64,
}

impl<'a, R: fs::Files> OsFiles<'a, R> {
    pub fn new(rt: &'a R) -> Self
        ensures no_fault { ⟦<OsFiles<'a, R> as Files>⟧.faults result ≡ 0 }
        ensures none_given { ⟦<OsFiles<'a, R> as Files>⟧.given result ≡ 0 }
    {
        OsFiles {
            rt,
            faults: 0,
            given: 0,
        }
    }
}

impl<R: fs::Files> Files for OsFiles<'_, R> {
    ghost told = { λ _. None };

    ghost sound = { λ _. [] };

    ghost faults = { λ s. s.faults };

    ghost given = { λ s. s.given };

    fn fetch(&mut self, name: &str, from: u64, buf: &mut [u8]) -> Result<usize, Failed> {
        match read_from(self.rt, name, from, buf) {
            Ok(n) => {
                self.given = self.given.saturating_add(n as u64);
                Ok(n)
            }
            Err(_) => {
                self.faults = self.faults.saturating_add(1);
                Err(Failed)
            }
        }
    }
}

/// The standard output. Nothing is said of what it took.
#[derive(Drop)]
pub struct OsSink<'a, P: Print> {
    rt: &'a P,
    faults: u64,
}

impl<'a, P: Print> OsSink<'a, P> {
    pub fn new(rt: &'a P) -> Self
        ensures no_fault { ⟦<OsSink<'a, P> as Sink>⟧.faults result ≡ 0 }
    {
        OsSink { rt, faults: 0 }
    }
}

impl<P: Print> Sink for OsSink<'_, P> {
    ghost told = { λ _. None };

    ghost room = { λ _. None };

    ghost faults = { λ s. s.faults };

    fn put(&mut self, piece: &[u8]) -> Result<(), Failed> {
        match write_whole(self.rt, piece) {
            Ok(()) => Ok(()),
            Err(_) => {
                self.faults = self.faults.saturating_add(1);
                Err(Failed)
            }
        }
    }
}
