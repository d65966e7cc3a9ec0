ghost use Rattle.std.specs.Prelude.{◌≡◌, ◌<◌, ◌≤◌, ◌↔◌, ◌⊎◌, length, Contains, IfOk, IfSome, IsErr, IsNone, IsOk, MatchOption};
ghost use Rattle.std.specs.declared.option.Option.TheVariants.{None, Some};
ghost use Rattle.std.specs.FinMap.{get};
ghost use Rattle.std.specs.Option.{option_map};
ghost use Rattle.rp_io.specs.Counts.{raised};
ghost use Rattle.rp_io.specs.Files.{Fetches};
ghost use Rattle.rp_io.specs.MemFiles.{FetchFails, after_fetch, contents_of, entries_of, names_of, sound_names};

use crate::{Failed, Files};
use std::marker::Model;

/// The content that stands first under the name.
fn content<'a>(files: &'a [(String, Vec<u8>)], name: &str) -> Option<&'a [u8]>
    ensures { get (contents_of (entries_of files.now)) name.now
        ≡ option_map (λ bytes. bytes.now) result }
{
    for (listed, bytes) in files {
        if name == listed.as_str() {
            return Some(bytes.as_slice());
        }
    }
    None
}

/// The content under the name, unless the call of this number is to fail.
fn content_at<'a>(
    files: &'a [(String, Vec<u8>)],
    failing: &[u64],
    call: u64,
    name: &str,
) -> Option<&'a [u8]>
    ensures fails { IsNone result ↔ (Contains failing.now call
        ⊎ (get (contents_of (entries_of files.now)) name.now ≡ None)) }
    ensures content { IfSome result (λ bytes.
        get (contents_of (entries_of files.now)) name.now ≡ Some bytes.now) }
{
    if failing.contains(&call) {
        None
    } else {
        content(files, name)
    }
}

/// Copies the content from a place on into the front of the buffer, as much as there is and fits.
fn copy_from(content: &[u8], from: u64, buf: &mut [u8]) -> usize
    requires { 0 < length buf.old }
    ensures within { result ≤ length buf.new }
    ensures content { Fetches content.now from result buf.new }
{
    let from = from as usize;
    if from >= content.len() {
        return 0;
    }
    let rest = &content[from..];
    let n = rest.len().min(buf.len());
    buf[..n].copy_from_slice(&rest[..n]);
    n
}

/// Files in memory. Their calls of the numbers in `failing`, from 0, fail, as does each call on a
/// name that isn't listed.
#[derive(Drop)]
pub struct MemFiles {
    files: Vec<(String, Vec<u8>)>,
    failing: Vec<u64>,
    calls: u64,
    faults: u64,
    given: u64,
}

impl Model for MemFiles {
    ghost use Rattle.rp_io.specs.MemFiles.{MemFilesState, entries_of};

    ghost Value = { MemFilesState };

    ghost view = { λ s. record {
      entries = entries_of s.files.items;
      failing = s.failing.items;
      calls = s.calls;
      faults = s.faults;
      given = s.given;
    } };
}

impl MemFiles {
    /// Of two entries of one name the first counts.
    pub fn new(files: Vec<(String, Vec<u8>)>, failing: Vec<u64>) -> MemFiles
        ensures { result ≡ record {
          entries = entries_of files.items;
          failing = failing.items;
          calls = 0;
          faults = 0;
          given = 0;
        } }
    {
        MemFiles {
            files,
            failing,
            calls: 0,
            faults: 0,
            given: 0,
        }
    }
}

impl Files for MemFiles {
    ghost told = { λ s. Some (contents_of s.entries) };

    ghost sound = { λ s. sound_names s.failing (names_of s.entries) };

    ghost faults = { λ s. s.faults };

    ghost given = { λ s. s.given };

    /// Fails exactly at the listed calls and on a name that isn't listed.
    fn fetch(&mut self, name: &str, from: u64, buf: &mut [u8]) -> Result<usize, Failed>
        requires { 0 < length buf.old }
        ensures failed { IsErr result ↔ FetchFails self.old name.now }
        ensures after { self.new ≡ after_fetch self.old result }
        ensures within { IfOk result (λ n. n ≤ length buf.new) }
        ensures content { IfOk result (λ n.
            IfSome (get (contents_of self.old.entries) name.now) (λ content.
            Fetches content from n buf.new)) }
        ensures sound_names { Contains (sound_names self.old.failing (names_of self.old.entries)) name.now
            → IsOk result }
    {
        let call = self.calls;
        self.calls = call.saturating_add(1);
        match content_at(&self.files, &self.failing, call, name) {
            Some(bytes) => {
                let n = copy_from(bytes, from, buf);
                self.given = self.given.saturating_add(n as u64);
                Ok(n)
            }
            None => {
                self.faults = self.faults.saturating_add(1);
                Err(Failed)
            }
        }
    }
}

/// Files in memory of which no call fails. A name that isn't listed has no bytes.
#[derive(Drop)]
pub struct SureFiles {
    files: Vec<(String, Vec<u8>)>,
    given: u64,
}

impl Model for SureFiles {
    ghost use Rattle.rp_io.specs.MemFiles.{SureFilesState, entries_of};

    ghost Value = { SureFilesState };

    ghost view = { λ s. record { entries = entries_of s.files.items; given = s.given } };
}

impl SureFiles {
    /// Of two entries of one name the first counts.
    pub fn new(files: Vec<(String, Vec<u8>)>) -> SureFiles
        ensures { result ≡ record { entries = entries_of files.items; given = 0 } }
    {
        SureFiles { files, given: 0 }
    }
}

impl Files for SureFiles {
    ghost told = { λ s. Some (contents_of s.entries) };

    ghost sound = { λ s. names_of s.entries };

    ghost faults = { λ _. 0 };

    ghost given = { λ s. s.given };

    /// Never fails, and gives no byte of a name that isn't listed.
    fn fetch(&mut self, name: &str, from: u64, buf: &mut [u8]) -> Result<usize, Failed>
        requires { 0 < length buf.old }
        ensures ok { IsOk result }
        ensures after { IfOk result (λ n.
            self.new ≡ record self.old { given = raised self.old.given n }) }
        ensures within { IfOk result (λ n. n ≤ length buf.new) }
        ensures content { IfOk result (λ n.
            MatchOption (get (contents_of self.old.entries) name.now) (n ≡ 0) (λ content.
            Fetches content from n buf.new)) }
    {
        match content(&self.files, name) {
            Some(bytes) => {
                let n = copy_from(bytes, from, buf);
                self.given = self.given.saturating_add(n as u64);
                Ok(n)
            }
            None => Ok(0),
        }
    }
}
