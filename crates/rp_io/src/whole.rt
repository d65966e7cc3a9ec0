ghost use Rattle.std.specs.Prelude.{◌≡◌, ◌≢◌, ◌+◌, ◌<◌, ◌≤◌, length, Contains, IfOk, IfSome, IsErrOf, OnOk};
ghost use Rattle.rp_io.specs.Counts.{Rose, raised};
ghost use Rattle.rp_io.specs.Files.{PrefixOfTold, content_of};
ghost use Rattle.rp_io.specs.declared.whole.ReadErr.TheVariants.{Memory as OutOfMemory};

use crate::{Failed, Files};
use rp_value::Memory;
use std::alloc::{AllocError, Global};
use thiserror::Error;

/// Why a file wasn't read.
#[derive(Clone, Copy, Debug, PartialEq, Eq, Error)]
pub enum ReadErr {
    /// A call failed.
    #[error("the file can't be read")]
    Failed,
    /// The file has more bytes than the limit.
    #[error("the file is too long")]
    TooLong,
    /// Memory ran out.
    #[error("out of memory")]
    Memory,
}

impl From<Memory> for ReadErr {
    ghost from_gives = { λ _ e. e ≡ OutOfMemory };

    fn from(_: Memory) -> ReadErr {
        ReadErr::Memory
    }
}

impl From<AllocError> for ReadErr {
    ghost from_gives = { λ _ e. e ≡ OutOfMemory };

    fn from(_: AllocError) -> ReadErr {
        ReadErr::Memory
    }
}

/// How many bytes one call asks for at most.
const PIECE: usize = 65_536;

/// Appends what one call gives of the file from the end of `bytes` on, and answers how many bytes: 0 is the end.
fn read_piece<F: Files>(
    files: &mut F,
    name: &str,
    bytes: &mut Vec<u8>,
    piece: &mut [u8],
) -> Result<usize, ReadErr>
    requires { 0 < length piece.old }
    ensures same_told { F.told files.new ≡ F.told files.old }
    ensures same_sound { F.sound files.new ≡ F.sound files.old }
    ensures within { IfOk result (λ n. n ≤ length piece.old) }
    ensures longer { IfOk result (λ n. length bytes.new.items ≡ length bytes.old.items + n) }
    ensures given { IfOk result (λ n. F.given files.new ≡ raised (F.given files.old) n) }
    ensures given_more { F.given files.old ≤ F.given files.new }
    ensures given_few { F.given files.new ≤ F.given files.old + length piece.old }
    ensures none_given { IsErrOf result ReadErr.Failed → F.given files.new ≡ F.given files.old }
    ensures prefix { OnOk result (PrefixOfTold (content_of (F.told files.old) name.now) bytes.old.items
        → PrefixOfTold (content_of (F.told files.old) name.now) bytes.new.items) }
    ensures all { IfOk result (λ n. n ≡ 0
        → PrefixOfTold (content_of (F.told files.old) name.now) bytes.old.items
        → IfSome (content_of (F.told files.old) name.now) (λ content. bytes.new.items ≡ content)) }
    ensures never_falls { F.faults files.old ≤ F.faults files.new }
    ensures no_fault { OnOk result (F.faults files.new ≡ F.faults files.old) }
    ensures no_fault_memory { IsErrOf result ReadErr.Memory
        → F.faults files.new ≡ F.faults files.old }
    ensures failed { IsErrOf result ReadErr.Failed → Rose (F.faults files.old) (F.faults files.new) }
    ensures sound_names { Contains (F.sound files.old) name.now → result ≢ Err ReadErr.Failed }
    ensures not_long { result ≢ Err ReadErr.TooLong }
{
    let from = bytes.len() as u64;
    match files.fetch(name, from, piece) {
        Ok(n) => {
            bytes.extend_from_slice(&piece[..n])?;
            Ok(n)
        }
        Err(Failed) => Err(ReadErr::Failed),
    }
}

/// The whole file, of at most `limit` bytes. No more than one byte past the limit is taken.
pub fn read_all<F: Files>(
    alloc: Global,
    files: &mut F,
    name: &str,
    limit: u32,
) -> Result<Vec<u8>, ReadErr>
    ensures content { IfOk result (λ bytes.
        IfSome (content_of (F.told files.old) name.now) (λ content. bytes.items ≡ content)) }
    ensures short { IfOk result (λ bytes. length bytes.items ≤ limit) }
    ensures too_long { IsErrOf result ReadErr.TooLong
        → IfSome (content_of (F.told files.old) name.now) (λ content. limit < length content) }

    // What is taken is what the files give in this call.
    ensures given { IfOk result (λ bytes.
        F.given files.new ≡ raised (F.given files.old) (length bytes.items)) }
    ensures given_too_long { IsErrOf result ReadErr.TooLong
        → F.given files.new ≡ raised (F.given files.old) (limit + 1) }
    ensures given_more { F.given files.old ≤ F.given files.new }
    ensures given_few { F.given files.new ≤ F.given files.old + (limit + 1) }
    ensures given_failed { IsErrOf result ReadErr.Failed
        → F.given files.new ≤ F.given files.old + limit }

    // A fault is one of the files, and none is passed over.
    ensures failed { IsErrOf result ReadErr.Failed → Rose (F.faults files.old) (F.faults files.new) }
    ensures sound_names { Contains (F.sound files.old) name.now → result ≢ Err ReadErr.Failed }
    ensures never_falls { F.faults files.old ≤ F.faults files.new }
    ensures no_fault { OnOk result (F.faults files.new ≡ F.faults files.old) }
    ensures no_fault_too_long { IsErrOf result ReadErr.TooLong
        → F.faults files.new ≡ F.faults files.old }
    ensures no_fault_memory { IsErrOf result ReadErr.Memory
        → F.faults files.new ≡ F.faults files.old }

    ensures same_told { F.told files.new ≡ F.told files.old }
    ensures same_sound { F.sound files.new ≡ F.sound files.old }
{
    let end = limit as usize + 1;
    let mut piece = vec![in alloc; 0u8; end.min(PIECE)]?;
    let mut bytes = Vec::new(alloc);
    'pieces: while bytes.len() < end {
        let most = piece.len().min(end - bytes.len());
        let n = read_piece(files, name, &mut bytes, &mut piece[..most])?;
        if n == 0 {
            return Ok(bytes);
        }
    }
    Err(ReadErr::TooLong)
}
