ghost use Rattle.std.specs.Prelude.{◌≡◌, ◌-◌, ◌≤◌, ◌++◌, [], length, IfOk};

use std::alloc::{AllocError, Global};
use std::marker::Model;

/// Bytes in memory that was taken first, and the room for more.
#[derive(Drop)]
pub(crate) struct Buffer {
    memory: Vec<u8>,
    len: usize,
}

impl Model for Buffer {
    ghost use Rattle.std.specs.Prelude.{◌-◌, ◌≤◌, length, take};
    ghost use Rattle.rp_io.specs.MemSinks.{BufferState};

    ghost Value = { BufferState };

    ghost view = { λ b. record { bytes = take b.len b.memory.items; left = length b.memory.items - b.len } };

    ghost invariant = { λ b. b.len ≤ length b.memory.items };
}

impl Buffer {
    /// No bytes and no room. It takes no memory.
    pub(crate) fn new(alloc: Global) -> Buffer
        ensures { result ≡ record { bytes = []; left = 0 } }
    {
        Buffer {
            memory: Vec::new(alloc),
            len: 0,
        }
    }

    pub(crate) fn with_room(alloc: Global, n: usize) -> Result<Buffer, AllocError>
        ensures { IfOk result (λ buffer. buffer ≡ record { bytes = []; left = n }) }
    {
        let memory = vec![in alloc; 0u8; n]?;
        Ok(Buffer { memory, len: 0 })
    }

    /// The bytes so far.
    pub(crate) fn bytes(&self) -> &[u8]
        ensures { result.now ≡ self.now.bytes }
    {
        &self.memory[..self.len]
    }

    /// How many more bytes there is room for.
    pub(crate) fn left(&self) -> usize
        ensures { result ≡ self.now.left }
    {
        self.memory.len() - self.len
    }

    /// Appends the piece.
    pub(crate) fn append(&mut self, piece: &[u8])
        requires { length piece.now ≤ self.old.left }
        ensures bytes { self.new.bytes ≡ self.old.bytes ++ piece.now }
        ensures left { self.new.left ≡ self.old.left - length piece.now }
    {
        let end = self.len + piece.len();
        self.memory[self.len..end].copy_from_slice(piece);
        self.len = end;
    }
}
