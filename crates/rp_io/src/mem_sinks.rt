ghost use Rattle.std.specs.Prelude.{◌≡◌, ◌<◌, ◌↔◌, [], length, IfOk, IsErr};
ghost use Rattle.std.specs.declared.option.Option.TheVariants.{None, Some};
ghost use Rattle.rp_io.specs.MemSinks.{PutFails, after_put, after_sure_put};

use crate::buffer::Buffer;
use crate::{Failed, Sink};
use rp_value::Memory;
use std::alloc::Global;
use std::marker::Model;

/// A sink over memory that is taken first. Its calls of the numbers in `failing`, from 0, fail.
#[derive(Drop)]
pub struct MemSink {
    buffer: Buffer,
    failing: Vec<u64>,
    calls: u64,
    faults: u64,
}

impl Model for MemSink {
    ghost use Rattle.rp_io.specs.MemSinks.{MemSinkState};

    ghost Value = { MemSinkState };

    ghost view = { λ s. record {
      bytes = s.buffer.bytes;
      left = s.buffer.left;
      failing = s.failing.items;
      calls = s.calls;
      faults = s.faults;
    } };
}

impl MemSink {
    /// An empty sink with room for n bytes.
    pub fn with_room(alloc: Global, n: usize, failing: Vec<u64>) -> Result<MemSink, Memory>
        ensures { IfOk result (λ sink. sink ≡ record {
          bytes = [];
          left = n;
          failing = failing.items;
          calls = 0;
          faults = 0;
        }) }
    {
        let buffer = Buffer::with_room(alloc, n)?;
        Ok(MemSink {
            buffer,
            failing,
            calls: 0,
            faults: 0,
        })
    }

    /// The bytes that were put so far.
    pub fn bytes(&self) -> &[u8]
        ensures { result.now ≡ self.now.bytes }
    {
        self.buffer.bytes()
    }
}

impl Sink for MemSink {
    ghost told = { λ s. Some s.bytes };

    ghost room = { λ _. None };

    ghost faults = { λ s. s.faults };

    /// Fails exactly at the listed calls and where there is no room for the piece, and appends nothing then.
    fn put(&mut self, piece: &[u8]) -> Result<(), Failed>
        ensures failed { IsErr result ↔ PutFails self.old (length piece.now) }
        ensures after { self.new ≡ after_put self.old piece.now result }
    {
        let fails = self.failing.contains(&self.calls);
        self.calls = self.calls.saturating_add(1);
        if fails || self.buffer.left() < piece.len() {
            self.faults = self.faults.saturating_add(1);
            return Err(Failed);
        }
        self.buffer.append(piece);
        Ok(())
    }
}

/// A sink over memory that is taken first. It fails only where there is no room.
#[derive(Drop)]
pub struct SureSink {
    buffer: Buffer,
    faults: u64,
}

impl Model for SureSink {
    ghost use Rattle.rp_io.specs.MemSinks.{SureSinkState};

    ghost Value = { SureSinkState };

    ghost view = { λ s. record { bytes = s.buffer.bytes; left = s.buffer.left; faults = s.faults } };
}

impl SureSink {
    /// An empty sink with room for no byte. It takes no memory.
    pub fn new(alloc: Global) -> SureSink
        ensures { result ≡ record { bytes = []; left = 0; faults = 0 } }
    {
        SureSink {
            buffer: Buffer::new(alloc),
            faults: 0,
        }
    }

    /// An empty sink with room for n bytes.
    pub fn with_room(alloc: Global, n: usize) -> Result<SureSink, Memory>
        ensures { IfOk result (λ sink. sink ≡ record { bytes = []; left = n; faults = 0 }) }
    {
        let buffer = Buffer::with_room(alloc, n)?;
        Ok(SureSink { buffer, faults: 0 })
    }

    /// The bytes that were put so far.
    pub fn bytes(&self) -> &[u8]
        ensures { result.now ≡ self.now.bytes }
    {
        self.buffer.bytes()
    }
}

impl Sink for SureSink {
    ghost told = { λ s. Some s.bytes };

    ghost room = { λ s. Some s.left };

    ghost faults = { λ s. s.faults };

    /// Fails exactly where there is no room for the piece, and appends nothing then.
    fn put(&mut self, piece: &[u8]) -> Result<(), Failed>
        ensures failed { IsErr result ↔ (self.old.left < length piece.now) }
        ensures after { self.new ≡ after_sure_put self.old piece.now result }
    {
        if self.buffer.left() < piece.len() {
            self.faults = self.faults.saturating_add(1);
            return Err(Failed);
        }
        self.buffer.append(piece);
        Ok(())
    }
}
