ghost use Rattle.std.specs.Prelude.{◌≡◌, ◌<◌, ◌≤◌, List, ℕ, length, IfSome, OnErr, OnOk};
ghost use Rattle.std.specs.declared.option.Option.{Option};
ghost use Rattle.rp_io.specs.Counts.{Rose};
ghost use Rattle.rp_io.specs.Sinks.{Puts, PutsPrefix, TakesRoom};

use crate::Failed;

/// What takes bytes, a piece at a time.
pub trait Sink {
    /// The bytes that were put so far, where the sink tells them.
    ghost told: { Self → Option (List ℕ) };

    /// How many bytes it can still take, where it tells that.
    ghost room: { Self → Option ℕ };

    /// How many calls failed.
    ghost faults: { Self → ℕ };

    /// Appends the piece. At `Failed` a prefix of it was appended.
    fn put(&mut self, piece: &[u8]) -> Result<(), Failed>
        ensures ok { OnOk result (Puts (told self.old) (told self.new) piece.now) }
        ensures prefix { OnErr result (PutsPrefix (told self.old) (told self.new) piece.now) }
        ensures room { OnOk result (TakesRoom (room self.old) (room self.new) (length piece.now)) }
        ensures no_room { OnErr result (IfSome (room self.old) (λ n. n < length piece.now)) }
        ensures never_falls { faults self.old ≤ faults self.new }
        ensures no_fault { OnOk result (faults self.new ≡ faults self.old) }
        ensures failed { OnErr result (Rose (faults self.old) (faults self.new)) };
}
