ghost use Rattle.std.specs.Prelude.{◌≡◌, ◌<◌, ◌≤◌, length, IfSome, OnErr, OnOk};
ghost use Rattle.rp_io.specs.Counts.{Rose};
ghost use Rattle.rp_io.specs.Sinks.{Puts, PutsPrefix, TakesRoom, bytes_of};

use crate::{Failed, Sink};

/// Puts each line, which ends in its newline, by a call of its own. At `Failed` a prefix of all lines
/// was appended.
pub fn put_lines<K: Sink>(out: &mut K, lines: &[Vec<u8>]) -> Result<(), Failed>
    ensures ok { OnOk result (Puts (K.told out.old) (K.told out.new) (bytes_of lines.now)) }
    ensures prefix { OnErr result (PutsPrefix (K.told out.old) (K.told out.new) (bytes_of lines.now)) }
    ensures room { OnOk result (TakesRoom (K.room out.old) (K.room out.new) (length (bytes_of lines.now))) }
    ensures no_room { OnErr result (IfSome (K.room out.old) (λ n. n < length (bytes_of lines.now))) }
    ensures never_falls { K.faults out.old ≤ K.faults out.new }
    ensures no_fault { OnOk result (K.faults out.new ≡ K.faults out.old) }
    ensures failed { OnErr result (Rose (K.faults out.old) (K.faults out.new)) }
{
    for line in lines {
        out.put(line)?;
    }
    Ok(())
}
