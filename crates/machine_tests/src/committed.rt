// Which transactions are committed.
ghost use Rattle.std.specs.Prelude.{◌≡◌, filter, min, not};
ghost use Rattle.std.specs.List.{reduce};
ghost use Rattle.crdt_defs.specs.Snapshots.{bit};
ghost use Rattle.event_machine.specs.Machine as spec;

/// Whether the transaction is committed, where the row says so of each.
#[tactic(auto, using(std::proofs::lemmas::List::get_or_past))]
pub fn is_committed(committed: &[bool], tx: u32) -> bool
    ensures { result ≡ bit committed.now tx }
{
    if (tx as usize) < committed.len() {
        committed[tx as usize]
    } else {
        false
    }
}

fn least(committed: &[bool], sees: &[u32]) -> Option<u32>
    ensures { result ≡ reduce min (filter (λ tx. not (bit committed.now tx)) sees.now) }
{
    sees.iter()
        .copied()
        .filter(|tx| !is_committed(committed, *tx))
        .min()
}

/// The least of these that isn't committed.
#[tactic(auto, using(crate::proofs::StampLemmas::least_is))]
pub fn least_open(committed: &[bool], sees: &[u32]) -> Option<u32>
    ensures { result ≡ spec.least_of (filter (λ tx. not (bit committed.now tx)) sees.now) }
{
    least(committed, sees)
}
