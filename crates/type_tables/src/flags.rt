ghost use Rattle.std.specs.Prelude.{◌≡◌, ℕ, ◌+◌, ◌*◌, ◌<◌, ◌≤◌, ◌∷◌, ◌++◌, [], IfOk, OnErr, OnOk, length, map, nat_eq, nat_lt, set, take, true, if◌then◌else◌};
ghost use Rattle.type_tables.specs.Flags.{flag_at, merged, mixed, one_at, truth_at, with_flag};

use rp_value::Memory;
use std::alloc::Global;
use std::marker::Model;

/// Truths in a row, each in a bit: to copy a row, or to join two, costs a step for 64 of them.
#[derive(Drop)]
pub struct Flags {
    words: Vec<u64>,
    len: usize,
}

impl Model for Flags {
    ghost use Rattle.std.specs.Prelude.{List, Bool};
    ghost use Rattle.type_tables.specs.Flags.{flags_of, HaveRoom};

    ghost Value = { List Bool };

    ghost view = { λ it. flags_of it.words.items it.len };

    ghost invariant = { λ it. HaveRoom it.words.items it.len };
}

/// The word with one bit made 1 or 0.
fn with_bit(word: u64, place: usize, flag: bool) -> u64
    requires { place < 64 }
    ensures { (i : ℕ) → i < 64 → one_at result i ≡ (if nat_eq i place then flag else one_at word i) }
{
    if flag {
        word | (1 << place)
    } else {
        word & !(1 << place)
    }
}

/// Ones at the bits of the word of that number which stand before the end of so many truths.
fn mask_of(len: usize, at: usize) -> u64
    ensures { (i : ℕ) → i < 64 → one_at result i ≡ nat_lt (64 * at + i) len }
{
    let whole = len / 64;
    if at < whole {
        u64::MAX
    } else if at == whole {
        (1 << (len % 64)) - 1
    } else {
        0
    }
}

/// Where the mask has ones, the other word's bits, or those that both have; elsewhere the own ones.
fn mixed_word(own: u64, other: u64, mask: u64, both: bool) -> u64
    ensures { (i : ℕ) → i < 64 → one_at result i
        ≡ mixed both (one_at mask i) (one_at own i) (one_at other i) }
{
    if both {
        own & (other | !mask)
    } else {
        (own & !mask) | (other & mask)
    }
}

/// Mixes the first `len` bits of other words in.
fn mix(own: &mut [u64], other: &[u64], len: usize, both: bool)
    requires { len ≤ 64 * length other.now }
    ensures long { length own.new ≡ length own.old }
    ensures each { (j : ℕ) → j < 64 * length own.old → truth_at own.new j
        ≡ mixed both (nat_lt j len) (truth_at own.old j) (truth_at other.now j) }
{
    for at in 0..own.len().min(other.len()) {
        own[at] = mixed_word(own[at], other[at], mask_of(len, at), both);
    }
}

impl Flags {
    /// No truths. It takes no memory.
    pub fn new(alloc: Global) -> Flags
        ensures { result ≡ [] }
    {
        Flags {
            words: Vec::new(alloc),
            len: 0,
        }
    }

    /// Whether there is one at the place, and it is true.
    pub fn has(&self, place: usize) -> bool
        ensures { result ≡ flag_at self.now place }
    {
        if place < self.len {
            (self.words[place / 64] >> (place % 64)) & 1 == 1
        } else {
            false
        }
    }

    /// Makes the one at the place true or false, if there is one.
    pub fn put(&mut self, place: usize, flag: bool)
        ensures { self.new ≡ set self.old place flag }
    {
        if place < self.len {
            self.words[place / 64] = with_bit(self.words[place / 64], place % 64, flag);
        }
    }

    /// One more.
    pub fn push(&mut self, flag: bool) -> Result<(), Memory>
        ensures ok { OnOk result (self.new ≡ self.old ++ flag ∷ []) }
        ensures err { OnErr result (self.new ≡ self.old) }
    {
        let place = self.len;
        let Some(more) = place.checked_add(1) else {
            return Err(Memory);
        };
        if place / 64 >= self.words.len() {
            self.words.push(0)?;
        }
        self.len = more;
        self.put(place, flag);
        Ok(())
    }

    /// Takes out all but the first `len`.
    pub fn truncate(&mut self, len: usize)
        ensures { self.new ≡ take len self.old }
    {
        self.len = self.len.min(len);
    }

    /// Makes all true.
    pub fn fill(&mut self)
        ensures { self.new ≡ map (λ flag. true) self.old }
    {
        self.words.fill(u64::MAX);
    }

    /// The same.
    pub fn copy(&self, alloc: Global) -> Result<Flags, Memory>
        ensures { IfOk result (λ flags. flags ≡ self.now) }
    {
        let mut words = Vec::new(alloc);
        words.extend_from_slice(self.words.as_slice())?;
        Ok(Flags {
            words,
            len: self.len,
        })
    }

    /// As far as the other row goes, its truths, or those that are true in both rows.
    pub fn merge(&mut self, other: &Flags, both: bool)
        ensures { self.new ≡ merged both self.old other.now }
    {
        mix(
            self.words.as_mut_slice(),
            other.words.as_slice(),
            other.len,
            both,
        );
    }

    /// Makes the one of this number true, also where there was none. After `Memory` nothing is said.
    pub fn mark(&mut self, number: u32) -> Result<(), Memory>
        ensures { OnOk result (flag_at self.new ≡ with_flag (flag_at self.old) number) }
    {
        let place = number as usize;
        for _len in self.len..place + 1 {
            self.push(false)?;
        }
        self.put(place, true);
        Ok(())
    }
}
