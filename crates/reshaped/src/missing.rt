use rp_value::Memory;

/// Why there is no term.
pub enum Missing {
    /// Nothing tells the variable.
    Untold,
    /// Want of memory.
    Memory,
}

impl From<Memory> for Missing {
    ghost use Rattle.std.specs.Prelude.{◌≡◌};
    ghost use Rattle.reshaped.specs.declared.missing.Missing.TheVariants as missing;

    ghost from_gives = { λ _ e. e ≡ missing.Memory };

    fn from(_error: Memory) -> Missing {
        Missing::Memory
    }
}
