use rp_value::Memory;

/// Why nothing is added.
#[derive(Clone, Copy, PartialEq, Eq)]
pub enum Stop {
    /// The node doesn't meet its rule.
    Unmet,
    Memory,
}

impl From<Memory> for Stop {
    ghost use Rattle.std.specs.Prelude.{◌≡◌};
    ghost use Rattle.refute_rules.specs.declared.stop.Stop.TheVariants as stop;

    ghost from_gives = { λ _ e. e ≡ stop.Memory };

    fn from(_error: Memory) -> Stop {
        Stop::Memory
    }
}
