use rp_value::Memory;

/// Why nothing more is made.
#[derive(Clone, Copy)]
pub enum Stop {
    Memory,
    /// An expression has too many nodes.
    Nodes,
}

impl From<Memory> for Stop {
    ghost use Rattle.std.specs.Prelude.{◌≡◌};
    ghost use Rattle.lower_exprs.specs.declared.stop.Stop.TheVariants as stop;

    ghost from_gives = { λ _ e. e ≡ stop.Memory };

    fn from(_error: Memory) -> Stop {
        Stop::Memory
    }
}
