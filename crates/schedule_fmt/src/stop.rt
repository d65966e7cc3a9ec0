use rp_value::Memory;

/// Why nothing was read.
#[derive(Clone, Copy)]
pub(crate) enum Stop {
    /// What was looked for doesn't stand there.
    Absent,
    Memory,
}

impl From<Memory> for Stop {
    ghost use Rattle.std.specs.Prelude.{◌≡◌};
    ghost use Rattle.schedule_fmt.specs.declared.stop.Stop.TheVariants as stop;

    ghost from_gives = { λ _ e. e ≡ stop.Memory };

    fn from(_error: Memory) -> Stop {
        Stop::Memory
    }
}
