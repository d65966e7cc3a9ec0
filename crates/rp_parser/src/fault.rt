use rp_value::Memory;

/// Why the tokens are not read. A place is how many tokens are left, with the one that is named.
#[derive(Clone, Copy, PartialEq, Eq)]
pub(crate) enum Fault {
    Memory,
    /// No program goes on with this token.
    Syntax(usize),
    /// The first token that is nested too deep.
    TooDeep(usize),
}

impl From<Memory> for Fault {
    ghost use Rattle.std.specs.Prelude.{◌≡◌};
    ghost use Rattle.rp_parser.specs.declared.fault.Fault.TheVariants as fault;

    ghost from_gives = { λ _ e. e ≡ fault.Memory };

    fn from(_error: Memory) -> Fault {
        Fault::Memory
    }
}
