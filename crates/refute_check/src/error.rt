use rp_value::Memory;

/// Why a tree isn't accepted.
#[derive(Clone, Copy, PartialEq, Eq)]
pub enum CheckErr {
    /// The first node, in preorder, that doesn't meet its rule. The rule is 0 for a leaf that isn't
    /// a rule, for a node that is missing, which has the number of nodes for its number, and for a
    /// node too many.
    Bad { node: u32, rule: u8 },
    Memory,
}

impl From<Memory> for CheckErr {
    ghost use Rattle.std.specs.Prelude.{◌≡◌};
    ghost use Rattle.refute_check.specs.declared.error.CheckErr.TheVariants as err;

    ghost from_gives = { λ _ e. e ≡ err.Memory };

    fn from(_error: Memory) -> CheckErr {
        CheckErr::Memory
    }
}
