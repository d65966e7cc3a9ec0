//! Why a step wasn't done.

use rp_lang::{LimitName, Refusal};
use rp_value::Memory;

/// Why a step wasn't done. The state is as it was.
#[derive(Drop)]
pub enum StepErr {
    Refused(Refusal),
    Limit(LimitName),
    Memory,
}

impl From<Memory> for StepErr {
    ghost use Rattle.std.specs.Prelude.{◌≡◌};
    ghost use Rattle.machine_effects.specs.declared.error.StepErr.TheVariants as err;

    ghost from_gives = { λ _ e. e ≡ err.Memory };

    fn from(_error: Memory) -> StepErr {
        StepErr::Memory
    }
}
