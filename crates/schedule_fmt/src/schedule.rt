use rp_lang::{LimitName, Step};
use rp_value::{List, Memory, Value};

/// The size of each id type and opaque type, and the steps of a run.
#[derive(Drop)]
pub struct Schedule {
    pub universe: u32,
    pub steps: List<Step>,
}

/// Why a text gave no schedule.
#[derive(Clone, Copy)]
pub enum ScheduleErr {
    /// The first line, from 1, that can't stand there. Where the text ends too early, 1 plus the number of its newlines.
    Line(u32),
    /// The text is that of a schedule that passes a limit: `Universe`, or else `Steps`.
    Limit(LimitName),
    /// Memory ran out. It says nothing of the text.
    Memory,
}

impl From<Memory> for ScheduleErr {
    ghost use Rattle.std.specs.Prelude.{◌≡◌};
    ghost use Rattle.schedule_fmt.specs.declared.schedule.ScheduleErr.TheVariants as err;

    ghost from_gives = { λ _ e. e ≡ err.Memory };

    fn from(_error: Memory) -> ScheduleErr {
        ScheduleErr::Memory
    }
}

/// A value that stands in a text, and the place behind it.
#[derive(Drop)]
pub struct ValueAt {
    pub value: Value,
    pub to: u32,
}
