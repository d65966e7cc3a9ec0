use rp_value::Memory;
use std::alloc::AllocError;
use thiserror::Error;

/// Why a text has no tree. A token is named by its number, from 0.
#[derive(Clone, Copy, Debug, PartialEq, Eq, Error)]
pub enum ParseErr {
    /// The first token such that the tokens up to and including it begin no program.
    #[error("this token can't stand here")]
    Syntax { token: u32 },
    /// The first token that is nested deeper than 64, where it comes before the first bad one.
    #[error("this token is nested too deep")]
    TooDeep { token: u32 },
    #[error("out of memory")]
    Memory,
}

impl From<Memory> for ParseErr {
    ghost use Rattle.std.specs.Prelude.{◌≡◌};
    ghost use Rattle.rp_parser.specs.declared.error.ParseErr.TheVariants as err;

    ghost from_gives = { λ _ e. e ≡ err.Memory };

    fn from(_error: Memory) -> ParseErr {
        ParseErr::Memory
    }
}

impl From<AllocError> for ParseErr {
    ghost use Rattle.std.specs.Prelude.{◌≡◌};
    ghost use Rattle.rp_parser.specs.declared.error.ParseErr.TheVariants as err;

    ghost from_gives = { λ _ e. e ≡ err.Memory };

    fn from(_error: AllocError) -> ParseErr {
        ParseErr::Memory
    }
}
