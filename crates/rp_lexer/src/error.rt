//! Why a text has no answer.

use rp_grammar::LexFault;
use rp_value::Memory;
use thiserror::Error;

/// Why a text was not read.
#[derive(Clone, Copy, Debug, PartialEq, Eq, Error)]
pub enum LexErr {
    /// The first fault of the text, and the byte at which it stands.
    #[error("the text has no tokens")]
    Fault { at: u32, kind: LexFault },
    /// Memory ran out. It says nothing of the text.
    #[error("out of memory")]
    Memory,
}

impl From<Memory> for LexErr {
    ghost use Rattle.std.specs.Prelude.{◌≡◌};
    ghost use Rattle.rp_lexer.specs.declared.error.LexErr.TheVariants as err;

    ghost from_gives = { λ _ e. e ≡ err.Memory };

    fn from(_error: Memory) -> LexErr {
        LexErr::Memory
    }
}
