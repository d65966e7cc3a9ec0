//! What the code of the type rules stands on: names found by a hash, the variables in sight, types
//! that fit, the words on calls, and which fault comes first.
#![tactic(auto)]

mod faults;
mod flags;
mod kinds;
mod later;
mod table;
mod vars;
mod words;

pub use faults::{note, sooner, when};
pub use flags::Flags;
pub use kinds::{
    BOOL_KIND, INT_KIND, UNKNOWN_KIND, fits, inside, is_any, is_open, is_ordinary_base, is_unknown,
    maybe_of, plain_kind,
};
pub use later::Later;
pub use table::NameTable;
pub use vars::{VarItem, Vars};
pub use words::{called_kind, called_word, is_plain_word, word_takes};
