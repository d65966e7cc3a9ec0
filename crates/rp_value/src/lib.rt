//! Values, their types, and the lists and boxes that they stand on.
#![tactic(auto)]

mod boxed;
mod list;
mod memory;
mod tables;
mod value;

pub use boxed::Boxed;
pub use list::{Bytes, List, copy_bytes, copy_list};
pub use memory::Memory;
pub use tables::{AtomType, ConDecl, ConTable, DataDecl, Ty, TypeTable};
pub use value::{Value, copy_values};
