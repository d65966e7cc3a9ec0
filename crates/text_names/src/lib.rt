//! The names of a text, each found by a hash: what it declares, and the types that it writes.
#![tactic(auto)]

mod cons;
mod declared;
mod declaring;
mod look_up;
mod names;
mod part;
mod parts;
mod roots;

pub use cons::ConList;
pub use declared::{Declared, Item, TypeItem, TypeSort};
pub use names::TextNames;
pub use part::Part;
pub use parts::Parts;
pub use roots::Roots;
