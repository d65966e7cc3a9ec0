//! The numbers of a text's types, constructors, operations, queries and procedures, and the tables of
//! its program.
#![tactic(auto)]

mod atoms;
mod constructors;
mod limits;
mod members;
mod numbers;
mod object;
mod objects;
mod parts;
mod paths;
mod procs;
mod roots;
mod spot;
mod tables;
mod type_table;
mod types;

pub use members::{Members, members_of};
pub use paths::has_long_path;
pub use roots::roots_of;
pub use tables::Tables;
