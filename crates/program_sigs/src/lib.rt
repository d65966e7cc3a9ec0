//! The signatures of programs, computed.
#![tactic(auto)]

mod constructors;
mod functions;
mod numbers;
mod relations;
mod sorts;
mod values;

pub use constructors::con_decls;
pub use functions::{const_decls, fn_decls, is_get, push_vals, val_decls};
pub use numbers::{
    data_sort, info_con, info_sort, op_con, op_sort, outcome_con, outcome_sort, plus, sort_of,
    unreturned_con,
};
pub use relations::{one, rel_decls, two};
pub use sorts::{numbers_from, sorts_of, sorts_of_types};
pub use values::{val_fn, view_place};
