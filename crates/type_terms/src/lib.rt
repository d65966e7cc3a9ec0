//! What the type rules know of the parts of a text: where phrases begin, where paths lead, what
//! accesses are, the types of expressions, which are plain terms, and the constructors of types.
#![tactic(auto)]

mod access;
mod cases;
mod meaning;
mod members;
mod paths;
mod plain;
mod queries;
mod starts;
mod typing;

pub use access::{Access, access_by, access_kind, access_of, arg_kind, args_fit};
pub use cases::{Case, Cases, case_field, cases_of, find_case, is_case, is_complete};
pub use meaning::{Meaning, is_nothing, meaning_of};
pub use members::{
    Does, Member, data_of, is_operation, kind_over, member_kind, member_takes, members_of,
};
pub use paths::{Way, key_kind, stepped, way_from};
pub use plain::is_plain_access;
pub use queries::{names_of, param_var};
pub use starts::{brace_of, start, type_start, word_at};
pub use typing::{asked_inside, type_of};
