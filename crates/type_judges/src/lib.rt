//! What each type rule says of a place of a text: whether it is broken there, and at which token.
#![tactic(auto)]

mod judge_names;
mod judge_places;
mod judge_stmts;
mod judge_types;
mod rule_accesses;
mod rule_terms;
mod rule_uses;
mod scope;
mod want;
mod wants;

pub use judge_names::{judge_assigns, judge_declares, judge_made, judge_named};
pub use judge_places::{judge_place, judge_statement};
pub use judge_stmts::{
    Leaving, judge_arms, judge_closes, judge_leaves, judge_opens, judge_pattern,
};
pub use judge_types::judge_written;
pub use scope::Scope;
pub use want::Want;
pub use wants::{
    argument, asks, bool_operand, bool_whole, held, int_operand, left_want, matched, right_want,
    word_arg,
};
