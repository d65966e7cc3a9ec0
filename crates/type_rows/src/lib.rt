//! Rows on the type rules: texts with their first faults, and texts without one.
#![tactic(auto)]

mod rows;

pub use rows::{
    arguments, blocks, matches, names, operands, paths, terms, types, uses, values, variables,
    words,
};
