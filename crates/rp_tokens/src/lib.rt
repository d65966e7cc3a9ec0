//! The token machine of the grammar: it takes the tokens of a text one by one, and is a means of
//! proof. A parser is proved against it, and it against the grammar. What it is stands in `specs/`.
#![tactic(auto)]

pub mod laws;
