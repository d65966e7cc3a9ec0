//! The tokens of a text: `lex` reads the tokens that the grammar gives its bytes, or names the first
//! fault among them.
#![tactic(auto)]

mod bytes;
mod error;
mod marks;
mod names;
mod numbers;
mod scan;
mod strings;
mod terminals;
mod text;

pub use error::LexErr;
pub use rp_grammar::{LexFault, Symbol, Token, TokenKind, Word};
pub use terminals::{symbol_of, word_of};
pub use text::lex;
