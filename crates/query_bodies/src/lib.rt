//! What expressions say before uses of queries are put in, how large they get by that, and what they
//! become.
#![tactic(auto)]

mod bodies;
mod claim;
mod expand;
mod expand_claims;
mod lift;
mod measure;
mod node;
mod shorten;
mod sums;
mod term;

pub use bodies::{Bodies, Facts};
pub use claim::{Claim, ClaimArm};
pub use expand::Expansion;
pub use shorten::use_of;
pub use term::{Body, Term};
