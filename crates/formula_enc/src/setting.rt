//! Where expressions and formulas are meant.
use rp_lang::Program;
use rp_logic::Term;

/// The relations of the snapshot, of committed calls and of the invocations that exist, and the function of outcomes.
#[derive(Clone, Copy)]
pub struct Place {
    pub view: u32,
    pub calls: u32,
    pub invs: u32,
    pub results: u32,
}

/// What an expression or a formula of a program is meant in.
#[derive(Drop)]
pub struct Setting<'a> {
    pub program: &'a Program,
    pub at: Place,
    /// The closed terms of the slots.
    pub slots: &'a [Term],
}
