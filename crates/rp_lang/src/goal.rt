use rp_span::Span;
use rp_value::List;

/// What a goal is about: its kind, its procedure and the path through it, its place, and its invariant.
#[derive(Drop)]
pub struct GoalName {
    pub kind: GoalKind,
    pub proc: Option<u32>,
    pub path: List<u32>,
    pub at: Span,
    pub inv: Option<u32>,
}

#[derive(Clone, Copy, PartialEq, Eq)]
pub enum GoalKind {
    Init,
    Invoke,
    Assert,
    Commit,
    Return,
}
