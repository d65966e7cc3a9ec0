use rp_span::Span;

/// What a step did.
#[derive(Clone, Copy, PartialEq, Eq)]
pub enum Event {
    Moved,
    /// A check found no violation.
    Checked,
    Violated(What),
}

/// What a step violated: the assertion at a place, or an invariant by its number.
#[derive(Clone, Copy, PartialEq, Eq)]
pub enum What {
    Assertion(Span),
    Invariant(u32),
}
