/// The one fault of files and sinks.
#[derive(Clone, Copy, PartialEq, Eq)]
pub struct Failed;
