use program_names::Names;
use std::alloc::Global;

/// A text, the program that it speaks of, and memory for what is read.
#[derive(Drop)]
pub(crate) struct Reader<'n, 'a> {
    pub(crate) alloc: Global,
    pub(crate) names: &'n Names<'a>,
    pub(crate) text: &'n [u8],
}
