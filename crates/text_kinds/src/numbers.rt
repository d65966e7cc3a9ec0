/// The numbers of a datatype and of its first constructor.
#[derive(Clone, Copy)]
pub(crate) struct Numbers {
    pub(crate) number: u32,
    pub(crate) first: u32,
}
