ghost use Rattle.text_tables.specs.means.Kept.{AreFound};

use rp_value::List;

/// A replicated type or a part of one, by the byte of the text at which it begins.
#[derive(Clone, Copy)]
pub struct Object {
    pub(crate) from: u32,
    /// How many operations stand before its own.
    pub(crate) ops: u32,
    /// How many queries stand before its own.
    pub(crate) queries: u32,
}

/// The replicated types of a text, each before its parts, found by the bytes at which they begin.
#[derive(Drop)]
pub struct ObjectTable {
    /// The bytes at which the objects begin. They go up.
    pub(crate) starts: List<u32>,
    /// Past the last of them.
    pub(crate) end: u32,
    pub(crate) objects: List<Object>,
    /// How many operations and queries they have together.
    pub(crate) ops: u32,
    pub(crate) queries: u32,
    /// How many of them are roots.
    pub(crate) roots: u32,
    ghost found: { AreFound starts end objects },
}
