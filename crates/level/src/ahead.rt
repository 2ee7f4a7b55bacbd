//! Levels that were read ahead.

ghost use Rattle.std.specs.Prelude.{◌≤◌};

use run::reader::RunReader;

/// Levels that were read ahead, up to 1,024, and the reader of those behind them.
#[derive(Drop)]
pub struct Ahead<'a> {
    /// The reader behind the levels in the buffer.
    pub(crate) reader: RunReader<'a>,
    /// The levels that were read ahead.
    // Kept: an array with its length and a place beside it, since a decoder has no heap.
    pub(crate) buffer: [u32; 1024],
    /// How many levels the buffer holds.
    pub(crate) len: usize,
    /// How many of them are handed on.
    pub(crate) offset: usize,
    ghost within: { offset ≤ len },
    ghost inside: { len ≤ 1024 },
}
