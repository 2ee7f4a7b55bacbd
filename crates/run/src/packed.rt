//! Packed numbers.

ghost use Rattle.std.specs.Prelude.{◌+◌, ◌*◌, ◌≤◌, length};

use crate::order::Order;
use stream::width::Width;

/// Packed numbers: the `count` behind the first `skip` of those in the bytes. They lie whole there.
#[derive(Clone, Copy)]
pub struct Part<'a> {
    /// How they follow one another.
    pub(crate) order: Order,
    /// How many bits each has.
    pub(crate) width: Width,
    /// Where they lie.
    pub(crate) bytes: &'a [u8],
    /// How many numbers lie in front of them.
    pub(crate) skip: usize,
    /// How many there are.
    pub(crate) count: usize,
    ghost short: { skip + count ≤ 2147483647 },
    ghost whole: { (skip + count) * width.bits ≤ 8 * length bytes.now },
}
