//! Copies of a number.

ghost use Rattle.std.specs.Prelude.{◌≤◌};

/// So many copies of a number.
#[derive(Clone, Copy)]
pub struct Copies {
    pub(crate) value: u32,
    pub(crate) count: usize,
    ghost few: { count ≤ 2147483647 },
}
