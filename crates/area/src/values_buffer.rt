//! What values are appended to.

ghost use Rattle.std.specs.Prelude.{◌≡◌, ℕ, Bool, List, map, take, is_ok, if◌then◌else◌};
ghost use Rattle.area.specs.Val.{Val, int, bit};
ghost use Rattle.area.specs.Buffers.{Laws, longest};

use crate::area::NoRoom;
use element::blank::Blank;

/// Elements of a kind that are a column's values.
pub trait DataType: Blank {
    // The value that an element is.
    ghost means: { Self → Val };
}

impl DataType for i16 {
    ghost means = { int };
}

impl DataType for i32 {
    ghost means = { int };
}

impl DataType for i64 {
    ghost means = { int };
}

impl DataType for bool {
    ghost means = { bit };
}

/// A values' area of some kind. What it holds is its `state`, which callers know by the laws alone.
pub trait ValuesBuffer<T: DataType> {
    // What an area of this kind can hold.
    ghost State: { Type 0 };

    // What this one holds.
    ghost state: { Self → State };

    // What it holds once values are appended.
    ghost appended: { State → List Val → State };

    // Whether there is room for values.
    ghost fits: { State → List Val → Bool };

    // How many values are appended.
    ghost count: { State → ℕ };

    // What it holds once it is set back to so many values.
    ghost blanked: { State → ℕ → State };

    // Whether it tells that it is missing.
    ghost missing: { State → Bool };

    /// How many values are appended.
    fn len(&self) -> usize
        ensures { result ≡ count (state self.now) };

    /// Whether the area tells that it is missing.
    fn is_missing(&self) -> bool
        ensures { result ≡ missing (state self.now) };

    /// Appends the values, all or none.
    fn append_slice(&mut self, xs: &[T]) -> Result<(), NoRoom>
        ensures reply { is_ok result ≡ fits (state self.old) (map T.DataType.means xs.now) }
        ensures after { state self.new ≡ (if is_ok result then appended (state self.old) (map T.DataType.means xs.now) else state self.old) };

    /// Appends the longest front of the values that fits: how many.
    fn append_front(&mut self, xs: &[T]) -> usize
        ensures reply { result ≡ longest (fits (state self.old)) (map T.DataType.means xs.now) }
        ensures after { state self.new ≡ appended (state self.old) (map T.DataType.means (take result xs.now)) };

    /// Sets the count back to `n`, or leaves it where it is less; all behind it is blank then.
    fn set_back(&mut self, n: usize)
        ensures { state self.new ≡ blanked (state self.old) n };

    // What each kind keeps to.
    ghost laws: { Laws appended fits count blanked };
}
