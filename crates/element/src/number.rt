//! The elements that numbers are read into.

ghost use Rattle.std.specs.Prelude.{◌≡◌, not, ℕ, ◌%◌, eqb, pos};

/// An element that numbers of a stream are read into.
// Kept: `From<u32>` for `i16` and `bool` is not this crate's to write.
pub trait Number: Copy {
    ghost from: { ℕ → Self };

    /// The number as this element.
    fn from_u32(x: u32) -> Self
        ensures { result ≡ from x };
}

/// A level: the low 15 bits.
impl Number for i16 {
    ghost from = { λ x. pos (x % 32768) };

    fn from_u32(x: u32) -> i16 {
        (x % 32768) as i16
    }
}

/// A bit of a mask: whether the number is not 0.
impl Number for bool {
    ghost from = { λ x. not (eqb x 0) };

    fn from_u32(x: u32) -> bool {
        x != 0
    }
}

/// An index: the number itself.
impl Number for u32 {
    ghost from = { λ x. x };

    fn from_u32(x: u32) -> u32 {
        x
    }
}
