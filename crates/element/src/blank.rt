//! What stands in an area where nothing is filled in.

ghost use Rattle.std.specs.Prelude.{◌≡◌, false, pos};

/// Elements of a kind that tells a blank.
// Kept: `blank` beside the library's `Default`. That trait says of its value only that a predicate holds of it, so contracts could not name the blank.
pub trait Blank: Copy {
    // The blank of this kind.
    ghost blank_is: { Self };

    /// An element that is blank.
    fn blank() -> Self
        ensures { result ≡ blank_is };
}

impl Blank for i16 {
    ghost blank_is = { pos 0 };

    fn blank() -> i16 {
        0
    }
}

impl Blank for i32 {
    ghost blank_is = { pos 0 };

    fn blank() -> i32 {
        0
    }
}

impl Blank for i64 {
    ghost blank_is = { pos 0 };

    fn blank() -> i64 {
        0
    }
}

impl Blank for bool {
    ghost blank_is = { false };

    fn blank() -> bool {
        false
    }
}
