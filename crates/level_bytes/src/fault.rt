//! Why levels cannot be had.

ghost use Rattle.std.specs.Prelude.{◌≡◌};
ghost use Rattle.level_bytes.specs.Faults.{number as number_of};

/// Why levels cannot be had.
#[derive(Clone, Copy, Debug, PartialEq, Eq)]
pub enum LevelFault {
    /// An encoding that levels do not have.
    UnknownEncoding(u8),
    /// A length of the level bytes of -4 to -1.
    NegativeLength,
    /// Level bytes that are not all there, or that any other negative length tells.
    Past,
    /// A level that is needed lies behind a fault of its stream.
    Unreadable,
    /// A level that is needed lies behind the clean end of its stream.
    Missing,
}

impl LevelFault {
    /// The number by which a refusal tells this fault.
    // Kept: a method's name says what the number is for, as `u8::from(fault)` would not.
    pub fn number(self) -> u8
        ensures { result ≡ number_of self }
    {
        match self {
            LevelFault::UnknownEncoding(_) => 4,
            LevelFault::NegativeLength => 5,
            LevelFault::Past => 6,
            LevelFault::Unreadable => 8,
            LevelFault::Missing => 9,
        }
    }
}
