//! Why values cannot be had.

ghost use Rattle.std.specs.Prelude.{◌≡◌};
ghost use Rattle.value_fault.specs.Faults.{number as number_of};

/// Why values cannot be had.
#[derive(Clone, Copy, Debug, PartialEq, Eq)]
pub enum ValueFault {
    /// An encoding that dictionaries do not have.
    DictionaryEncoding(u8),
    /// A dictionary whose bytes do not hold its values.
    DictionaryCut,
    /// A dictionary came before.
    SecondDictionary,
    /// An encoding that values do not have here.
    UnknownEncoding(u8),
    /// Places in a dictionary, and none came.
    NoDictionary,
    /// No byte tells the width of the places.
    NoWidth,
    /// The width of the places is above 32.
    Width(u8),
    /// A place that is needed lies behind a fault of its stream.
    Unreadable,
    /// A value that is needed is not there.
    TooFew,
}

impl ValueFault {
    /// The number by which a refusal tells this fault.
    // Kept: a method's name says what the number is for, as `u8::from(fault)` would not.
    pub fn number(self) -> u8
        ensures { result ≡ number_of self }
    {
        match self {
            ValueFault::DictionaryEncoding(_) | ValueFault::DictionaryCut => 2,
            ValueFault::SecondDictionary => 3,
            ValueFault::UnknownEncoding(_) | ValueFault::NoDictionary => 10,
            ValueFault::NoWidth | ValueFault::Width(_) | ValueFault::Unreadable => 11,
            ValueFault::TooFew => 12,
        }
    }
}
