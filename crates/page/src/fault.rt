//! Why a source stops, and why a thing is not made.
ghost use Rattle.std.specs.Prelude.{◌≡◌, Some};
ghost use Rattle.page.specs.Words.{source_words, making_words};

use std::error::Error;
use std::fmt;

/// The cause of refusal 1: a record of the strip is broken.
#[derive(Clone, Copy, Debug)]
pub enum SourceFault {
    /// The record's first byte is no kind of page.
    UnknownKind(u8),
    /// The strip ends within the record.
    CutRecord,
    /// The record names bytes outside the data.
    OutsideData,
}

/// The cause of refusal 14: what was given cannot be made into a source or a column.
#[derive(Clone, Copy, Debug)]
pub enum MakingFault {
    /// A strip has 2^31 bytes or more.
    StripTooLong,
    /// A strip's data has 2^31 bytes or more.
    DataTooLong,
    /// Raw values are neither 4 nor 8 bytes wide.
    RawWidth,
    /// Raw pages are to hold no value, or more than 65,536.
    RawPageValues,
    /// The raw bytes end within a value.
    RawCutValue,
    /// A column file is shorter than its seven bytes of header.
    FileTooShort,
    /// A column file's type is none of 0, 1 and 2.
    FileType(u8),
    /// A column file's strip reaches past the file's end.
    FileStrip,
}

impl SourceFault {
    /// The cause in words.
    pub fn as_str(self) -> &'static str
        ensures { result.now ≡ source_words self }
    {
        match self {
            SourceFault::UnknownKind(_) => "the record is of an unknown kind",
            SourceFault::CutRecord => "the strip ends within the record",
            SourceFault::OutsideData => "the record names bytes outside the data",
        }
    }
}

impl MakingFault {
    /// The cause in words.
    pub fn as_str(self) -> &'static str
        ensures { result.now ≡ making_words self }
    {
        match self {
            MakingFault::StripTooLong => "the strip has 2^31 bytes or more",
            MakingFault::DataTooLong => "the data has 2^31 bytes or more",
            MakingFault::RawWidth => "raw values are neither 4 nor 8 bytes wide",
            MakingFault::RawPageValues => "a raw page holds 1 to 65536 values",
            MakingFault::RawCutValue => "the raw bytes end within a value",
            MakingFault::FileTooShort => "the file ends within its header",
            MakingFault::FileType(_) => "the type is unknown",
            MakingFault::FileStrip => "the strip reaches past the end of the file",
        }
    }
}

impl fmt::Display for SourceFault {
    ghost output = { λ f. Some (source_words f) };

    fn fmt<W: fmt::Write>(&self, f: &mut fmt::Formatter<W>) -> fmt::Result {
        f.write_str(self.as_str())
    }
}

impl fmt::Display for MakingFault {
    ghost output = { λ f. Some (making_words f) };

    fn fmt<W: fmt::Write>(&self, f: &mut fmt::Formatter<W>) -> fmt::Result {
        f.write_str(MakingFault::as_str(*self))
    }
}

impl Error for SourceFault {}

impl Error for MakingFault {}
