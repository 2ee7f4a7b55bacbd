//! What the definitions of `specs/` are shown to say. Each function states one theorem by its contract, and does nothing.

ghost use Rattle.stream.specs.Cases.{Cases};
ghost use Rattle.stream.specs.Theorems.{ReadsWhatIsEncoded, EncodedWhereItReads, CleanIsEncodedOrOurs, BitPackedReadsWhatLiesThere, BitPackedLiesThere};

/// Small streams mean what they should.
pub fn cases_stand()
    ensures { Cases }
{}

/// A stream is read as the numbers that the format's grammar gives its bytes to.
pub fn encoded_is_read()
    ensures { ReadsWhatIsEncoded }
{}

/// Bytes that are read to their end as runs of the format are an encoding of what is read.
pub fn read_is_encoded()
    ensures { EncodedWhereItReads }
{}

/// Any stream with a clean end is such, or one of four that the format does not have.
pub fn clean_is_encoded_or_ours()
    ensures { CleanIsEncodedOrOurs }
{}

/// Numbers that lie in bytes as BIT_PACKED has them are read.
pub fn bit_packed_is_read()
    ensures { BitPackedReadsWhatLiesThere }
{}

/// Numbers that are read by BIT_PACKED lie in the bytes as it has them.
pub fn read_is_bit_packed()
    ensures { BitPackedLiesThere }
{}
