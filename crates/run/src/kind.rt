//! The run that is being read, and the fault of a stream.

ghost use Rattle.std.specs.Prelude.{◌≡◌};

use crate::copies::Copies;
use crate::packed::Part;
use stream::header::RunFault;

/// A fault in a stream of numbers.
#[derive(Clone, Copy, Debug, PartialEq, Eq)]
pub struct StreamFault;

impl From<RunFault> for StreamFault {
    ghost from_gives = { λ _ r. r ≡ record {} };

    fn from(_: RunFault) -> StreamFault {
        StreamFault
    }
}

/// What is left of the run that is being read.
#[derive(Clone, Copy)]
pub enum Run<'a> {
    /// Copies of a number.
    Repeated(Copies),
    /// Packed numbers.
    Packed(Part<'a>),
}
