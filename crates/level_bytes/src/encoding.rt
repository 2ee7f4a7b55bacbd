//! The encodings of levels.

ghost use Rattle.std.specs.Prelude.{◌≡◌};
ghost use Rattle.level_bytes.specs.Encodings.{encoding_of};

use crate::fault::LevelFault;

/// An encoding of levels.
#[derive(Clone, Copy, Debug, PartialEq, Eq)]
pub enum LevelEncoding {
    /// The hybrid of runs and bit-packing: encoding 3.
    Rle,
    /// BIT_PACKED: encoding 4.
    BitPacked,
}

impl TryFrom<u8> for LevelEncoding {
    type Error = LevelFault;

    ghost try_from_gives = { λ code r. r ≡ encoding_of code };

    fn try_from(code: u8) -> Result<LevelEncoding, LevelFault> {
        match code {
            3 => Ok(LevelEncoding::Rle),
            4 => Ok(LevelEncoding::BitPacked),
            _ => Err(LevelFault::UnknownEncoding(code)),
        }
    }
}
