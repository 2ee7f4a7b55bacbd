//! What all level decoders have in common.

ghost use Rattle.std.specs.Prelude.{◌≡◌, ℕ, Bool, false, List};
ghost use Rattle.stream.specs.Streams.{Stream, ended, clean};
ghost use Rattle.level_bytes.specs.Cuts.{above_zero};
ghost use Rattle.level_bytes.specs.declared.encoding.LevelEncoding.{LevelEncoding as Encoding};
ghost use Rattle.level.specs.Columns.{Column};

use crate::encoding::LevelEncoding;

/// A decoder of levels.
pub trait ColumnLevelDecoder<'a>: Sized {
    // What bytes mean, by the maximum and the encoding.
    ghost rule: { ℕ → Encoding → List ℕ → Stream };

    // Whether it fills a mask, and not levels.
    ghost mask: { Bool };

    // Where it stands: the greatest level, the levels to come, and whether a record is open.
    ghost column: { Self → Column };

    /// A decoder with no levels to come. A negative maximum counts as 0.
    fn new(max_level: i16) -> Self
        ensures { column result ≡ record { maximum = above_zero max_level; levels = ended clean; opened = false } };

    /// Goes on to the levels in `data`. An open record stays open.
    fn set_data(&mut self, encoding: LevelEncoding, data: &'a [u8])
        ensures { column self.new ≡ record (column self.old) { levels = rule (column self.old).maximum encoding «data».now } };
}
