//! Readers of encoded levels.

ghost use Rattle.std.specs.Prelude.{◌≡◌};
ghost use Rattle.level_bytes.specs.Cuts.{above_zero};
ghost use Rattle.run.specs.Coming.{to_come};
ghost use Rattle.level.specs.Levels.{levels};

pub use level_bytes::encoding::LevelEncoding;
use level_bytes::width::level_width;
use run::reader::RunReader;
use stream::width::Width;

/// A reader of the levels in `data`.
pub(crate) fn level_reader<'a>(
    max_level: i16,
    encoding: LevelEncoding,
    data: &'a [u8],
) -> RunReader<'a>
    ensures { to_come result ≡ levels (above_zero max_level) encoding «data».now }
{
    let width = Width::new(level_width(max_level)).unwrap();
    let limit = u64::from(top(max_level)) + 1;
    match encoding {
        LevelEncoding::Rle => RunReader::hybrid(data, width, limit),
        LevelEncoding::BitPacked => RunReader::bit_packed(data, width, limit),
    }
}

/// The maximum; a negative one counts as 0.
pub(crate) fn top(max_level: i16) -> u32
    ensures { result ≡ above_zero max_level }
{
    max_level.max(0) as u32
}
