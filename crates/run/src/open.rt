//! Readers at the start of a stream.

ghost use Rattle.std.specs.Prelude.{◌≡◌};
ghost use Rattle.stream.specs.Streams.{hybrid, ended, clean, fault};
ghost use Rattle.run.specs.Coming.{to_come};

use crate::copies::Copies;
use crate::kind::Run;
use crate::reader::RunReader;
use stream::width::Width;

impl<'a> RunReader<'a> {
    /// A reader of the hybrid of runs and bit-packing (encoding 3). A number is good if it is below the limit.
    pub fn hybrid(bytes: &'a [u8], width: Width, limit: u64) -> RunReader<'a>
        ensures { to_come result ≡ hybrid width.bits limit bytes.now }
    {
        RunReader {
            width,
            limit,
            bytes,
            run: Run::Repeated(Copies { value: 0, count: 0 }),
        }
    }

    /// A reader of a stream of no numbers.
    pub fn empty() -> RunReader<'a>
        ensures { to_come result ≡ ended clean }
    {
        RunReader::hybrid(&[], Width::new(0).unwrap(), 0)
    }

    /// A reader at a fault: a number where none is good.
    pub(crate) fn broken(width: Width) -> RunReader<'a>
        ensures { to_come result ≡ ended fault }
    {
        // Kept: every field. Tried over those of `hybrid`, whose contract does not name them.
        RunReader {
            width,
            limit: 0,
            bytes: &[],
            run: Run::Repeated(Copies { value: 0, count: 1 }),
        }
    }
}
