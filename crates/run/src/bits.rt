//! A reader at the start of BIT_PACKED.

ghost use Rattle.std.specs.Prelude.{◌≡◌};
ghost use Rattle.stream.specs.Streams.{bit_packed};
ghost use Rattle.run.specs.Coming.{to_come};

use crate::kind::Run;
use crate::order::Order;
use crate::packed::Part;
use crate::part::numbers_in;
use crate::reader::RunReader;
use stream::width::Width;

impl<'a> RunReader<'a> {
    /// A reader of BIT_PACKED (encoding 4). A number is good if it is below the limit.
    pub fn bit_packed(bytes: &'a [u8], width: Width, limit: u64) -> RunReader<'a>
        ensures { to_come result ≡ bit_packed width.bits limit bytes.now }
    {
        let bits = width.bits() as usize;
        if bits == 0 {
            return RunReader::hybrid(&[], width, limit);
        }
        // So many bytes hold more numbers than a run may have, at any width; below, eight times the length fits.
        if bytes.len() >= 1 << 34 {
            return RunReader::broken(width);
        }
        let count = numbers_in(bytes.len(), bits);
        if count > 2147483647 {
            return RunReader::broken(width);
        }
        let part = Part {
            order: Order::HighFirst,
            bytes,
            width,
            skip: 0,
            count,
        };
        // Kept: every field. Tried over those of `hybrid`, whose contract does not name them.
        RunReader {
            width,
            limit,
            bytes: &[],
            run: Run::Packed(part),
        }
    }
}
