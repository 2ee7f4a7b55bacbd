//! On to the next run.

ghost use Rattle.std.specs.Prelude.{◌≡◌, ◌+◌, ◌*◌, ◌/◌, ◌^◌, ◌<◌, ◌≤◌, length, drop, replicate, if◌then◌else◌, nat_le};
ghost use Rattle.stream.specs.Packing.{low_first};
ghost use Rattle.stream.specs.Streams.{hybrid, within, ended, clean, value_bytes};
ghost use Rattle.run.specs.Coming.{to_come, Continues, Stopped};

use crate::copies::Copies;
use crate::kind::{Run, StreamFault};
use crate::order::Order;
use crate::packed::Part;
use crate::part::numbers_in;
use crate::reader::RunReader;
use stream::header::{Start, read_header, read_start};

// Kept: a function of its own, the one place of the rule for a cut run; `numbers_in` counts where nothing is cut too.
/// How many numbers a packed run has that the end of the bytes cuts.
fn cut_numbers(rest: &[u8], width: usize) -> usize
    requires some_bits { 0 < width }
    requires short { length rest.now < 2 ^ 34 }
    ensures { result ≡ 8 * length rest.now / width }
{
    numbers_in(rest.len(), width)
}

impl<'a> RunReader<'a> {
    /// Goes on to the next run, once this one is read, and tells whether there is one; a fault too where a number comes next that is not good.
    // Kept: a flag, with the reader changed in place. Tried as a new reader in an Option; short runs then took half as long again.
    pub(crate) fn next_run(&mut self) -> Result<bool, StreamFault>
        requires { Stopped self.old }
        ensures { Continues self.old result self.new }
    {
        if !self.run.is_empty() {
            return Err(StreamFault);
        }
        let Some(header) = read_header(self.bytes)? else {
            return Ok(false);
        };
        let rest = &self.bytes[header.more + 1..];
        match read_start(self.width, header.number, rest)? {
            None => Ok(false),
            Some(Start::Repeated { count, value }) => {
                self.start_repeated(rest, count, value);
                Ok(true)
            }
            Some(Start::Packed { groups }) => {
                self.start_packed(rest, groups);
                Ok(true)
            }
        }
    }

    /// Goes on behind the header of a repeated run.
    fn start_repeated(&mut self, rest: &'a [u8], count: u32, value: u32)
        requires there { value_bytes self.old.width.bits ≤ length rest.now }
        requires few { count ≤ 2147483647 }
        ensures is { to_come self.new ≡ within self.old.limit (replicate count value) (hybrid self.old.width.bits self.old.limit (drop (value_bytes self.old.width.bits) rest.now)) }
        ensures on { length self.new.bytes.now ≤ length rest.now }
    {
        self.bytes = &rest[self.width.value_bytes()..];
        self.run = Run::Repeated(Copies {
            value,
            count: count as usize,
        });
    }

    /// Goes on behind the header of a packed run; the end of the bytes may cut it.
    fn start_packed(&mut self, rest: &'a [u8], groups: u32)
        requires { 8 * groups ≤ 2147483647 }
        ensures is { to_come self.new ≡ (if nat_le (self.old.width.bits * groups) (length rest.now) then within self.old.limit (low_first self.old.width.bits (8 * groups) rest.now) (hybrid self.old.width.bits self.old.limit (drop (self.old.width.bits * groups) rest.now)) else within self.old.limit (low_first self.old.width.bits (8 * length rest.now / self.old.width.bits) rest.now) (ended clean)) }
        ensures on { length self.new.bytes.now ≤ length rest.now }
    {
        let width = self.width.bits() as usize;
        let size = width * groups as usize;
        let count = if size <= rest.len() {
            8 * groups as usize
        } else {
            cut_numbers(rest, width)
        };
        self.bytes = &rest[size.min(rest.len())..];
        self.run = Run::Packed(Part {
            order: Order::LowFirst,
            bytes: rest,
            width: self.width,
            skip: 0,
            count,
        });
    }
}
