//! Numbers packed from the lowest bit up.

ghost use Rattle.std.specs.Prelude.{◌≡◌, ◌+◌, ◌*◌, ◌/◌, ◌%◌, ◌^◌, ◌<◌, ◌≤◌, map, length, take, drop};
ghost use Rattle.stream.specs.Packing.{le, low_first};
ghost use Rattle.run.specs.Packed.{numbers};
ghost use Rattle.run.specs.declared.order.Order.TheVariants.{LowFirst};

use crate::packed::Part;
use crate::word::{window, word};
use element::number::Number;
use stream::width::Width;

/// The number that starts at the bit `at`, counted from the lowest of each byte up.
pub(crate) fn low_bits(bytes: &[u8], at: usize, width: Width) -> u32
    requires { at + width.bits ≤ 8 * length bytes.now }
    ensures { result ≡ le bytes.now / 2 ^ at % 2 ^ width.bits }
{
    let x = window(bytes, at / 8) >> (at % 8);
    (x & ((1 << width.bits()) - 1)) as u32
}

/// Writes a group of eight numbers; the bytes begin where it does.
fn group<T: Number, const W: usize>(bytes: &[u8], out: &mut [T])
    requires narrow { W ≤ 32 }
    requires there { W + 8 ≤ length bytes.now }
    requires places { length out.old ≡ 8 }
    ensures { out.new ≡ map T.Number.from (low_first W 8 bytes.now) }
{
    let mask = (1u64 << W) - 1;
    for (k, x) in out.iter_mut().enumerate() {
        // One word holds the group at a width of at most 8.
        let from = if W <= 8 { 0 } else { k * W / 8 };
        let bits = word(bytes, from) >> (k * W - 8 * from);
        *x = T::from_u32((bits & mask) as u32);
    }
}

// Kept: that a reply is at most the places, here, in `groups` and in `Run::take`, each of which hands it on.
/// Writes whole groups of numbers, as far as there are eight bytes behind a group, and tells how many numbers; the bytes begin where they do.
fn by_groups<T: Number, const W: usize>(bytes: &[u8], out: &mut [T]) -> usize
    requires some_bits { 0 < W }
    requires narrow { W ≤ 32 }
    ensures most { result ≤ length out.old }
    ensures is { take result out.new ≡ map T.Number.from (low_first W result bytes.now) }
{
    if bytes.len() < 8 {
        return 0;
    }
    let groups = (out.len() / 8).min((bytes.len() - 8) / W);
    // Kept: groups by their number. Through `chunks_exact_mut` (tried) no invariant sees what is written.
    for g in 0..groups {
        group::<T, W>(&bytes[g * W..], &mut out[8 * g..8 * g + 8]);
    }
    8 * groups
}

/// `by_groups` at the width.
// Kept: 32 arms. A const argument is not made from a value, so a match is the form; a table would hold pointers to functions.
fn groups<T: Number>(bytes: &[u8], width: u32, out: &mut [T]) -> usize
    ensures most { result ≤ length out.old }
    ensures is { take result out.new ≡ map T.Number.from (low_first width result bytes.now) }
{
    match width {
        1 => by_groups::<T, 1>(bytes, out),
        2 => by_groups::<T, 2>(bytes, out),
        3 => by_groups::<T, 3>(bytes, out),
        4 => by_groups::<T, 4>(bytes, out),
        5 => by_groups::<T, 5>(bytes, out),
        6 => by_groups::<T, 6>(bytes, out),
        7 => by_groups::<T, 7>(bytes, out),
        8 => by_groups::<T, 8>(bytes, out),
        9 => by_groups::<T, 9>(bytes, out),
        10 => by_groups::<T, 10>(bytes, out),
        11 => by_groups::<T, 11>(bytes, out),
        12 => by_groups::<T, 12>(bytes, out),
        13 => by_groups::<T, 13>(bytes, out),
        14 => by_groups::<T, 14>(bytes, out),
        15 => by_groups::<T, 15>(bytes, out),
        16 => by_groups::<T, 16>(bytes, out),
        17 => by_groups::<T, 17>(bytes, out),
        18 => by_groups::<T, 18>(bytes, out),
        19 => by_groups::<T, 19>(bytes, out),
        20 => by_groups::<T, 20>(bytes, out),
        21 => by_groups::<T, 21>(bytes, out),
        22 => by_groups::<T, 22>(bytes, out),
        23 => by_groups::<T, 23>(bytes, out),
        24 => by_groups::<T, 24>(bytes, out),
        25 => by_groups::<T, 25>(bytes, out),
        26 => by_groups::<T, 26>(bytes, out),
        27 => by_groups::<T, 27>(bytes, out),
        28 => by_groups::<T, 28>(bytes, out),
        29 => by_groups::<T, 29>(bytes, out),
        30 => by_groups::<T, 30>(bytes, out),
        31 => by_groups::<T, 31>(bytes, out),
        32 => by_groups::<T, 32>(bytes, out),
        _ => 0,
    }
}

/// The bytes from `j` on. Their number is that of all the bytes with those in front shifted out.
fn bytes_from(bytes: &[u8], j: usize) -> &[u8]
    requires { j ≤ length bytes.now }
    ensures { le result.now ≡ le bytes.now / 2 ^ (8 * j) }
{
    &bytes[j..]
}

impl<'a> Part<'a> {
    /// Writes the numbers, packed from the lowest bit up.
    pub(crate) fn unpack_up<T: Number>(self, out: &mut [T])
        requires up { self.order ≡ LowFirst }
        requires places { length out.old ≡ self.count }
        ensures { out.new ≡ map T.Number.from (numbers self.entry) }
    {
        let head = ((8 - self.skip % 8) % 8).min(self.count);
        let width = self.width.bits();
        let bytes = bytes_from(self.bytes, (self.skip + head) / 8 * width as usize);
        let (first, rest) = out.split_at_mut(head);
        self.front(head).one_by_one(first);
        let n = groups(bytes, width, rest);
        self.behind(head + n).one_by_one(&mut rest[n..]);
    }
}
