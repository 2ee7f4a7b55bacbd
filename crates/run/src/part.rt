//! Parts of packed numbers, in either order.

ghost use Rattle.std.specs.Prelude.{◌≡◌, ◌^◌, ◌/◌, ◌*◌, ◌+◌, ◌<◌, ◌≤◌, ◌++◌, true, map, length, take, drop, slice_index};
ghost use Rattle.run.specs.Packed.{numbers, good, all_good};

use crate::high::high_bits;
use crate::limit::first_at_least;
use crate::low::low_bits;
use crate::order::Order;
use crate::packed::Part;
use element::number::Number;
use element::slices::write_numbers;

/// How many numbers are unpacked before they are held against a limit.
const BLOCK: usize = 256;

/// How many numbers of `width` bits lie whole in `len` bytes.
pub(crate) fn numbers_in(len: usize, width: usize) -> usize
    requires some_bits { 0 < width }
    requires short { len < 2 ^ 34 }
    ensures { result ≡ 8 * len / width }
{
    8 * len / width
}

// Kept: `length out.old ≡ self.count` in four contracts, and what is written in three. A type of as many places as numbers would be made and taken apart
// at each of their calls.
impl<'a> Part<'a> {
    /// The first `n` of the numbers.
    pub(crate) fn front(mut self, n: usize) -> Part<'a>
        requires { n ≤ self.count }
        ensures order { result.order ≡ self.entry.order }
        ensures count { result.count ≡ n }
        ensures numbers { numbers result ≡ take n (numbers self.entry) }
    {
        self.count = n;
        self
    }

    /// The numbers behind the first `n`.
    pub(crate) fn behind(mut self, n: usize) -> Part<'a>
        requires { n ≤ self.count }
        ensures order { result.order ≡ self.entry.order }
        ensures skip { result.skip ≡ self.entry.skip + n }
        ensures count { result.count + n ≡ self.entry.count }
        ensures numbers { numbers result ≡ drop n (numbers self.entry) }
    {
        self.advance(n);
        self
    }

    /// Passes over the first `n` of the numbers.
    pub(crate) fn advance(&mut self, n: usize)
        requires { n ≤ self.old.count }
        ensures order { self.new.order ≡ self.old.order }
        ensures skip { self.new.skip ≡ self.old.skip + n }
        ensures count { self.new.count + n ≡ self.old.count }
        ensures numbers { numbers self.new ≡ drop n (numbers self.old) }
    {
        // In this order, so that the numbers lie whole in the bytes at each step.
        self.count -= n;
        self.skip += n;
    }

    /// The number at the place `i`.
    fn number(self, i: usize) -> u32
        requires { i < self.count }
        ensures { result ≡ slice_index (numbers self.entry) i }
    {
        let at = (self.skip + i) * self.width.bits() as usize;
        match self.order {
            Order::LowFirst => low_bits(self.bytes, at, self.width),
            Order::HighFirst => high_bits(self.bytes, at, self.width),
        }
    }

    /// Writes the numbers, one at a time.
    #[inline(always)]
    pub(crate) fn one_by_one<T: Number>(self, out: &mut [T])
        requires { length out.old ≡ self.count }
        ensures { out.new ≡ map T.Number.from (numbers self.entry) }
    {
        for (i, x) in out.iter_mut().enumerate() {
            *x = T::from_u32(self.number(i));
        }
    }

    /// Writes the numbers.
    pub(crate) fn unpack<T: Number>(self, out: &mut [T])
        requires { length out.old ≡ self.count }
        ensures { out.new ≡ map T.Number.from (numbers self.entry) }
    {
        match self.order {
            Order::LowFirst => self.unpack_up(out),
            Order::HighFirst => self.one_by_one(out),
        }
    }

    /// Unpacks the first block of the numbers and moves on behind it; tells how many of them are good, in front of the first that is not below the limit. Behind that one nothing is left.
    fn next_good(&mut self, limit: u64, held: &mut [u32]) -> usize
        requires some { 0 < self.old.count }
        requires places { length held.old ≡ 256 }
        ensures most { result ≤ 256 }
        ensures smaller { self.new.count < self.old.count }
        ensures count { good limit (numbers self.old) ≡ result + good limit (numbers self.new) }
        ensures good { all_good limit (numbers self.old) ≡ take result held.new ++ all_good limit (numbers self.new) }
    {
        let n = self.count.min(BLOCK);
        self.front(n).unpack(&mut held[..n]);
        let k = first_at_least(&held[..n], limit);
        *self = if k < n { self.front(0) } else { self.behind(n) };
        k
    }

    /// Whether the limit is above every number of the width.
    pub(crate) fn fits_below(self, limit: u64) -> bool
        ensures { result ≡ true → good limit (numbers self.entry) ≡ self.entry.count }
    {
        limit >= 1 << self.width.bits()
    }

    /// How many of the numbers stand in front of the first that is not below the limit.
    pub(crate) fn good(self, limit: u64) -> usize
        ensures { result ≡ good limit (numbers self.entry) }
    {
        if self.fits_below(limit) {
            self.count
        } else {
            self.good_held(limit)
        }
    }

    /// The same by blocks that are held against the limit. A call of its own: its array stays out of calls that hold nothing.
    #[inline(never)]
    fn good_held(self, limit: u64) -> usize
        ensures { result ≡ good limit (numbers self.entry) }
    {
        let mut held = [0u32; BLOCK];
        let mut rest = self;
        let mut k = 0;
        while rest.count > 0 {
            k += rest.next_good(limit, &mut held);
        }
        k
    }

    // Kept: beside `good`, as `take` beside `pass`.
    /// Writes the numbers that stand in front of the first that is not below the limit, and tells how many.
    pub(crate) fn unpack_good<T: Number>(self, limit: u64, out: &mut [T]) -> usize
        requires { length out.old ≡ self.count }
        ensures is { result ≡ good limit (numbers self.entry) }
        ensures written { out.new ≡ map T.Number.from (take result (numbers self.entry)) ++ drop result out.old }
    {
        if self.fits_below(limit) {
            self.unpack(out);
            self.count
        } else {
            self.unpack_held(limit, out)
        }
    }

    /// The same by blocks that are held against the limit, a call of its own as `good_held` is.
    #[inline(never)]
    fn unpack_held<T: Number>(self, limit: u64, out: &mut [T]) -> usize
        requires { length out.old ≡ self.count }
        ensures is { result ≡ good limit (numbers self.entry) }
        ensures written { out.new ≡ map T.Number.from (take result (numbers self.entry)) ++ drop result out.old }
    {
        let mut held = [0u32; BLOCK];
        let mut rest = self;
        let mut k = 0;
        while rest.count > 0 {
            let n = rest.next_good(limit, &mut held);
            write_numbers(&held[..n], &mut out[k..k + n]);
            k += n;
        }
        k
    }
}
