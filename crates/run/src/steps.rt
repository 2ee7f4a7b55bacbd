//! Steps within a run.

ghost use Rattle.std.specs.Prelude.{◌≡◌, true, false, ◌≤◌, ◌<◌, ◌++◌, map, length, take, drop, nat_lt, ◌==◌};
ghost use Rattle.run.specs.Packed.{numbers, good};
ghost use Rattle.run.specs.Coming.{next_of, to_come, Steps, Stopped};
ghost use Rattle.run.specs.Reading.{after};
ghost use Rattle.run.specs.Runs.{copied, left_of};

use crate::copies::Copies;
use crate::kind::Run;
use crate::packed::Part;
use crate::reader::RunReader;
use element::number::Number;
use element::slices::fill_all;

/// Whether a number is good.
// Kept: a name for the one test of the limit that both kinds of run make.
fn below(x: u32, limit: u64) -> bool
    ensures { result ≡ nat_lt x limit }
{
    u64::from(x) < limit
}

// Kept: `pass` beside `take`, here and below. One function of both would take the places as an option, and say of them in every clause what is said
// where there are some.
impl Copies {
    /// Passes over the next copies, `m` at most, or over none where they are not below the limit; tells how many.
    fn pass(&mut self, limit: u64, m: usize) -> usize
        ensures is { result ≡ good limit (take m (copied self.old)) }
        ensures left { copied self.new ≡ drop result (copied self.old) }
    {
        if !below(self.value, limit) {
            return 0;
        }
        let n = m.min(self.count);
        self.count -= n;
        n
    }

    /// Writes the next copies, as many as there are places, or none where they are not below the limit; tells how many.
    fn take<T: Number>(&mut self, limit: u64, out: &mut [T]) -> usize
        ensures is { result ≡ good limit (take (length out.old) (copied self.old)) }
        ensures left { copied self.new ≡ drop result (copied self.old) }
        ensures written { out.new ≡ map T.Number.from (take result (copied self.old)) ++ drop result out.old }
    {
        if !below(self.value, limit) {
            return 0;
        }
        let n = out.len().min(self.count);
        fill_all(&mut out[..n], T::from_u32(self.value));
        self.count -= n;
        n
    }
}

impl<'a> Part<'a> {
    /// Passes over the next numbers, `m` at most, but none from the first on that is not below the limit; tells how many.
    fn pass(&mut self, limit: u64, m: usize) -> usize
        ensures is { result ≡ good limit (take m (numbers self.old)) }
        ensures left { numbers self.new ≡ drop result (numbers self.old) }
    {
        let k = self.front(m.min(self.count)).good(limit);
        self.advance(k);
        k
    }

    /// Writes the next numbers, as many as there are places, but none from the first on that is not below the limit; tells how many.
    fn take<T: Number>(&mut self, limit: u64, out: &mut [T]) -> usize
        ensures is { result ≡ good limit (take (length out.old) (numbers self.old)) }
        ensures left { numbers self.new ≡ drop result (numbers self.old) }
        ensures written { out.new ≡ map T.Number.from (take result (numbers self.old)) ++ drop result out.old }
    {
        let n = out.len().min(self.count);
        let k = self.front(n).unpack_good(limit, &mut out[..n]);
        self.advance(k);
        k
    }
}

impl<'a> Run<'a> {
    /// Whether a number is left.
    #[tactic(auto, using(crate::proofs::PackedParts::numbers_length))]
    pub(crate) fn is_empty(self) -> bool
        ensures { result ≡ (length (left_of self.entry) == 0) }
    {
        match self {
            Run::Repeated(copies) => copies.count == 0,
            Run::Packed(part) => part.count == 0,
        }
    }

    /// Whether it has `m` numbers below the limit in front, where that shows without a look at packed numbers.
    fn holds(&self, limit: u64, m: usize) -> bool
        ensures { result ≡ true → m ≤ good limit (left_of self.now) }
    {
        match self {
            Run::Repeated(copies) => m <= copies.count && below(copies.value, limit),
            Run::Packed(part) => m <= part.count && part.fits_below(limit),
        }
    }

    /// Passes over the next `m` numbers.
    fn advance(&mut self, m: usize)
        requires { m ≤ length (left_of self.old) }
        ensures { left_of self.new ≡ drop m (left_of self.old) }
    {
        match self {
            Run::Repeated(copies) => copies.count -= m,
            Run::Packed(part) => part.advance(m),
        }
    }

    /// Passes over the next numbers, `m` at most, but none from the first on that is not below the limit; tells how many.
    fn pass(&mut self, limit: u64, m: usize) -> usize
        ensures is { result ≡ good limit (take m (left_of self.old)) }
        ensures left { left_of self.new ≡ drop result (left_of self.old) }
    {
        match self {
            Run::Repeated(copies) => copies.pass(limit, m),
            Run::Packed(part) => part.pass(limit, m),
        }
    }

    /// Writes the next numbers, as many as there are places, but none from the first on that is not below the limit; tells how many.
    fn take<T: Number>(&mut self, limit: u64, out: &mut [T]) -> usize
        ensures is { result ≡ good limit (take (length out.old) (left_of self.old)) }
        ensures left { left_of self.new ≡ drop result (left_of self.old) }
        ensures written { out.new ≡ map T.Number.from (take result (left_of self.old)) ++ drop result out.old }
    {
        match self {
            Run::Repeated(copies) => copies.take(limit, out),
            Run::Packed(part) => part.take(limit, out),
        }
    }
}

impl<'a> RunReader<'a> {
    /// Passes over the next `m` numbers and tells so, where it shows without a look at packed numbers that they lie in the run and are good.
    pub(crate) fn step(&mut self, m: usize) -> bool
        ensures there { result ≡ true → m ≤ length (to_come self.old).numbers }
        ensures on { result ≡ true → to_come self.new ≡ after m (to_come self.old) }
        ensures stays { result ≡ false → self.new ≡ self.old }
    {
        if !self.run.holds(self.limit, m) {
            return false;
        }
        self.run.advance(m);
        true
    }

    /// Writes the next numbers of the run, as many as there are places, but none from the first on that is not below the limit; tells how many.
    pub(crate) fn take<T: Number>(&mut self, out: &mut [T]) -> usize
        ensures steps { Steps self.old result self.new }
        ensures most { result ≤ length out.old }
        ensures stops { result < length out.old → Stopped self.new }
        ensures written { out.new ≡ map T.Number.from (next_of self.old result) ++ drop result out.old }
    {
        self.run.take(self.limit, out)
    }

    /// Passes over the next numbers of the run, `m` at most, but none from the first on that is not below the limit; tells how many.
    pub(crate) fn pass(&mut self, m: usize) -> usize
        ensures steps { Steps self.old result self.new }
        ensures most { result ≤ m }
        ensures stops { result < m → Stopped self.new }
    {
        self.run.pass(self.limit, m)
    }
}
