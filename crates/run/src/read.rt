//! Reading and skipping.

ghost use Rattle.std.specs.Prelude.{◌≡◌, length, OnOk};
ghost use Rattle.run.specs.Coming.{to_come};
ghost use Rattle.run.specs.Reading.{after, replied, some_of, rest, filled};

use crate::kind::StreamFault;
use crate::reader::RunReader;
use element::number::Number;

impl<'a> RunReader<'a> {
    /// Reads as many numbers as `out` has places, fewer only where the stream comes to a clean end, and tells how many.
    /// Where a fault comes first, the numbers before it are written, and the reader stays where it was.
    pub fn read<T: Number>(&mut self, out: &mut [T]) -> Result<usize, StreamFault>
        ensures reply { result ≡ replied (length out.old) (to_come self.old) }
        ensures rest { to_come self.new ≡ rest (length out.old) (to_come self.old) }
        ensures filled { out.new ≡ filled T.Number.from (to_come self.old) out.old }
    {
        let start = *self;
        let reply = self.read_through(out);
        if reply.is_err() {
            *self = start;
        }
        reply
    }

    // Kept: `filled` in three contracts. Each of the three calls hands on what the next one wrote, and its caller has to know it.
    /// The same, but a fault leaves the reader at the end of what was read.
    fn read_through<T: Number>(&mut self, out: &mut [T]) -> Result<usize, StreamFault>
        ensures reply { result ≡ replied (length out.old) (to_come self.old) }
        ensures rest { OnOk result (to_come self.new ≡ rest (length out.old) (to_come self.old)) }
        ensures filled { out.new ≡ filled T.Number.from (to_come self.old) out.old }
    {
        let k = self.read_some(out)?;
        if k < out.len() {
            // An end or a fault is next; a step more tells which.
            let _ = self.skip_some(1)?;
        }
        Ok(k)
    }

    // Kept: `skip` beside `read`, as `pass` beside `take`.
    /// Skips `m` numbers, fewer only where the stream comes to a clean end, and tells how many.
    /// Where a fault comes first, the reader stays where it was.
    pub fn skip(&mut self, m: usize) -> Result<usize, StreamFault>
        ensures reply { result ≡ replied m (to_come self.old) }
        ensures rest { to_come self.new ≡ rest m (to_come self.old) }
    {
        // Most calls stay within a run and meet no fault; they keep nothing to go back to.
        if self.step(m) {
            return Ok(m);
        }
        self.skip_or_stay(m)
    }

    /// The same over several runs, or up to a fault. A call of its own: what it keeps to go back to stays out of most calls.
    #[inline(never)]
    fn skip_or_stay(&mut self, m: usize) -> Result<usize, StreamFault>
        ensures reply { result ≡ replied m (to_come self.old) }
        ensures rest { to_come self.new ≡ rest m (to_come self.old) }
    {
        let before = *self;
        let reply = self.skip_through(m);
        if reply.is_err() {
            *self = before;
        }
        reply
    }

    /// The same, but a fault leaves the reader at the end of what was skipped.
    fn skip_through(&mut self, m: usize) -> Result<usize, StreamFault>
        ensures reply { result ≡ replied m (to_come self.old) }
        ensures rest { OnOk result (to_come self.new ≡ rest m (to_come self.old)) }
    {
        let k = self.skip_some(m)?;
        if k < m {
            let _ = self.skip_some(1)?;
        }
        Ok(k)
    }

    /// Reads as many numbers as `out` has places, fewer only before an end or a fault, and tells how many; the fault itself where not one number comes
    /// before it.
    pub fn read_some<T: Number>(&mut self, out: &mut [T]) -> Result<usize, StreamFault>
        ensures reply { result ≡ some_of (length out.old) (to_come self.old) }
        ensures rest { to_come self.new ≡ after (length out.old) (to_come self.old) }
        ensures filled { out.new ≡ filled T.Number.from (to_come self.old) out.old }
    {
        let mut k = 0;
        'runs: loop {
            k += self.take(&mut out[k..]);
            if k == out.len() {
                return Ok(k);
            }
            match self.next_run() {
                Ok(true) => {}
                Err(fault) if k == 0 => return Err(fault),
                _ => return Ok(k),
            }
        }
    }

    // Kept: the loop of `read_some` again; one loop with the step as a closure would carry the places that are written through the closure's contract.
    /// Passes over `m` numbers, fewer only before an end or a fault, and tells how many; the fault itself where not one number comes before it.
    fn skip_some(&mut self, m: usize) -> Result<usize, StreamFault>
        ensures reply { result ≡ some_of m (to_come self.old) }
        ensures rest { to_come self.new ≡ after m (to_come self.old) }
    {
        let mut passed = 0;
        'runs: loop {
            passed += self.pass(m - passed);
            if passed == m {
                return Ok(passed);
            }
            match self.next_run() {
                Ok(true) => {}
                Err(fault) if passed == 0 => return Err(fault),
                _ => return Ok(passed),
            }
        }
    }
}
