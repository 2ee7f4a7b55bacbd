//! Reading ahead, and handing on.

ghost use Rattle.std.specs.Prelude.{◌≡◌, ◌-◌, ◌<◌, ◌≤◌, min, map, length, take, IfOk, IfErr};
ghost use Rattle.stream.specs.Streams.{ended, clean, fault};
ghost use Rattle.run.specs.Reading.{after};
ghost use Rattle.area.specs.Areas.{room as room_of, appended};
ghost use Rattle.level.specs.Levels.{level};
ghost use Rattle.level.specs.Lookahead.{coming};
ghost use Rattle.level.specs.Records.{walk};

use crate::ahead::Ahead;
use crate::asked::Asked;
use crate::walk::Walk;
use area::area::Area;
use element::number::Number;
use element::slices::write_numbers;
use run::kind::StreamFault;
use run::reader::RunReader;

/// Appends levels, which fit.
fn append_levels<T: Number>(levels: &[u32], out: &mut Area<'_, T>)
    requires { length levels.now ≤ room_of out.old }
    ensures { out.new ≡ appended out.old (map T.Number.from levels.now) }
{
    let at = out.len();
    let n = levels.len();
    write_numbers(levels, &mut out.slice[at..at + n]);
    out.advance(n);
}

impl<'a> Ahead<'a> {
    /// Reads ahead where nothing is held: how many levels are held then, none at a clean end; or the fault that comes first.
    pub(crate) fn ready(&mut self) -> Result<usize, StreamFault>
        ensures many { IfOk result (λ k. k ≡ self.new.len - self.new.offset) }
        ensures there { IfOk result (λ k. k ≤ length (coming self.new).numbers) }
        ensures comes { coming self.new ≡ coming self.old }
        ensures clean { result ≡ Ok 0 → coming self.new ≡ ended clean }
        ensures fault { IfErr result (λ _. coming self.new ≡ ended fault) }
    {
        if self.offset < self.len {
            return Ok(self.len - self.offset);
        }
        let k = self.reader.read_some(&mut self.buffer)?;
        self.offset = 0;
        self.len = k;
        Ok(k)
    }

    /// Walks over the next `n` levels that are held.
    pub(crate) fn walk_held(&self, n: usize, asked: Asked) -> Walk
        requires held { n ≤ self.now.len - self.now.offset }
        requires some { 0 < asked.records }
        ensures is { result ≡ walk asked.opened asked.records (take n (coming self.now).numbers) }
        ensures most { result.taken ≤ n }
        ensures few { result.closed ≤ asked.records }
    {
        let at = self.offset;
        asked.walk(&self.buffer[at..at + n])
    }

    /// Hands on the next `k` levels that are held, those that fit to an area.
    pub(crate) fn hand_on(&mut self, out: &mut Area<'_, i16>, k: usize)
        requires { k ≤ self.old.len - self.old.offset }
        ensures comes { coming self.new ≡ after k (coming self.old) }
        ensures holds { out.new ≡ appended out.old (map level (take (min k (room_of out.old)) (coming self.old).numbers)) }
    {
        let fit = k.min(out.room());
        let at = self.offset;
        append_levels(&self.buffer[at..at + fit], out);
        self.offset = at + k;
    }
}
