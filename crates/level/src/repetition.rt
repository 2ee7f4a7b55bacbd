//! Decoders of repetition levels.

ghost use Rattle.std.specs.Prelude.{◌≡◌, false, pos};
ghost use Rattle.level_bytes.specs.Cuts.{above_zero};
ghost use Rattle.area.specs.Areas.{room};
ghost use Rattle.level.specs.Levels.{levels, level};
ghost use Rattle.level.specs.Columns.{rep_call, after_call};
ghost use Rattle.level.specs.Courses.{reply, area_after};

use crate::asked::Asked;
use crate::column::ColumnLevelDecoder;
use crate::course::{answer, is_open_after};
use crate::encoding::{LevelEncoding, level_reader};
use crate::refusal::LevelRefusal;
use crate::source::LevelSource;
use area::area::Area;
use run::reader::RunReader;
use std::mem;

/// A decoder of repetition levels.
pub trait RepetitionLevelDecoder<'a>: ColumnLevelDecoder<'a> {
    /// Takes levels until `num_records` records are closed, or `num_levels` are taken, or a clean end; appends them, and tells how many records it
    /// closed, then how many levels it took. At a clean end the front that fits is appended. A refused call leaves nothing to come and no record open.
    // Kept: two counts as the Rust crate tells them, here and in the calls below, as for definition levels.
    fn read_rep_levels(
        &mut self,
        out: &mut Area<'_, i16>,
        num_records: usize,
        num_levels: usize,
    ) -> Result<(usize, usize), LevelRefusal>
        ensures told { result ≡ reply (room out.old) (rep_call num_records num_levels (Self.column self.old)) }
        ensures stands { Self.column self.new ≡ after_call (room out.old) (rep_call num_records num_levels (Self.column self.old)) (Self.column self.old) }
        ensures holds { out.new ≡ area_after level (pos 0) (rep_call num_records num_levels (Self.column self.old)) (Self.column self.old).levels out.old };

    /// Takes levels as `read_rep_levels` does, and leaves them out.
    fn skip_rep_levels(
        &mut self,
        num_records: usize,
        num_levels: usize,
    ) -> Result<(usize, usize), LevelRefusal>
        ensures told { result ≡ reply num_levels (rep_call num_records num_levels (Self.column self.old)) }
        ensures stands { Self.column self.new ≡ after_call num_levels (rep_call num_records num_levels (Self.column self.old)) (Self.column self.old) };

    /// Closes an open record, and tells whether one was open.
    fn flush_partial(&mut self) -> bool
        ensures told { result ≡ (Self.column self.old).opened }
        ensures stands { Self.column self.new ≡ record (Self.column self.old) { opened = false } };
}

/// A decoder of repetition levels from a source.
#[derive(Drop)]
pub struct RepetitionDecoder<S> {
    max_level: i16,
    source: S,
    partial: bool,
}

/// A decoder of repetition levels that never works ahead.
pub type PlainRepetitionDecoder<'a> = RepetitionDecoder<RunReader<'a>>;

impl<'a, S: LevelSource<'a> + Drop> ColumnLevelDecoder<'a> for RepetitionDecoder<S> {
    ghost rule = { levels };

    ghost mask = { false };

    ghost column = { λ s. record { maximum = above_zero s.max_level; levels = S.stream s.source; opened = s.partial } };

    fn new(max_level: i16) -> RepetitionDecoder<S> {
        RepetitionDecoder {
            max_level,
            source: S::over(RunReader::empty()),
            partial: false,
        }
    }

    fn set_data(&mut self, encoding: LevelEncoding, data: &'a [u8]) {
        self.source
            .restart(level_reader(self.max_level, encoding, data));
    }
}

impl<'a, S: LevelSource<'a> + Drop> RepetitionLevelDecoder<'a> for RepetitionDecoder<S> {
    fn read_rep_levels(
        &mut self,
        out: &mut Area<'_, i16>,
        num_records: usize,
        num_levels: usize,
    ) -> Result<(usize, usize), LevelRefusal> {
        let asked = Asked::new(self.partial, num_records, num_levels);
        let course = self.source.take(out, asked);
        self.partial = is_open_after(course);
        answer(course)
    }

    fn skip_rep_levels(
        &mut self,
        num_records: usize,
        num_levels: usize,
    ) -> Result<(usize, usize), LevelRefusal> {
        let asked = Asked::new(self.partial, num_records, num_levels);
        let course = self.source.pass(asked);
        self.partial = is_open_after(course);
        answer(course)
    }

    fn flush_partial(&mut self) -> bool {
        mem::replace(&mut self.partial, false)
    }
}
