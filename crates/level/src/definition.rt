//! Decoders of definition levels.

ghost use Rattle.std.specs.Prelude.{◌≡◌, Bool, true, false};
ghost use Rattle.level_bytes.specs.Cuts.{above_zero};
ghost use Rattle.run.specs.Coming.{to_come};
ghost use Rattle.area.specs.Areas.{room};
ghost use Rattle.level.specs.Levels.{levels};
ghost use Rattle.level.specs.Columns.{def_call, after_call};
ghost use Rattle.level.specs.Courses.{reply, area_after};

use crate::column::ColumnLevelDecoder;
use crate::count::def_course;
use crate::course::{admit, answer};
use crate::encoding::{LevelEncoding, level_reader, top};
use crate::refusal::LevelRefusal;
use crate::take::{deliver, pass};
use area::area::Area;
use element::blank::Blank;
use element::number::Number;
use run::reader::RunReader;
use std::marker::PhantomData;

/// A decoder of definition levels.
pub trait DefinitionLevelDecoder<'a>: ColumnLevelDecoder<'a> {
    /// What a level is told as.
    type Level: Number + Blank;

    /// Takes `num_levels` levels, or those before a clean end, and appends them; tells how many equal the maximum, then how many it took.
    /// At a clean end the front that fits is appended. A refused call leaves nothing to come.
    // Kept: two counts as the Rust crate tells them, here and in the calls below; a struct would give its callers other names.
    fn read_def_levels(
        &mut self,
        out: &mut Area<'_, Self::Level>,
        num_levels: usize,
    ) -> Result<(usize, usize), LevelRefusal>
        ensures told { result ≡ reply (room out.old) (def_call num_levels (Self.column self.old)) }
        ensures stands { Self.column self.new ≡ after_call (room out.old) (def_call num_levels (Self.column self.old)) (Self.column self.old) }
        ensures holds { out.new ≡ area_after Self.Level.Number.from Self.Level.Blank.blank_is (def_call num_levels (Self.column self.old)) (Self.column self.old).levels out.old };

    /// Takes levels as `read_def_levels` does, and leaves them out.
    fn skip_def_levels(&mut self, num_levels: usize) -> Result<(usize, usize), LevelRefusal>
        ensures told { result ≡ reply num_levels (def_call num_levels (Self.column self.old)) }
        ensures stands { Self.column self.new ≡ after_call num_levels (def_call num_levels (Self.column self.old)) (Self.column self.old) };
}

/// A kind of level that decoders tell.
pub trait LevelKind: Number + Blank {
    // Whether levels of this kind fill a mask.
    ghost fills_mask: { Bool };
}

impl LevelKind for i16 {
    ghost fills_mask = { false };
}

impl LevelKind for bool {
    ghost fills_mask = { true };
}

/// A decoder of definition levels into levels of a kind.
#[derive(Drop)]
pub struct DefinitionLevelDecoderImpl<'a, L> {
    max_level: i16,
    reader: RunReader<'a>,
    kind: PhantomData<L>,
}

/// A decoder of definition levels into levels.
pub type LevelsDecoder<'a> = DefinitionLevelDecoderImpl<'a, i16>;

/// A decoder of definition levels into a mask, for the maximum 1: whether a level is not 0.
pub type MaskDecoder<'a> = DefinitionLevelDecoderImpl<'a, bool>;

impl<'a, L: LevelKind> ColumnLevelDecoder<'a> for DefinitionLevelDecoderImpl<'a, L> {
    ghost rule = { levels };

    ghost mask = { L.fills_mask };

    ghost column = { λ s. record { maximum = above_zero s.max_level; levels = to_come s.reader; opened = false } };

    fn new(max_level: i16) -> DefinitionLevelDecoderImpl<'a, L> {
        DefinitionLevelDecoderImpl {
            max_level,
            reader: RunReader::empty(),
            kind: PhantomData,
        }
    }

    fn set_data(&mut self, encoding: LevelEncoding, data: &'a [u8]) {
        self.reader = level_reader(self.max_level, encoding, data);
    }
}

impl<'a, L: LevelKind> DefinitionLevelDecoder<'a> for DefinitionLevelDecoderImpl<'a, L> {
    type Level = L;

    fn read_def_levels(
        &mut self,
        out: &mut Area<'_, L>,
        num_levels: usize,
    ) -> Result<(usize, usize), LevelRefusal> {
        let course = admit(
            def_course(self.reader, top(self.max_level), num_levels),
            out.room(),
        );
        deliver(&mut self.reader, out, course);
        answer(course)
    }

    fn skip_def_levels(&mut self, num_levels: usize) -> Result<(usize, usize), LevelRefusal> {
        let course = admit(
            def_course(self.reader, top(self.max_level), num_levels),
            num_levels,
        );
        pass(&mut self.reader, course);
        answer(course)
    }
}
