//! Where a decoder has repetition levels from.

ghost use Rattle.std.specs.Prelude.{◌≡◌, pos};
ghost use Rattle.stream.specs.Streams.{Stream};
ghost use Rattle.run.specs.Coming.{to_come};
ghost use Rattle.area.specs.Areas.{room};
ghost use Rattle.level.specs.Levels.{level};
ghost use Rattle.level.specs.Courses.{admitted, left_of, area_of};
ghost use Rattle.level.specs.Records.{course_of};

use crate::asked::Asked;
use crate::block::rep_course;
use crate::course::{Course, admit};
use crate::refusal::LevelRefusal;
use crate::take::{deliver, pass};
use area::area::Area;
use run::reader::RunReader;

/// Where a decoder has repetition levels from.
pub trait LevelSource<'a>: Sized {
    // The levels to come.
    ghost stream: { Self → Stream };

    /// The levels of a reader.
    fn over(reader: RunReader<'a>) -> Self
        ensures { stream result ≡ to_come reader.entry };

    /// Goes on at another reader, and forgets what was to come.
    fn restart(&mut self, reader: RunReader<'a>)
        ensures { stream self.new ≡ to_come reader.entry };

    /// Takes the levels of a call and appends those that fit. A refused call leaves nothing to come.
    fn take(&mut self, out: &mut Area<'_, i16>, asked: Asked) -> Result<Course, LevelRefusal>
        ensures told { result ≡ admitted (room out.old) (course_of asked (stream self.old)) }
        ensures comes { stream self.new ≡ left_of result (stream self.old) }
        ensures holds { out.new ≡ area_of level (pos 0) result (stream self.old) out.old };

    /// Takes the levels of a call, and leaves them out.
    // Kept: `pass` beside `take`, here, in the decoders and below. What has no area says nothing of one.
    fn pass(&mut self, asked: Asked) -> Result<Course, LevelRefusal>
        ensures told { result ≡ admitted asked.levels (course_of asked (stream self.old)) }
        ensures comes { stream self.new ≡ left_of result (stream self.old) };
}

/// A source that never works ahead.
impl<'a> LevelSource<'a> for RunReader<'a> {
    ghost stream = { to_come };

    fn over(reader: RunReader<'a>) -> RunReader<'a> {
        reader
    }

    fn restart(&mut self, reader: RunReader<'a>) {
        *self = reader;
    }

    fn take(&mut self, out: &mut Area<'_, i16>, asked: Asked) -> Result<Course, LevelRefusal> {
        let course = admit(rep_course(*self, asked), out.room());
        deliver(self, out, course);
        course
    }

    fn pass(&mut self, asked: Asked) -> Result<Course, LevelRefusal> {
        let course = admit(rep_course(*self, asked), asked.levels);
        pass(self, course);
        course
    }
}
