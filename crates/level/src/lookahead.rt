//! A decoder of repetition levels that works ahead.

ghost use Rattle.std.specs.Prelude.{◌≡◌, min, map, take, pos, IfOk};
ghost use Rattle.run.specs.Reading.{after};
ghost use Rattle.area.specs.Areas.{room as room_of, appended, blanked};
ghost use Rattle.level.specs.Levels.{level};
ghost use Rattle.level.specs.Lookahead.{coming};
ghost use Rattle.level.specs.Records.{course_of};

use crate::ahead::Ahead;
use crate::asked::Asked;
use crate::course::{Course, admit};
use crate::refusal::LevelRefusal;
use crate::repetition::RepetitionDecoder;
use crate::source::LevelSource;
use crate::walk::Walk;
use area::area::Area;
use run::kind::StreamFault;
use run::reader::RunReader;

/// A decoder of repetition levels that works up to 1,024 levels ahead, which no reply shows.
pub type RepetitionLevelDecoderImpl<'a> = RepetitionDecoder<Ahead<'a>>;

impl<'a> Ahead<'a> {
    /// Takes levels from block to block, and appends those that fit.
    fn walk_on(&mut self, out: &mut Area<'_, i16>, asked: Asked) -> Result<Course, StreamFault>
        ensures is { result ≡ course_of asked (coming self.old) }
        ensures comes { IfOk result (λ c. coming self.new ≡ after c.taken (coming self.old)) }
        ensures holds { IfOk result (λ c. out.new ≡ appended out.old (map level (take (min c.taken (room_of out.old)) (coming self.old).numbers))) }
        ensures back { blanked (pos 0) out.new out.old.count ≡ blanked (pos 0) out.old out.old.count }
    {
        let mut walk = Walk::none(asked.opened);
        'walks: loop {
            let rest = asked.behind(walk);
            if rest.levels == 0 {
                return Ok(walk.course(true));
            }
            let k = self.ready()?;
            if k == 0 {
                return Ok(walk.course(false));
            }
            let next = self.walk_held(k.min(rest.levels), rest);
            self.hand_on(out, next.taken);
            walk = walk.then(next);
            if walk.stopped {
                return Ok(walk.course(true));
            }
        }
    }
}

impl<'a> LevelSource<'a> for Ahead<'a> {
    ghost stream = { coming };

    fn over(reader: RunReader<'a>) -> Ahead<'a> {
        Ahead {
            reader,
            buffer: [0; 1024],
            len: 0,
            offset: 0,
        }
    }

    fn restart(&mut self, reader: RunReader<'a>) {
        self.offset = 0;
        self.len = 0;
        self.reader = reader;
    }

    fn take(&mut self, out: &mut Area<'_, i16>, asked: Asked) -> Result<Course, LevelRefusal> {
        let count = out.count;
        let room = out.room();
        let course = admit(self.walk_on(out, asked), room);
        if course.is_err() {
            out.set_back(count);
            self.restart(RunReader::empty());
        }
        course
    }

    fn pass(&mut self, asked: Asked) -> Result<Course, LevelRefusal> {
        let mut nowhere = Area::missing();
        let course = admit(self.walk_on(&mut nowhere, asked), asked.levels);
        if course.is_err() {
            self.restart(RunReader::empty());
        }
        course
    }
}
