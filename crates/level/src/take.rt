//! Levels into an area.

ghost use Rattle.std.specs.Prelude.{◌≡◌, ◌≤◌, length, IfOk};
ghost use Rattle.run.specs.Coming.{to_come};
ghost use Rattle.level.specs.Courses.{left_of, area_of};

use crate::course::Course;
use crate::refusal::LevelRefusal;
use area::area::Area;
use element::blank::Blank;
use element::number::Number;
use run::reader::RunReader;

/// Takes the levels of a call, and appends those that fit; or leaves nothing to come, and blanks behind what is filled.
pub(crate) fn deliver<T: Number + Blank>(
    reader: &mut RunReader<'_>,
    out: &mut Area<'_, T>,
    course: Result<Course, LevelRefusal>,
)
    requires { IfOk course (λ c. c.taken ≤ length (to_come reader.old).numbers) }
    ensures comes { to_come reader.new ≡ left_of course (to_come reader.old) }
    ensures holds { out.new ≡ area_of T.Number.from T.Blank.blank_is course (to_come reader.old) out.old }
{
    match course {
        Ok(course) => {
            let n = course.taken.min(out.room());
            let at = out.len();
            // All of them are there, so that the replies say nothing.
            let _ = reader.read(&mut out.slice[at..at + n]);
            out.advance(n);
            let _ = reader.skip(course.taken - n);
        }
        Err(_) => {
            let count = out.count;
            out.set_back(count);
            *reader = RunReader::empty();
        }
    }
}

/// Takes the levels of a call, or leaves nothing to come.
pub(crate) fn pass(reader: &mut RunReader<'_>, course: Result<Course, LevelRefusal>)
    requires { IfOk course (λ c. c.taken ≤ length (to_come reader.old).numbers) }
    ensures { to_come reader.new ≡ left_of course (to_come reader.old) }
{
    match course {
        Ok(course) => {
            let _ = reader.skip(course.taken);
        }
        Err(_) => *reader = RunReader::empty(),
    }
}
