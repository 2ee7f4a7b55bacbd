//! What a call for levels comes to.

ghost use Rattle.std.specs.Prelude.{◌≡◌};
ghost use Rattle.level.specs.Courses.{admitted, reply_of, open_of};

use crate::refusal::LevelRefusal;
use run::kind::StreamFault;

/// What a call for levels comes to, before the area's room is looked at.
#[derive(Clone, Copy)]
pub struct Course {
    /// All that was asked for is there.
    // Kept: a flag, since the fields beside it say the same of a call in either case.
    pub full: bool,
    /// How many levels it takes.
    pub taken: usize,
    /// How many of them equal the maximum, or how many records it closes.
    pub told: usize,
    /// Whether a record is open behind them.
    pub opened: bool,
}

/// What comes of a call where there is room for `room` levels, or why it is refused.
pub(crate) fn admit(
    course: Result<Course, StreamFault>,
    room: usize,
) -> Result<Course, LevelRefusal>
    ensures { result ≡ admitted room course }
{
    let course = course?;
    if course.full && course.taken > room {
        return Err(LevelRefusal::NoRoom);
    }
    Ok(course)
}

/// What a call replies.
pub(crate) fn answer(course: Result<Course, LevelRefusal>) -> Result<(usize, usize), LevelRefusal>
    ensures { result ≡ reply_of course }
{
    course.map(|course| (course.told, course.taken))
}

/// Whether a record is open after a call.
pub(crate) fn is_open_after(course: Result<Course, LevelRefusal>) -> bool
    ensures { result ≡ open_of course }
{
    course.is_ok_and(|course| course.opened)
}
