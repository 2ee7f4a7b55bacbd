//! Records, a block of levels at a time.

ghost use Rattle.std.specs.Prelude.{◌≡◌, ◌≤◌, length, IfOk};
ghost use Rattle.run.specs.Coming.{to_come};
ghost use Rattle.level.specs.Records.{course_of};

use crate::asked::Asked;
use crate::course::Course;
use crate::walk::Walk;
use run::kind::StreamFault;
use run::reader::RunReader;

/// What a call for records comes to.
// Kept: a loop like that of `Ahead::walk_on`, which holds its levels and hands them on as it goes. One loop for both would call a trait for each of its
// three steps, and the trait would be longer than the loop.
pub(crate) fn rep_course(reader: RunReader<'_>, asked: Asked) -> Result<Course, StreamFault>
    ensures is { result ≡ course_of asked (to_come reader.entry) }
    ensures there { IfOk result (λ c. c.taken ≤ length (to_come reader.entry).numbers) }
{
    let mut ahead = reader;
    let mut walk = Walk::none(asked.opened);
    if asked.levels == 0 {
        // Before there is a block to clear.
        return Ok(walk.course(true));
    }
    // Kept: an array, since a decoder has no heap.
    let mut block = [0u32; 1024];
    'walks: loop {
        let rest = asked.behind(walk);
        if rest.levels == 0 {
            return Ok(walk.course(true));
        }
        let size = rest.levels.min(1024);
        let k = ahead.read_some(&mut block[..size])?;
        if k == 0 {
            return Ok(walk.course(false));
        }
        walk = walk.then(rest.walk(&block[..k]));
        if walk.stopped {
            return Ok(walk.course(true));
        }
    }
}
