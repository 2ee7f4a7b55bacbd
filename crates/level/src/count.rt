//! How many levels equal the maximum.

ghost use Rattle.std.specs.Prelude.{◌≡◌, ◌≤◌, length, IfOk};
ghost use Rattle.run.specs.Coming.{to_come};
ghost use Rattle.level.specs.Courses.{equal_to, def_course};

use crate::course::Course;
use run::kind::StreamFault;
use run::reader::RunReader;

/// How many levels are read at most before it is known whether a fault refuses the call.
const READ_AT_ONCE: usize = 8192;

/// What a call for `m` definition levels comes to, where `max` is the greatest.
pub(crate) fn def_course(reader: RunReader<'_>, max: u32, m: usize) -> Result<Course, StreamFault>
    ensures is { result ≡ def_course max m (to_come reader.entry) }
    ensures there { IfOk result (λ c. c.taken ≤ length (to_come reader.entry).numbers) }
{
    if m > READ_AT_ONCE {
        // Skipping finds a fault by the headers of runs, and looks at no copy in front of it.
        let mut end = reader;
        let _ = end.skip(m)?;
    }
    let mut ahead = reader;
    // Kept: an array, since a decoder has no heap; and a loop over blocks as in `rep_course`, which stops within one.
    let mut block = [0u32; 1024];
    let mut taken = 0;
    let mut told = 0;
    while taken < m {
        let size = (m - taken).min(1024);
        let k = ahead.read_some(&mut block[..size])?;
        if k == 0 {
            break;
        }
        taken += k;
        told += count_equal(&block[..k], max);
    }
    Ok(Course {
        full: taken == m,
        taken,
        told,
        opened: false,
    })
}

/// How many of the levels equal the maximum.
fn count_equal(levels: &[u32], max: u32) -> usize
    requires { length levels.now ≤ 1024 }
    ensures { result ≡ equal_to max levels.now }
{
    // A narrow count, so that lanes of levels are counted at a time.
    levels
        .iter()
        .map(|level| u32::from(*level == max))
        .sum::<u32>() as usize
}
