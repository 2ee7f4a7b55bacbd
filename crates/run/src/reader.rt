//! The reader's state.

use crate::kind::Run;
use stream::width::Width;

/// A reader of the numbers in a stream of runs, over lent bytes.
#[derive(Clone, Copy)]
pub struct RunReader<'a> {
    /// How many bits a number has.
    pub(crate) width: Width,
    /// A number is good if it is below.
    pub(crate) limit: u64,
    /// The bytes behind the run that is being read.
    pub(crate) bytes: &'a [u8],
    /// The run that is being read.
    pub(crate) run: Run<'a>,
}
