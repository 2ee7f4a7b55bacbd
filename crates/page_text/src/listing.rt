//! The listing of a source.
ghost use Rattle.std.specs.Prelude.{◌≡◌, [], OnOk};

use crate::{broken_line, end_line, page_line, source_cause};
use page::list::{ListError, list_pages};
use page::reader::PageReader;
use std::alloc::Global;
use std::io;

/// Prints a line for each page that a source has left, and the closing line. Where it is done, no
/// page is left.
pub fn print_listing<'a, S: PageReader<'a>>(
    rt: &impl Print,
    heap: Global,
    source: &mut S,
) -> io::Result<()>
    ensures { OnOk result ((S.PageReader.coming source.new).pages ≡ []) }
{
    let mut pages = Vec::new(heap);
    let end = list_pages(source, &mut pages);
    for (number, listed) in pages.iter().enumerate() {
        rt.println(page_line(heap, number, &listed.page)?)?;
    }
    let count = pages.len();
    match end {
        Ok(()) => rt.println(end_line(heap, count)?),
        Err(ListError::Source(fault)) => rt.println(broken_line(heap, count, source_cause(fault))?),
        Err(ListError::NoMemory) => Err(io::Error::from(io::ErrorKind::OutOfMemory)),
    }
}
