//! The interface of a source of pages, and what can be asked of any source.
ghost use Rattle.std.specs.Prelude.{◌≡◌};
ghost use Rattle.page.specs.Coming.{Coming, peeked, got, skipped, after, boundary, peek_of, get_of, skip_of, flag_of};

use crate::fault::SourceFault;
use crate::page::{Page, PageMetadata};

/// A source of pages. At a clean end `get_next_page` and `peek_next_page` answer `None` and
/// `skip_next_page` does nothing; at a fault all three answer it, every time.
pub trait PageReader<'a> {
    // The pages to come, each with what every peek tells of it, and how they end.
    ghost coming: { Self → Coming };

    /// Takes the next page.
    fn get_next_page(&mut self) -> Result<Option<Page<'a>>, SourceFault>
        ensures reply { get_of result ≡ got (coming self.old) }
        ensures moves { coming self.new ≡ after (coming self.old) };

    /// Tells of the next page, and moves nothing.
    fn peek_next_page(&mut self) -> Result<Option<PageMetadata>, SourceFault>
        ensures reply { peek_of result ≡ peeked (coming self.old) }
        ensures stays { coming self.new ≡ coming self.old };

    /// Drops the next page.
    fn skip_next_page(&mut self) -> Result<(), SourceFault>
        ensures reply { skip_of result ≡ skipped (coming self.old) }
        ensures moves { coming self.new ≡ after (coming self.old) };
}

/// Whether a record boundary follows: no page comes, or the next page's rows are told.
// Kept: a function, for a trait with a lifetime parameter may not give a method its body (tried).
pub fn at_record_boundary<'a, S: PageReader<'a>>(source: &mut S) -> Result<bool, SourceFault>
    ensures reply { flag_of result ≡ boundary (S.PageReader.coming source.old) }
    ensures stays { S.PageReader.coming source.new ≡ S.PageReader.coming source.old }
{
    let next = source.peek_next_page()?;
    Ok(next.is_none_or(|metadata| metadata.num_rows.is_some()))
}
