//! A list of all pages of a source.
ghost use Rattle.std.specs.Prelude.{◌≡◌, ◌++◌, map};
ghost use Rattle.page.specs.declared.list.ListError.TheVariants.{Source, NoMemory};
ghost use Rattle.page.specs.Listing.{listed_of, listing, ListedAll};

use crate::fault::SourceFault;
use crate::page::{Page, PageMetadata};
use crate::reader::PageReader;
use std::alloc::AllocError;

/// A page with what a peek told of it.
#[derive(Clone, Copy)]
pub struct ListedPage<'a> {
    pub metadata: PageMetadata,
    pub page: Page<'a>,
}

/// Why a listing stops before a clean end.
#[derive(Clone, Copy)]
pub enum ListError {
    /// The source's pages end with a fault.
    Source(SourceFault),
    /// There is no memory for another page.
    NoMemory,
}

impl From<SourceFault> for ListError {
    ghost from_gives = { λ e r. r ≡ Source e };

    fn from(fault: SourceFault) -> ListError {
        ListError::Source(fault)
    }
}

impl From<AllocError> for ListError {
    ghost from_gives = { λ _ r. r ≡ NoMemory };

    fn from(_: AllocError) -> ListError {
        ListError::NoMemory
    }
}

/// Lists the pages of a source behind those in `pages`, to the source's end. What is listed and
/// what is still to come are always all of the pages: also where memory ends, none is lost.
pub fn list_pages<'a, S: PageReader<'a>>(
    source: &mut S,
    pages: &mut Vec<ListedPage<'a>>,
) -> Result<(), ListError>
    ensures all { map listed_of pages.new.items ++ listing (S.PageReader.coming source.new) ≡ map listed_of pages.old.items ++ listing (S.PageReader.coming source.old) }
    ensures end { ListedAll result (S.PageReader.coming source.new) (S.PageReader.coming source.old) }
{
    while let Some(metadata) = source.peek_next_page()? {
        // The place comes first, so that no page is taken that cannot be kept.
        pages.reserve(1)?;
        let Some(page) = source.get_next_page()? else {
            break;
        };
        pages.push_reserved(ListedPage { metadata, page });
    }
    Ok(())
}
