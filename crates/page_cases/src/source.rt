//! A source of either kind.
ghost use Rattle.page_cases.specs.Source.{source_of};

use page::fault::SourceFault;
use page::page::{Page, PageMetadata};
use page::reader::PageReader;
use raw::Raw;
use strip::source::Strip;

/// A strip or raw values.
// Kept: an enum. Tried as a `dyn PageReader<'a>`; the language refuses one, for the lifetime of its trait.
#[derive(Drop)]
pub(crate) enum Source<'a> {
    Strip(Strip<'a>),
    Raw(Raw<'a>),
}

impl<'a> PageReader<'a> for Source<'a> {
    ghost coming = { source_of };

    fn get_next_page(&mut self) -> Result<Option<Page<'a>>, SourceFault> {
        match self {
            Source::Strip(strip) => strip.get_next_page(),
            Source::Raw(raw) => raw.get_next_page(),
        }
    }

    fn peek_next_page(&mut self) -> Result<Option<PageMetadata>, SourceFault> {
        match self {
            Source::Strip(strip) => strip.peek_next_page(),
            Source::Raw(raw) => raw.peek_next_page(),
        }
    }

    fn skip_next_page(&mut self) -> Result<(), SourceFault> {
        match self {
            Source::Strip(strip) => strip.skip_next_page(),
            Source::Raw(raw) => raw.skip_next_page(),
        }
    }
}
