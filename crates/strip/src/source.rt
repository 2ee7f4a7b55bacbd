//! Pages by records of bytes over lent data.
ghost use Rattle.std.specs.Prelude.{◌≡◌};
ghost use Rattle.page.specs.Coming.{made_of};
ghost use Rattle.strip.specs.Strip.{strip_of, strip_made};
ghost use Rattle.strip.specs.Records.{by_front, cut_of};

use crate::record::{metadata, page_in, take_record};
use page::fault::{MakingFault, SourceFault};
use page::page::{Page, PageMetadata};
use page::reader::PageReader;

/// A strip of records, each of which names a page in the data: one byte of kind, then a body
/// whose length the kind fixes.
#[derive(Drop)]
pub struct Strip<'a> {
    records: &'a [u8],
    data: &'a [u8],
}

/// The first page of a strip, and the rest of the strip.
#[derive(Clone, Copy)]
struct Cut<'a> {
    page: Page<'a>,
    rest: &'a [u8],
}

impl<'a> Strip<'a> {
    /// The source of the pages that `records` names in `data`.
    pub fn new(records: &'a [u8], data: &'a [u8]) -> Result<Strip<'a>, MakingFault>
        ensures { made_of strip_of result ≡ strip_made «data».now records.now }
    {
        if records.len() >= 1 << 31 {
            return Err(MakingFault::StripTooLong);
        }
        if data.len() >= 1 << 31 {
            return Err(MakingFault::DataTooLong);
        }
        Ok(Strip { records, data })
    }

    /// The page in front, if one is left.
    fn front(&self) -> Result<Option<Cut<'a>>, SourceFault>
        ensures { strip_of self.now ≡ by_front self.now.«data».now (cut_of result) }
    {
        let Some((record, rest)) = take_record(self.records)? else {
            return Ok(None);
        };
        let page = page_in(self.data, record)?;
        Ok(Some(Cut { page, rest }))
    }
}

impl<'a> PageReader<'a> for Strip<'a> {
    ghost coming = { strip_of };

    fn get_next_page(&mut self) -> Result<Option<Page<'a>>, SourceFault> {
        let Some(Cut { page, rest }) = self.front()? else {
            return Ok(None);
        };
        self.records = rest;
        Ok(Some(page))
    }

    fn peek_next_page(&mut self) -> Result<Option<PageMetadata>, SourceFault> {
        let next = self.front()?;
        Ok(next.map(|cut| metadata(&cut.page)))
    }

    fn skip_next_page(&mut self) -> Result<(), SourceFault> {
        if let Some(cut) = self.front()? {
            self.records = cut.rest;
        }
        Ok(())
    }
}
