//! Plain values cut into pages.
#![tactic(auto)]

ghost use Rattle.std.specs.Prelude.{◌≡◌, ◌<◌, ◌≤◌, ◌/◌, length};
ghost use Rattle.page.specs.Coming.{made_of};
ghost use Rattle.raw.specs.Raw.{raw_of, raw_made, bytes_of, page_bytes_of, by_part, width_made, Fitting};

mod page_values;

use crate::page_values::PageValues;
use page::fault::{MakingFault, SourceFault};
use page::page::{Page, PageMetadata};
use page::reader::PageReader;

// Kept: encodings as numbers, for a page's are the bytes of its header, known or not.
/// The encoding of plain values.
const PLAIN: u8 = 0;
/// The encoding of levels as runs; where no level has bytes it counts for nothing.
const RLE: u8 = 3;

/// How many bytes a value takes.
#[derive(Clone, Copy)]
pub(crate) enum Width {
    Four,
    Eight,
}

/// Values of one width, cut into V1 pages of equally many, the last perhaps shorter. `at` is
/// where the next page begins.
// Kept: the place beside the values, since each page tells where it begins.
#[derive(Drop)]
pub struct Raw<'a> {
    values: &'a [u8],
    at: usize,
    width: Width,
    page_values: PageValues,
}

impl Width {
    fn bytes(self) -> usize
        ensures value { result ≡ bytes_of self }
        ensures bound { result ≤ 8 }
        ensures some { 0 < result }
    {
        match self {
            Width::Four => 4,
            Width::Eight => 8,
        }
    }
}

impl TryFrom<usize> for Width {
    type Error = MakingFault;

    ghost try_from_gives = { λ n r. r ≡ width_made n };

    fn try_from(bytes: usize) -> Result<Width, MakingFault> {
        match bytes {
            4 => Ok(Width::Four),
            8 => Ok(Width::Eight),
            _ => Err(MakingFault::RawWidth),
        }
    }
}

impl<'a> Raw<'a> {
    /// The source of pages of `page_values` values, each `width` bytes wide.
    pub fn new(values: &'a [u8], width: usize, page_values: usize) -> Result<Raw<'a>, MakingFault>
        ensures { made_of raw_of result ≡ raw_made values.now width page_values }
    {
        let width = Width::try_from(width)?;
        let page_values = PageValues::try_from(page_values)?;
        if values.len() % width.bytes() != 0 {
            return Err(MakingFault::RawCutValue);
        }
        Ok(Raw {
            values,
            at: 0,
            width,
            page_values,
        })
    }

    /// How many bytes a full page has.
    fn page_bytes(&self) -> usize
        ensures value { result ≡ page_bytes_of self.now }
        ensures bound { result ≤ 524288 }
    {
        self.width.bytes() * self.page_values.count
    }

    /// The bytes of the next page, if a value is left.
    fn next_part(&self) -> Option<&'a [u8]>
        ensures means { raw_of self.now ≡ by_part self.now result }
        ensures fits { Fitting self.now result }
    {
        if self.at >= self.values.len() {
            return None;
        }
        let length = self.page_bytes().min(self.values.len() - self.at);
        Some(&self.values[self.at..self.at + length])
    }

    /// How many values a page's bytes hold.
    fn count(&self, page: &[u8]) -> u32
        requires { length page.now ≤ 524288 }
        ensures { result ≡ length page.now / bytes_of self.now.width }
    {
        (page.len() / self.width.bytes()) as u32
    }
}

impl<'a> PageReader<'a> for Raw<'a> {
    ghost coming = { raw_of };

    fn get_next_page(&mut self) -> Result<Option<Page<'a>>, SourceFault> {
        let Some(buf) = self.next_part() else {
            return Ok(None);
        };
        let place = self.at;
        self.at = place + buf.len();
        Ok(Some(Page::DataPage {
            place,
            buf,
            num_values: self.count(buf),
            encoding: PLAIN,
            def_level_encoding: RLE,
            rep_level_encoding: RLE,
        }))
    }

    fn peek_next_page(&mut self) -> Result<Option<PageMetadata>, SourceFault> {
        // Kept: tried as a `map` over the part; the proof did not close.
        let Some(buf) = self.next_part() else {
            return Ok(None);
        };
        let count = Some(self.count(buf));
        Ok(Some(PageMetadata {
            num_rows: count,
            num_levels: count,
            is_dict: false,
        }))
    }

    fn skip_next_page(&mut self) -> Result<(), SourceFault> {
        if let Some(buf) = self.next_part() {
            self.at += buf.len();
        }
        Ok(())
    }
}
