//! Two sources as one.
ghost use Rattle.std.specs.Prelude.{◌≡◌};
ghost use Rattle.page.specs.Coming.{joined};

use crate::fault::SourceFault;
use crate::page::{Page, PageMetadata};
use crate::reader::PageReader;

/// The pages of the first source, then those of the second. A fault that ends the first ends the
/// chain.
#[derive(Drop)]
pub struct Chain<A, B> {
    first: A,
    second: B,
}

impl<A, B> Chain<A, B> {
    /// The chain of two sources.
    pub fn new<'a>(first: A, second: B) -> Chain<A, B>
    where
        A: PageReader<'a>,
        B: PageReader<'a>,
        ensures { joined (A.PageReader.coming result.first) (B.PageReader.coming result.second) ≡ joined (A.PageReader.coming first) (B.PageReader.coming second) }
    {
        Chain { first, second }
    }
}

impl<'a, A: PageReader<'a>, B: PageReader<'a>> PageReader<'a> for Chain<A, B> {
    ghost coming = { λ s. joined (A.PageReader.coming s.first) (B.PageReader.coming s.second) };

    fn get_next_page(&mut self) -> Result<Option<Page<'a>>, SourceFault> {
        match self.first.get_next_page()? {
            None => self.second.get_next_page(),
            page => Ok(page),
        }
    }

    fn peek_next_page(&mut self) -> Result<Option<PageMetadata>, SourceFault> {
        match self.first.peek_next_page()? {
            None => self.second.peek_next_page(),
            metadata => Ok(metadata),
        }
    }

    fn skip_next_page(&mut self) -> Result<(), SourceFault> {
        // A skip's reply does not tell an end from a page, so the first is peeked.
        match self.first.peek_next_page()? {
            Some(_) => self.first.skip_next_page(),
            None => self.second.skip_next_page(),
        }
    }
}
