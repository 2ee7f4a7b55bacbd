//! How many values a page holds.
ghost use Rattle.std.specs.Prelude.{◌≡◌, ◌<◌, ◌≤◌};
ghost use Rattle.page.specs.Coming.{made_of};
ghost use Rattle.raw.specs.PageValues.{count_made};

use page::fault::MakingFault;

/// How many values a full page holds, 1 to 65,536.
#[derive(Clone, Copy)]
pub(crate) struct PageValues {
    pub(crate) count: usize,
    ghost some: { 0 < count },
    ghost bound: { count ≤ 65536 },
}

impl TryFrom<usize> for PageValues {
    type Error = MakingFault;

    ghost try_from_gives = { λ n r. made_of (λ p. p.count) r ≡ count_made n };

    fn try_from(count: usize) -> Result<PageValues, MakingFault> {
        if count == 0 || count > 65536 {
            return Err(MakingFault::RawPageValues);
        }
        Ok(PageValues { count })
    }
}
