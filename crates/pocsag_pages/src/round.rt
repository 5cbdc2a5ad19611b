ghost use Rattle.std.specs.Prelude.{◌≡◌, ◌<◌, ◌≤◌, drop, length, take, IfOk};
ghost use Rattle.pocsag_pages.specs.Pages.{IsRound};

use crate::page::Page;
use pocsag_words::OutOfMemory;
use std::marker::Model;

/// The greatest number of pages of a round.
pub const PAGE_LIMIT: usize = 20_000;

/// One round of pages: 1 to 20,000 pages that break no rule, with distinct addresses.
#[derive(Debug, Drop)]
pub struct Round {
    pages: Vec<Page>,
}

impl Model for Round {
    ghost use Rattle.std.specs.Prelude.{List};
    ghost use Rattle.pocsag_pages.specs.declared.page.Page.{Page};
    ghost use Rattle.pocsag_pages.specs.Pages.{IsRound};

    ghost Value = { List Page };

    ghost view = { λ r. r.pages.items };

    ghost invariant = { λ r. IsRound r.pages.items };
}

impl Round {
    /// The round of pages that may be one, which are not judged again. It takes no memory.
    pub fn of(pages: Vec<Page>) -> Round
        requires { IsRound pages.items }
        ensures { result ≡ pages.items }
    {
        Round { pages }
    }

    /// Gives a proof what the type keeps, where the round stands behind a reference. A call costs nothing.
    pub fn recall_rules(&self)
        ensures { IsRound self.now }
    {
        // What a type keeps is known where its fields are looked at, and so in the methods of the type alone.
        let _ = &self.pages;
    }

    /// The round of the first pages, so many, and the pages behind them, both in order.
    pub fn split(self, count: usize) -> Result<(Round, Vec<Page>), OutOfMemory>
        requires some { 0 < count }
        requires among { count ≤ length self }
        ensures first { IfOk result (λ parts. parts.0 ≡ take count self) }
        ensures rest { IfOk result (λ parts. parts.1.items ≡ drop count self) }
    {
        let Round { mut pages } = self;
        let rest = pages.split_off(count)?;
        Ok((Round { pages }, rest))
    }

    /// The list of the pages in order, which takes no memory.
    pub fn into_pages(self) -> Vec<Page>
        ensures pages { result.items ≡ self }
        ensures round { IsRound self }
    {
        let Round { pages } = self;
        pages
    }

    /// The pages in order.
    pub fn pages(&self) -> &[Page]
        ensures pages { result.now ≡ self.now }
        ensures round { IsRound self.now }
    {
        self.pages.as_slice()
    }
}
