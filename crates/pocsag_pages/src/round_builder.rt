ghost use Rattle.std.specs.Prelude.{◌≡◌, ◌≤◌, [], ◌∷◌, ◌++◌, length, false, true, None, Ok, IfOk, IfSome};
ghost use Rattle.pocsag_pages.specs.Pages.{page_limit, has_address, page_fault_of};
ghost use Rattle.pocsag_pages.specs.PageList.{unless_empty};

use crate::address_marks::AddressMarks;
use crate::fault::RoundFault;
use crate::page::Page;
use crate::round::Round;
use pocsag_words::OutOfMemory;
use std::alloc::Global;
use std::marker::Model;

// From so many pages on their addresses are marked: of fewer pages a look through them all is faster than to clear the marks.
const MARKED_PAGES: usize = 128;

// A round that grows: its pages so far, and the set of their addresses where they are many.
#[derive(Drop)]
pub(crate) struct RoundBuilder {
    alloc: Global,
    pages: Vec<Page>,
    marks: Option<AddressMarks>,
}

impl Model for RoundBuilder {
    ghost use Rattle.std.specs.Prelude.{List};
    ghost use Rattle.pocsag_pages.specs.declared.page.Page.{Page};
    ghost use Rattle.pocsag_pages.specs.RoundBuilders.{IsMarkedRound};

    ghost Value = { List Page };

    ghost view = { λ d. d.pages.items };

    ghost invariant = { λ d. IsMarkedRound d.pages.items d.marks };
}

impl RoundBuilder {
    pub(crate) fn new(alloc: Global) -> RoundBuilder
        ensures { result ≡ [] }
    {
        RoundBuilder {
            alloc,
            pages: Vec::new(alloc),
            marks: None,
        }
    }

    // Whether a page has the address.
    pub(crate) fn has(&self, address: u32) -> bool
        ensures { result ≡ has_address self.now address }
    {
        if let Some(marks) = &self.marks {
            return marks.has_mark(address);
        }
        for page in &self.pages {
            if page.address == address {
                return true;
            }
        }
        false
    }

    // The pages with one more, or nothing where one of them has its address.
    pub(crate) fn with(self, page: Page) -> Result<Option<RoundBuilder>, OutOfMemory>
        requires good { page_fault_of page ≡ None }
        ensures another { IfOk result (λ found. IfSome found (λ _. has_address self page.address ≡ false)) }
        ensures longer { IfOk result (λ found. IfSome found (λ d. d ≡ self ++ page ∷ [])) }
        ensures again { result ≡ Ok None → has_address self page.address ≡ true }
    {
        let address = page.address;
        if self.has(address) {
            return Ok(None);
        }
        let RoundBuilder {
            alloc,
            mut pages,
            marks,
        } = self;
        pages.push(page)?;
        let marks = match marks {
            Some(mut marks) => {
                marks.set_mark(address);
                Some(marks)
            }
            None if pages.len() < MARKED_PAGES => None,
            None => Some(AddressMarks::marking_all(alloc, pages.as_slice())?),
        };
        Ok(Some(RoundBuilder {
            alloc,
            pages,
            marks,
        }))
    }

    // The round of the pages, of which there must be one at least.
    pub(crate) fn into_round(self) -> Result<Round, RoundFault>
        requires { length self ≤ page_limit }
        ensures { result ≡ unless_empty self }
    {
        let RoundBuilder {
            alloc: _,
            pages,
            marks: _,
        } = self;
        if pages.is_empty() {
            return Err(RoundFault::NoPages);
        }
        Ok(Round::of(pages))
    }
}
