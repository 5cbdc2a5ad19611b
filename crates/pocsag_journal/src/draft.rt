ghost use Rattle.std.specs.Prelude.{◌≡◌, [], IfOk, drop, slice_get};
ghost use Rattle.pocsag_plan.specs.OpenRound.{add_fault};

use crate::editable::Editable;
use lru::LruCache;
use pocsag_pages::{PAGE_LIMIT, Page, page_fault};
use pocsag_plan::{AddFault, Book, NotThere};
use pocsag_words::OutOfMemory;
use std::alloc::Global;
use std::marker::Model;

/// The pages of a journal that is being read. They are those of a round, but a page is taken out in a time that does not
/// grow with their number, and they are not counted by classes.
#[derive(Drop)]
pub(crate) struct Draft {
    // The first page stands first.
    pages: LruCache<u32, Page>,
}

impl Model for Draft {
    ghost use Rattle.std.specs.Prelude.{List};
    ghost use Rattle.std.specs.Map.{values_of};
    ghost use Rattle.pocsag_pages.specs.declared.page.Page.{Page};
    ghost use Rattle.pocsag_journal.specs.Drafts.{IsDraft};

    ghost Value = { List Page };

    ghost view = { λ draft. values_of draft.pages.entries };

    ghost invariant = { λ draft. IsDraft draft.pages.entries draft.pages.cap };
}

impl Draft {
    /// A draft of no pages.
    pub(crate) fn new(alloc: Global) -> Result<Draft, OutOfMemory>
        ensures { IfOk result (λ draft. draft ≡ []) }
    {
        Ok(Draft {
            pages: LruCache::unbounded(alloc)?,
        })
    }

    // The first reason not to add the page, want of memory aside, as `Book::add` tells it.
    fn fault_of(&self, page: &Page) -> Option<AddFault>
        ensures { result ≡ add_fault self.now page.now }
    {
        match page_fault(page) {
            Some(broken) => return Some(AddFault::Page(broken)),
            None => {}
        }
        if self.pages.contains(&page.address) {
            return Some(AddFault::DuplicateAddress);
        }
        if self.pages.len() >= PAGE_LIMIT {
            return Some(AddFault::Full);
        }
        None
    }

    // Takes the first page out.
    fn take_one(&mut self) -> Option<Page>
        ensures first { result ≡ slice_get self.old 0 }
        ensures rest { self.new ≡ drop 1 self.old }
    {
        match self.pages.pop_mru() {
            Some(entry) => Some(entry.1),
            None => None,
        }
    }

    /// The round of these pages.
    pub(crate) fn into_book(mut self, alloc: Global) -> Result<Book, OutOfMemory>
        ensures { IfOk result (λ book. book ≡ self) }
    {
        let mut book = Book::new(alloc);
        loop {
            let Some(page) = self.take_one() else {
                return Ok(book);
            };
            match book.add(page) {
                Ok(()) => {}
                Err(_) => return Err(OutOfMemory),
            }
        }
    }
}

impl Editable for Draft {
    ghost pages = { λ draft. draft };

    fn page_count(&self) -> usize {
        self.pages.len()
    }

    fn put(&mut self, page: Page) -> Result<(), AddFault> {
        match self.fault_of(&page) {
            Some(fault) => return Err(fault),
            None => {}
        }
        let address = page.address;
        match self.pages.put(address, page) {
            Ok(_) => {}
            Err(_) => return Err(AddFault::OutOfMemory),
        }
        // What is put stands first.
        let _there = self.pages.demote(&address);
        Ok(())
    }

    fn take_out(&mut self, address: u32) -> Result<Page, NotThere> {
        match self.pages.pop(&address) {
            Some(page) => Ok(page),
            None => Err(NotThere),
        }
    }

    fn take_first(&mut self, count: usize) {
        for _ in 0..count {
            let _gone = self.take_one();
        }
    }

    fn clear(&mut self, _alloc: Global) {
        self.pages.clear();
    }
}
