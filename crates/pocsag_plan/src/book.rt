ghost use Rattle.std.specs.Prelude.{◌≡◌, ◌≤◌, ◌∷◌, ◌++◌, [], drop, length, slice_get, All, Contains, None, false, IfErr, IfOk, IsTrue, OnErr, OnOk, ◌↔◌};
ghost use Rattle.std.specs.Option.{option_copied};
ghost use Rattle.pocsag_pages.specs.Listable.{IsListable};
ghost use Rattle.pocsag_pages.specs.Pages.{page_limit, has_address, AreGood};
ghost use Rattle.pocsag_slots.specs.Loads.{AreClassesOf};
ghost use Rattle.pocsag_plan.specs.OpenRound.{add_fault, fault_or_memory, without};

use crate::refusal::{AddFault, NotThere, Refused};
use crate::tally::{count_page, discount_first, discount_page, no_classes};
use indexmap::IndexMap;
use pocsag_pages::{PAGE_LIMIT, Page, Round, page_fault};
use pocsag_slots::Classes;
use pocsag_words::{End, OutOfMemory};
use std::alloc::Global;
use std::marker::Model;

/// An open round: pages that may stand in one round, in the order in which they were added, and the class
/// tables of these pages for the ends, which each edit changes and nothing counts again.
#[derive(Drop)]
pub struct Book {
    pages: IndexMap<u32, Page>,
    for_open: Classes,
    for_closed: Classes,
}

impl Model for Book {
    ghost use Rattle.std.specs.Prelude.{List};
    ghost use Rattle.std.specs.Map.{values_of};
    ghost use Rattle.pocsag_pages.specs.declared.page.Page.{Page};
    ghost use Rattle.pocsag_plan.specs.Books.{IsBook};

    ghost Value = { List Page };

    ghost view = { λ b. values_of b.pages.entries };

    ghost invariant = { λ b. IsBook b.pages.entries b.for_open b.for_closed };
}

impl Book {
    /// A book of no pages, which takes no memory.
    pub fn new(alloc: Global) -> Book
        ensures { result ≡ [] }
    {
        Book {
            pages: IndexMap::new(alloc),
            for_open: no_classes(),
            for_closed: no_classes(),
        }
    }

    /// A book of copies of the round's pages, in their order.
    pub fn of_round(alloc: Global, round: &Round) -> Result<Book, OutOfMemory>
        ensures { IfOk result (λ book. book ≡ round.now) }
    {
        let mut book = Book::new(alloc);
        for page in round.pages() {
            match book.add(page.copy(alloc)?) {
                Ok(()) => {}
                Err(_) => return Err(OutOfMemory),
            }
        }
        Ok(book)
    }

    /// How many pages there are.
    pub fn len(&self) -> usize
        ensures { result ≡ length self.now }
    {
        self.pages.len()
    }

    /// Whether there are no pages.
    pub fn is_empty(&self) -> bool
        ensures { IsTrue result ↔ (self.now ≡ []) }
    {
        self.pages.is_empty()
    }

    /// The page at a place, from 0, if the book has so many.
    pub fn page(&self, i: usize) -> Option<&Page>
        ensures { option_copied result ≡ slice_get self.now i }
    {
        self.pages().get(i)
    }

    /// The pages in order.
    pub fn pages(&self) -> &[Page]
        ensures pages { result.now ≡ self.now }
        ensures few { length self.now ≤ page_limit }
        ensures good { AreGood self.now }
        ensures listable { All IsListable self.now }
    {
        self.pages.values().as_slice()
    }

    /// The pages by classes for the end.
    pub fn classes(&self, end: End) -> &Classes
        ensures { AreClassesOf result.now end self.now }
    {
        match end {
            // An idle may follow any page, so that its end counts as the open one does.
            End::Open | End::Idle => &self.for_open,
            End::Closed => &self.for_closed,
        }
    }

    // The first reason not to add the page, want of memory aside.
    #[tactic(auto, unfolding(crate::specs::OpenRound::add_fault))]
    fn fault_of(&self, page: &Page) -> Option<AddFault>
        ensures { result ≡ add_fault self.now page.now }
    {
        match page_fault(page) {
            Some(broken) => return Some(AddFault::Page(broken)),
            None => {}
        }
        if self.pages.contains_key(&page.address) {
            return Some(AddFault::DuplicateAddress);
        }
        if self.len() >= PAGE_LIMIT {
            return Some(AddFault::Full);
        }
        None
    }

    /// Adds the page behind the others, or hands it back with the first fault: that of `page_fault`,
    /// `DuplicateAddress`, `Full` where 20,000 pages are there, and then `OutOfMemory`. A refusal changes
    /// nothing.
    pub fn add(&mut self, page: Page) -> Result<(), Refused>
        ensures added { OnOk result (self.new ≡ self.old ++ page ∷ []) }
        ensures taken { OnOk result (add_fault self.old page ≡ None) }

        // A page against which something else stands is never refused for want of memory.
        ensures refused { IfErr result (λ refused. refused.fault ≡ fault_or_memory (add_fault self.old page)) }
        ensures back { IfErr result (λ refused. refused.page ≡ page) }
        ensures unchanged { OnErr result (self.new ≡ self.old) }
    {
        match self.fault_of(&page) {
            Some(fault) => return Err(Refused { fault, page }),
            None => {}
        }
        match self.pages.reserve(1) {
            Ok(()) => {}
            Err(_) => {
                return Err(Refused {
                    fault: AddFault::OutOfMemory,
                    page,
                });
            }
        }
        count_page(&mut self.for_open, &page, End::Open);
        count_page(&mut self.for_closed, &page, End::Closed);
        let _new = self.pages.insert(page.address, page).unwrap();
        Ok(())
    }

    /// Takes out the page of the address and hands it back; the others keep their order. It takes no memory,
    /// and each page behind the one that is taken out moves up by one place: the time grows with their
    /// number, and is least for the page that was added last.
    pub fn cancel(&mut self, address: u32) -> Result<Page, NotThere>
        // Where no page has the address, nothing is left out.
        ensures rest { self.new ≡ without self.old address }
        ensures taken { IfOk result (λ page. Contains self.old page × (page.address ≡ address)) }
        ensures not_there { OnErr result (has_address self.old address ≡ false) }
        ensures unchanged { OnErr result (self.new ≡ self.old) }
    {
        match self.pages.shift_remove(&address) {
            Some(found) => {
                discount_page(&mut self.for_open, &found, End::Open);
                discount_page(&mut self.for_closed, &found, End::Closed);
                Ok(found)
            }
            None => Err(NotThere),
        }
    }

    /// Takes this many first pages out, or all if there are fewer. The others keep their order. It takes no memory,
    /// and its time grows with the number of all pages.
    pub fn drop_first(&mut self, count: usize)
        ensures { self.new ≡ drop count self.old }
    {
        let count = count.min(self.pages.len());
        let pages = self.pages.values().as_slice();
        discount_first(&mut self.for_open, pages, count, End::Open);
        discount_first(&mut self.for_closed, pages, count, End::Closed);
        let _gone = self.pages.drain(..count);
    }

    pub(crate) fn allocator(&self) -> Global {
        *self.pages.allocator()
    }
}
