ghost use Rattle.std.specs.Prelude.{◌≡◌, ◌∷◌, ◌++◌, ℕ, List, [], drop, length, Contains, None, false, IfErr, IfOk, OnErr, OnOk};
ghost use Rattle.pocsag_pages.specs.Pages.{has_address};
ghost use Rattle.pocsag_pages.specs.declared.page.Page.{Page};
ghost use Rattle.pocsag_plan.specs.OpenRound.{add_fault, fault_or_memory, without};

use pocsag_pages::Page;
use pocsag_plan::{AddFault, Book, NotThere};
use std::alloc::Global;

/// What edits are made of: the pages of an open round, or those of a journal that is being read.
pub(crate) trait Editable {
    // The pages, in the order in which they were added.
    ghost pages: { Self → List Page };

    /// How many pages there are.
    fn page_count(&self) -> usize
        ensures { result ≡ length (pages self.now) };

    /// Adds a page after the others, or returns the first fault, as `Book::add` does. A refusal changes nothing.
    fn put(&mut self, page: Page) -> Result<(), AddFault>
        ensures added { OnOk result (pages self.new ≡ pages self.old ++ page ∷ []) }
        ensures taken { OnOk result (add_fault (pages self.old) page ≡ None) }
        ensures refused { IfErr result (λ fault. fault ≡ fault_or_memory (add_fault (pages self.old) page)) }
        ensures unchanged { OnErr result (pages self.new ≡ pages self.old) };

    /// Takes out the page of the address; the others keep their order.
    fn take_out(&mut self, address: u32) -> Result<Page, NotThere>
        ensures rest { OnOk result (pages self.new ≡ without (pages self.old) address) }
        ensures taken { IfOk result (λ page. Contains (pages self.old) page × (page.address ≡ address)) }
        ensures not_there { OnErr result (has_address (pages self.old) address ≡ false) }
        ensures unchanged { OnErr result (pages self.new ≡ pages self.old) };

    /// Takes this many first pages out, or all if there are fewer.
    fn take_first(&mut self, count: usize)
        ensures { pages self.new ≡ drop count (pages self.old) };

    /// Takes all pages out.
    fn clear(&mut self, alloc: Global)
        ensures { pages self.new ≡ [] };
}

impl Editable for Book {
    ghost pages = { λ book. book };

    fn page_count(&self) -> usize {
        self.len()
    }

    fn put(&mut self, page: Page) -> Result<(), AddFault> {
        match self.add(page) {
            Ok(()) => Ok(()),
            Err(refused) => Err(refused.fault),
        }
    }

    fn take_out(&mut self, address: u32) -> Result<Page, NotThere> {
        self.cancel(address)
    }

    fn take_first(&mut self, count: usize) {
        self.drop_first(count);
    }

    fn clear(&mut self, alloc: Global) {
        *self = Book::new(alloc);
    }
}
