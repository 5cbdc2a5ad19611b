ghost use Rattle.std.specs.Prelude.{◌≡◌, ◌+◌, ◌⊎◌, [], ◌^◌, ◌<◌, None, Some, IfOk, IfErr, OnOk};
ghost use Rattle.pocsag_pages.specs.Pages.{AreGood};
ghost use Rattle.pocsag_pages.specs.PageList.{BeginsWithGood, first_page_fault, round_of_pages};

use crate::fault::{RecordFault, RoundFault};
use crate::page::Page;
use crate::round::{PAGE_LIMIT, Round};
use crate::rule::page_fault;
use std::alloc::Global;
use std::collections::BTreeSet;

// Judges page by page, up to the first that has a fault.
fn judge_pages(alloc: Global, pages: &[Page]) -> Result<(), RoundFault>
    ensures good { OnOk result (AreGood pages.now) }
    ensures ok { OnOk result (first_page_fault [] pages.now ≡ None) }
    ensures err { IfErr result (λ e. (e ≡ RoundFault.OutOfMemory) ⊎ (first_page_fault [] pages.now ≡ Some e)) }
    ensures memory { result ≡ Err RoundFault.OutOfMemory → BeginsWithGood pages.now }
{
    let mut seen = BTreeSet::new(alloc);
    for (index, page) in pages.iter().enumerate() {
        let number = index as u32 + 1;
        if let Some(fault) = page_fault(page) {
            return Err(RoundFault::Record(number, RecordFault::Page(fault)));
        }
        let Ok(added) = seen.insert(page.address) else {
            return Err(RoundFault::OutOfMemory);
        };
        if !added {
            return Err(RoundFault::Record(number, RecordFault::DuplicateAddress));
        }
    }
    Ok(())
}

impl Round {
    /// The round of these pages in their order, or their first fault: page by page that of
    /// `page_fault` and then `DuplicateAddress`, each with the page's number from 1; after the last
    /// page `TooManyPages`, which carries 20,001, and then `NoPages`. A refusal drops the list.
    #[tactic(auto, unfolding(crate::specs::PageList::round_of_pages))]
    pub fn from_pages(alloc: Global, pages: Vec<Page>) -> Result<Round, RoundFault>
        ensures ok { IfOk result (λ r. round_of_pages pages.items ≡ Ok r) }
        ensures err { IfErr result (λ e. (e ≡ RoundFault.OutOfMemory) ⊎ (round_of_pages pages.items ≡ Err e)) }

        // Memory is wanted from the first page on that breaks no rule.
        ensures memory { result ≡ Err RoundFault.OutOfMemory → BeginsWithGood pages.items }
    {
        judge_pages(alloc, pages.as_slice())?;
        if pages.len() > PAGE_LIMIT {
            return Err(RoundFault::Record(PAGE_LIMIT as u32 + 1, RecordFault::TooManyPages));
        }
        if pages.is_empty() {
            return Err(RoundFault::NoPages);
        }
        Ok(Round::of(pages))
    }
}
