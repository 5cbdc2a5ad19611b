ghost use Rattle.std.specs.Prelude.{◌≡◌, ◌↔◌, ℕ, IfErr, IsErrOf, OnOk};
ghost use Rattle.pocsag_branch.specs.Found.{IsNodeLimit};
ghost use Rattle.pocsag_pages.specs.Quotes.{IsWellQuoted, text_of_file};
ghost use Rattle.pocsag_centre.specs.Checks.{ExplainsExpecting, ExplainsStrict, HoldsPages, IsExpected, IsUnexpected};

use crate::fault::CentreFault;
use pocsag_pages::{held_pages, quote_fault};
use pocsag_plan::{Search, is_node_limit};
use std::alloc::Global;

/// Refuses a node limit that is out of its range, so that nothing is opened for it.
pub fn refuse_bad_limit(search: Search) -> Result<(), CentreFault>
    ensures bad { IsErrOf result CentreFault.BadLimit ↔ (¬ IsNodeLimit search.limit) }
    ensures good { OnOk result (IsNodeLimit search.limit) }
    ensures alone { IfErr result (λ e. e ≡ CentreFault.BadLimit) }
{
    if is_node_limit(search.limit) {
        return Ok(());
    }
    Err(CentreFault::BadLimit)
}

/// `--strict`: refuses the bytes of a page file in which a quote is misplaced, with the first such quote.
pub fn strict_file(pages: &[u8]) -> Result<(), CentreFault>
    ensures strict { OnOk result (IsWellQuoted (text_of_file pages.now)) }
    ensures explained { IfErr result (ExplainsStrict pages.now) }
{
    match quote_fault(pages) {
        Some(quote) => Err(CentreFault::Quotes(quote)),
        None => Ok(()),
    }
}

/// `--expect N`: refuses the bytes of a page file that holds another number of pages, with both numbers. They also have to
/// give a round, or a queue where pages may wait for earlier ones of their address.
pub fn expected_file(
    alloc: Global,
    may_wait: bool,
    pages: &[u8],
    expected: u32,
) -> Result<(), CentreFault>
    ensures expected { OnOk result (HoldsPages may_wait pages.now expected) }
    ensures explained { IfErr result (ExplainsExpecting may_wait pages.now expected) }
{
    let queue = held_pages(alloc, may_wait, pages)?;
    refuse_other_count(queue.len() as u32, Some(expected))
}

// Refuses another number of pages than is expected, if a number is.
pub(crate) fn refuse_other_count(found: u32, expect: Option<u32>) -> Result<(), CentreFault>
    ensures expected { OnOk result (IsExpected expect found) }
    ensures unexpected { IfErr result (λ f.
        (wanted : ℕ) × (f ≡ CentreFault.Unexpected found wanted) × IsUnexpected expect found wanted) }
{
    match expect {
        Some(wanted) if found != wanted => Err(CentreFault::Unexpected(found, wanted)),
        _ => Ok(()),
    }
}
