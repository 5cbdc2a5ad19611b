//! Queues: which pages are sent next, and which are left.
ghost use Rattle.std.specs.Prelude.{◌≡◌, IfOk};
ghost use Rattle.pocsag_pages.specs.Queues.{IsQueue, firsts, left_of};

use crate::page::Page;
use crate::round::Round;
use crate::round_builder::RoundBuilder;
use pocsag_words::OutOfMemory;
use std::alloc::Global;
use std::collections::BTreeSet;

/// The round of the first page of each address of a queue.
pub fn first_pages(alloc: Global, queue: &[Page]) -> Result<Round, OutOfMemory>
    requires { IsQueue queue.now }
    ensures { IfOk result (λ round. round ≡ firsts queue.now) }
{
    let mut builder = RoundBuilder::new(alloc);
    for page in queue {
        if builder.has(page.address) {
            continue;
        }
        builder = match builder.with(page.copy(alloc)?)? {
            Some(longer) => longer,
            None => unreachable!(),
        };
    }
    match builder.into_round() {
        Ok(round) => Ok(round),
        Err(_) => unreachable!(),
    }
}

/// The pages of a queue that are left once the first page for each of these addresses is sent, in order.
pub fn left_pages(alloc: Global, queue: Vec<Page>, sent: &[Page]) -> Result<Vec<Page>, OutOfMemory>
    ensures { IfOk result (λ left. left.items ≡ left_of sent.now queue.items) }
{
    let mut due = BTreeSet::new(alloc);
    for page in sent {
        due.insert(page.address)?;
    }
    let mut left = Vec::new(alloc);
    for page in queue {
        if !due.remove(&page.address) {
            left.push(page)?;
        }
    }
    Ok(left)
}
