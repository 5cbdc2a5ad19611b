ghost use Rattle.std.specs.Prelude.{IsTrue};
ghost use Rattle.pocsag_branch.specs.Found.{HasPage};

use pocsag_pages::{Page, Payload, Round, RoundFault};
use pocsag_slots::{CLASSES, Classes};
use pocsag_words::OutOfMemory;
use std::alloc::Global;

/// The pages of a round, whose items are all `11111`, by address and number of items.
pub type Ones = &'static [(u32, usize)];

pub const LONE_TONE: Ones = &[(8, 0)];

pub const THREE_TONES: Ones = &[(5, 0), (13, 0), (21, 0)];

pub const LOOP_APART: Ones = &[(3, 15)];

/// Two pages that go round once each and meet nowhere.
pub const LOOPS_APART: Ones = &[(0, 15), (3, 15)];

/// `two-numeric-exact`, which fills one batch.
pub const EXACT: Ones = &[(0, 5), (3, 9)];

/// `three-pages-tight`, which fills two batches.
pub const TIGHT: Ones = &[(0, 5), (3, 9), (11, 15)];

pub const LAST_FRAME: Ones = &[(7, 1), (15, 1)];

pub const CLOSED_MIXED: Ones = &[(0, 13), (7, 0), (15, 16)];

/// `closed-both-ways`.
pub const BOTH_WAYS: Ones = &[(0, 13), (7, 0), (15, 2), (1, 13)];

/// `long-numeric`.
pub const LONG: Ones = &[(7, 49)];

/// A page of function 0 whose items are all `11111`.
pub fn ones(alloc: Global, address: u32, count: usize) -> Result<Page, OutOfMemory> {
    let items = vec![in alloc; 0x88888; count]?;
    Ok(Page {
        address,
        function: 0,
        payload: Payload::from_vec(items),
    })
}

/// The round of such pages, by address and number of items.
pub fn round_of(alloc: Global, pages: &[(u32, usize)]) -> Result<Round, RoundFault> {
    let mut list = Vec::new(alloc);
    for (address, count) in pages.iter().copied() {
        if list.push(ones(alloc, address, count)?).is_err() {
            return Err(RoundFault::OutOfMemory);
        }
    }
    Round::from_pages(alloc, list)
}

/// Whether some class has a page, as those of a round have.
pub fn has_page(classes: &Classes) -> bool
    ensures { IsTrue result → HasPage classes.now }
{
    for class in 0..CLASSES {
        if classes.count[class] > 0 {
            return true;
        }
    }
    false
}
