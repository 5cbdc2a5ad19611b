//! Whether the pages of a round were sent. Each page of a transmission is compared where it is read, and none is kept.
ghost use Rattle.std.specs.Prelude.{◌≡◌, ◌≢◌, ◌<◌, ◌↔◌, ◌∷◌, ◌++◌, [], List, Contains, IfOk, IsTrue, MatchOption, OnErr, length, slice_index_or};
ghost use Rattle.pocsag_pages.specs.declared.page.Page.{Page};
ghost use Rattle.pocsag_pages.specs.Pages.{IsRound};
ghost use Rattle.pocsag_decode.specs.Faults.{ReadsAs};
ghost use Rattle.pocsag_centre.specs.SentMarks.{AreSentMarks, ArePlacesOf};
ghost use Rattle.pocsag_centre.specs.Verification.{AreAmong};

use pocsag_decode::{PageReader, PageSource};
use pocsag_pages::Page;
use pocsag_words::OutOfMemory;
use std::alloc::Global;

// The place of a page in a round, beside the address of the page.
#[derive(Clone, Copy)]
struct AddressPlace {
    address: u32,
    place: usize,
}

// Whether the pages that a transmission without a fault reads as are those of the round. Memory is wanted only where it has a page.
pub(crate) fn are_sent(alloc: Global, bytes: &[u8], round: &[Page]) -> Result<bool, OutOfMemory>
    requires round { IsRound round.now }
    ensures among { IfOk result (λ yes. (sent : List Page) → ReadsAs bytes.now sent →
        IsTrue yes ↔ AreAmong sent round.now) }
    ensures memory { OnErr result ((sent : List Page) → ReadsAs bytes.now sent → sent ≢ []) }
{
    let mut reader = PageReader::new(alloc, bytes);
    let Some(first) = reader.next_page()? else {
        return Ok(false);
    };
    let places = places_of(alloc, round)?;
    let mut marks = vec![in alloc; false; round.len()]?;
    let mut next = Some(first);
    'pages: for _compared in 0..round.len() {
        let Some(page) = next else {
            return Ok(false);
        };
        mark_sent(&mut marks, &page, round, places.as_slice());
        next = reader.next_page()?;
    }
    match next {
        Some(_) => Ok(false),
        None => Ok(!marks.as_slice().contains(&false)),
    }
}

// The places of the pages of a round, in order of their addresses.
fn places_of(alloc: Global, round: &[Page]) -> Result<Vec<AddressPlace>, OutOfMemory>
    ensures { IfOk result (λ places. ArePlacesOf round.now places.items) }
{
    let mut places = Vec::with_capacity(alloc, round.len())?;
    for (place, page) in round.iter().enumerate() {
        let address = page.address;
        places.push(AddressPlace { address, place })?;
    }
    places.sort_unstable_by_key(|it| it.address);
    Ok(places)
}

// Marks the page as sent, if it is one of the round.
fn mark_sent(marks: &mut Vec<bool>, page: &Page, round: &[Page], places: &[AddressPlace])
    requires round { IsRound round.now }
    requires places { ArePlacesOf round.now places.now }
    requires as_many { length marks.old.items ≡ length round.now }
    ensures as_many { length marks.new.items ≡ length round.now }
    ensures marked { (sent : List Page) → AreSentMarks round.now sent marks.old.items →
        AreSentMarks round.now (sent ++ (page.now ∷ [])) marks.new.items }
{
    let Some(place) = place_of(page, round, places) else {
        return;
    };
    marks[place] = true;
}

// The place of the page in the round, if it is one of its pages.
fn place_of(page: &Page, round: &[Page], places: &[AddressPlace]) -> Option<usize>
    requires round { IsRound round.now }
    requires places { ArePlacesOf round.now places.now }
    ensures { MatchOption result (¬ Contains round.now page.now)
        (λ place. (place < length round.now) × (slice_index_or round.now place page.now ≡ page.now)) }
{
    match places.binary_search_by_key(&page.address, |it| it.address) {
        Ok(found) => {
            let place = places[found].place;
            if round[place] == *page {
                Some(place)
            } else {
                None
            }
        }
        Err(_) => None,
    }
}
