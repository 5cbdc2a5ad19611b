ghost use Rattle.std.specs.Prelude.{◌≡◌, ◌≢◌, ℕ, ◌/◌, ◌<◌, ◌≤◌, length, slice_index};
ghost use Rattle.pocsag_pages.specs.Reading.{page_length};
ghost use Rattle.pocsag_slots.specs.Loads.{AreClassesOf};
ghost use Rattle.pocsag_slots.specs.Classes.{class_of_page, slot_count};
ghost use Rattle.pocsag_slots.specs.Sums.{sum_below};
ghost use Rattle.pocsag_slots.specs.Tables.{turn_limit};

use crate::class::{CLASSES, Class, Classes, FIRST_BARE, SLOT_COUNT, SLOTS};
use pocsag_pages::{Page, Round};
use pocsag_words::End;

/// The class of the page for the end.
#[tactic(auto, unfolding(crate::specs::Classes::class_of))]
pub fn class_of(page: &Page, end: End) -> Class
    ensures { result.number ≡ class_of_page end page.now }
{
    let frame = (page.address % 8) as u8;
    let message = page.payload.as_slice().len();
    let number = match end {
        End::Closed if message == 0 => FIRST_BARE + frame,
        _ => frame * SLOT_COUNT + ((1 + message) % SLOTS) as u8,
    };
    Class { number }
}

/// How many whole turns of sixteen codewords the page takes.
pub fn whole_turns(page: &Page) -> u32
    requires { length page.now.payload ≤ 1400 }
    ensures value { result ≡ page_length page.now / slot_count }
    ensures bound { result ≤ turn_limit }
{
    ((1 + page.payload.as_slice().len()) / SLOTS) as u32
}

/// The pages of the round by classes for the end.
pub fn classes_of(round: &Round, end: End) -> Classes
    ensures counted { AreClassesOf result end round.now }
    ensures pages { sum_below 136 (slice_index result.count) ≡ length round.now }
    // The classes of an address codeword alone are the closed end's.
    ensures bare { end ≢ End.Closed → (c : ℕ) → 128 ≤ c → c < 136 → slice_index result.count c ≡ 0 }
{
    let mut count = [0; CLASSES];
    let mut turns = [0; CLASSES];
    for page in round.pages() {
        let class = class_of(page, end).number as usize;
        count[class] += 1;
        turns[class] += whole_turns(page);
    }
    Classes { count, turns }
}
