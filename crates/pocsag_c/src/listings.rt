ghost use Rattle.std.specs.Prelude.{◌≡◌, ◌≢◌, ◌⊎◌, ◌↔◌, IfErr, IfOk};
ghost use Rattle.pocsag_c.specs.Answers.{PrintsFault};
ghost use Rattle.pocsag_c.specs.Listings.{ExplainsUnheard, ExplainsUnlisted, HasNoRoom, IsListed, IsListingAs, IsListingOf, IsListingShown, IsListingShownAs};
ghost use Rattle.pocsag_c.specs.Readings.{IsNoReading, IsUnreadOr, number_of_reading};
ghost use Rattle.pocsag_c.specs.Statuses.{IsOfBytes, IsRefusing, nowhere, pager_refusal, transmission_refusal};

use crate::buffer::hand_out_text;
use crate::reading::{Reading, read_as, reading_of};
use crate::refusal::{NOWHERE, Place, StatusAt, plain, refused_hearing, refused_transmission};
use pocsag_decode::{judge_bytes, list_owned, list_sent};
use pocsag_pager::hear_all;
use pocsag_words::GrowingSink;
use std::alloc::Global;

fn text_decoded(alloc: Global, reading: Reading, tx: &[u8]) -> Result<Vec<u8>, StatusAt>
    ensures listed { IfOk result (λ text. IsListingAs (number_of_reading reading) tx.now text.items) }
    ensures fault { IfErr result (λ r. IsUnreadOr (number_of_reading reading) tx.now r.status r.place
        (λ bytes. PrintsFault transmission_refusal (ExplainsUnlisted bytes) r.status r.place)) }
    ensures refusing { IfErr result (λ r. IsRefusing r.status) }
    ensures of_bytes { IfErr result (λ r. IsOfBytes r.status) }
{
    let read = read_as(alloc, reading, tx)?;
    let bytes = read.bytes();
    if let Err(fault) = judge_bytes(bytes) {
        return Err(refused_transmission(fault));
    }
    let mut text = GrowingSink::new(alloc);
    match list_sent(alloc, bytes, &mut text) {
        Ok(()) => Ok(text.into_bytes()),
        Err(_) => Err(plain(3)),
    }
}

fn text_heard(alloc: Global, reading: Reading, address: u32, tx: &[u8]) -> Result<Vec<u8>, StatusAt>
    ensures listed { IfOk result (λ text. IsListingShownAs (number_of_reading reading) address tx.now text.items) }
    ensures fault { IfErr result (λ r. IsUnreadOr (number_of_reading reading) tx.now r.status r.place
        (λ bytes. PrintsFault pager_refusal (ExplainsUnheard address bytes) r.status r.place)) }
    ensures refusing { IfErr result (λ r. IsRefusing r.status) }
    ensures of_bytes { IfErr result (λ r. IsOfBytes r.status) }
{
    let read = read_as(alloc, reading, tx)?;
    let pages = match hear_all(alloc, read.bytes(), address) {
        Ok(pages) => pages,
        Err(fault) => return Err(refused_hearing(fault)),
    };
    let mut text = GrowingSink::new(alloc);
    match list_owned(alloc, pages, &mut text) {
        Ok(()) => Ok(text.into_bytes()),
        Err(_) => Err(plain(3)),
    }
}

/// Puts the listing of the pages of a transmission into a buffer: 0, or 9 where the buffer is too small. In
/// both cases `listing_len` reports the length of the listing.
#[unsafe(no_mangle)]
pub extern "C" fn pocsag_decode(
    alloc: Global,
    tx: &[u8],
    listing: &mut [u8],
    listing_len: &mut usize,
    place: &mut Place,
) -> u32
    ensures listed { result ≡ 0 → IsListed (IsListingOf tx.now) listing.old listing.new listing_len.new }
    ensures no_room { result ≡ 9 → HasNoRoom (IsListingOf tx.now) listing.old listing.new listing_len.new }
    ensures fault { result ≢ 0 → result ≢ 9 →
        PrintsFault transmission_refusal (ExplainsUnlisted tx.now) result place.new }
    ensures placeless { (result ≡ 0) ⊎ (result ≡ 9) → place.new ≡ nowhere }
    ensures nothing { result ≢ 0 → result ≢ 9 → listing_len.new ≡ 0 }
    ensures of_bytes { IsOfBytes result }
    ensures untouched { result ≢ 0 → listing.new ≡ listing.old }
{
    pocsag_decode_as(alloc, 0, tx, listing, listing_len, place)
}

/// Puts the listing of what the pager of an address shows of a transmission into a buffer, as
/// `pocsag_decode` does.
#[unsafe(no_mangle)]
pub extern "C" fn pocsag_hear(
    alloc: Global,
    address: u32,
    tx: &[u8],
    listing: &mut [u8],
    listing_len: &mut usize,
    place: &mut Place,
) -> u32
    ensures listed { result ≡ 0 → IsListed (IsListingShown address tx.now) listing.old listing.new listing_len.new }
    ensures no_room { result ≡ 9 →
        HasNoRoom (IsListingShown address tx.now) listing.old listing.new listing_len.new }
    ensures fault { result ≢ 0 → result ≢ 9 →
        PrintsFault pager_refusal (ExplainsUnheard address tx.now) result place.new }
    ensures placeless { (result ≡ 0) ⊎ (result ≡ 9) → place.new ≡ nowhere }
    ensures nothing { result ≢ 0 → result ≢ 9 → listing_len.new ≡ 0 }
    ensures of_bytes { IsOfBytes result }
    ensures untouched { result ≢ 0 → listing.new ≡ listing.old }
{
    pocsag_hear_as(alloc, 0, address, tx, listing, listing_len, place)
}

/// Puts the listing of the pages of a transmission into a buffer as `pocsag_decode` does: with the reading 0 those of the
/// bytes, with 1 those of their repair, and with 2 those of all transmissions of a capture. 58 if the reading is none of
/// these.
#[unsafe(no_mangle)]
pub extern "C" fn pocsag_decode_as(
    alloc: Global,
    reading: u32,
    tx: &[u8],
    listing: &mut [u8],
    listing_len: &mut usize,
    place: &mut Place,
) -> u32
    ensures listed { result ≡ 0 → IsListed (IsListingAs reading tx.now) listing.old listing.new listing_len.new }
    ensures no_room { result ≡ 9 → HasNoRoom (IsListingAs reading tx.now) listing.old listing.new listing_len.new }
    ensures bad_reading { result ≡ 58 ↔ IsNoReading reading }
    ensures fault { result ≢ 0 → result ≢ 9 → result ≢ 58 → IsUnreadOr reading tx.now result place.new
        (λ bytes. PrintsFault transmission_refusal (ExplainsUnlisted bytes) result place.new) }
    ensures placeless { (result ≡ 0) ⊎ (result ≡ 9) ⊎ (result ≡ 58) → place.new ≡ nowhere }
    ensures nothing { result ≢ 0 → result ≢ 9 → listing_len.new ≡ 0 }
    ensures of_bytes { IsOfBytes result }
    ensures untouched { result ≢ 0 → listing.new ≡ listing.old }
{
    let Some(reading) = reading_of(reading) else {
        *listing_len = 0;
        *place = NOWHERE;
        return 58;
    };
    let text = text_decoded(alloc, reading, tx);
    hand_out_text(text, 9, listing, listing_len, place)
}

/// Puts the listing of what the pager of an address shows into a buffer as `pocsag_hear` does, by a reading as
/// `pocsag_decode_as` has it.
#[unsafe(no_mangle)]
pub extern "C" fn pocsag_hear_as(
    alloc: Global,
    reading: u32,
    address: u32,
    tx: &[u8],
    listing: &mut [u8],
    listing_len: &mut usize,
    place: &mut Place,
) -> u32
    ensures listed { result ≡ 0 →
        IsListed (IsListingShownAs reading address tx.now) listing.old listing.new listing_len.new }
    ensures no_room { result ≡ 9 →
        HasNoRoom (IsListingShownAs reading address tx.now) listing.old listing.new listing_len.new }
    ensures bad_reading { result ≡ 58 ↔ IsNoReading reading }
    ensures fault { result ≢ 0 → result ≢ 9 → result ≢ 58 → IsUnreadOr reading tx.now result place.new
        (λ bytes. PrintsFault pager_refusal (ExplainsUnheard address bytes) result place.new) }
    ensures placeless { (result ≡ 0) ⊎ (result ≡ 9) ⊎ (result ≡ 58) → place.new ≡ nowhere }
    ensures nothing { result ≢ 0 → result ≢ 9 → listing_len.new ≡ 0 }
    ensures of_bytes { IsOfBytes result }
    ensures untouched { result ≢ 0 → listing.new ≡ listing.old }
{
    let Some(reading) = reading_of(reading) else {
        *listing_len = 0;
        *place = NOWHERE;
        return 58;
    };
    let text = text_heard(alloc, reading, address, tx);
    hand_out_text(text, 9, listing, listing_len, place)
}
