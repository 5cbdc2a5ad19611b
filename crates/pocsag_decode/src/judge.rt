//! The first fault of a transmission.
ghost use Rattle.std.specs.Prelude.{◌≡◌, List, ◌∷◌, [], ◌+◌, ◌-◌, ◌*◌, ◌/◌, ◌%◌, ◌^◌, ◌<◌, ◌≤◌, ◌↔◌, All, IsTrue, false, length, IfErr, MatchResult, OnOk};
ghost use Rattle.pocsag_words.specs.Codeword.{IsCodeword};
ghost use Rattle.pocsag_words.specs.Kinds.{kind_of};
ghost use Rattle.pocsag_pages.specs.declared.page.Page.{Page};
ghost use Rattle.pocsag_pages.specs.Bytes.{words_of};
ghost use Rattle.pocsag_decode.specs.Faults.{HasFault, ReadsAs};
ghost use Rattle.pocsag_decode.specs.Judgements.{JudgesMore};
ghost use Rattle.pocsag_decode.specs.Places.{AllMayStand, HasBadWord, index_at, is_message};

use crate::fault::DecodeFault;
use pocsag_pages::preamble_len;
use pocsag_words::{
    BATCH_BYTES, BATCH_CODEWORDS, BATCH_WORDS, Kind, PREAMBLE_BYTES, SYNC_WORD, check_all,
    from_raw, kind_of_number,
};

// The words of a batch, its synchronisation codeword among them.
pub(crate) const BATCH: u64 = BATCH_WORDS as u64;

pub(crate) const WORDS: usize = BATCH_WORDS as usize;

// The bytes of a batch of idle codewords.
const IDLE_BATCH: [u8; 68] = [
    0x7C, 0xD2, 0x15, 0xD8, 0x7A, 0x89, 0xC1, 0x97, 0x7A, 0x89, 0xC1, 0x97, 0x7A, 0x89, 0xC1, 0x97,
    0x7A, 0x89, 0xC1, 0x97, 0x7A, 0x89, 0xC1, 0x97, 0x7A, 0x89, 0xC1, 0x97, 0x7A, 0x89, 0xC1, 0x97,
    0x7A, 0x89, 0xC1, 0x97, 0x7A, 0x89, 0xC1, 0x97, 0x7A, 0x89, 0xC1, 0x97, 0x7A, 0x89, 0xC1, 0x97,
    0x7A, 0x89, 0xC1, 0x97, 0x7A, 0x89, 0xC1, 0x97, 0x7A, 0x89, 0xC1, 0x97, 0x7A, 0x89, 0xC1, 0x97,
    0x7A, 0x89, 0xC1, 0x97,
];

// The index of the codeword at a place.
fn index_at(place: u64) -> u64
    requires { 0 < place % 17 }
    ensures { result ≡ index_at place }
{
    place - place / BATCH - 1
}

// Judges a codeword at its place by what it says.
#[inline(always)]
fn judge_kind(place: u64, in_page: bool, codeword: u32) -> Result<bool, DecodeFault>
    requires other { 0 < place % 17 }
    requires codeword { IsCodeword codeword }
    ensures judged { JudgesMore result place in_page (codeword ∷ []) }
    ensures follows { OnOk result (IsTrue (is_message (kind_of codeword)) → IsTrue in_page) }
{
    match kind_of_number(codeword) {
        Kind::Idle => Ok(false),
        Kind::Address {
            high: _,
            function: _,
        } => Ok(true),
        Kind::Message(_) if in_page => Ok(true),
        Kind::Message(_) => Err(DecodeFault::Orphan(index_at(place))),
    }
}

// Judges the word at a place, where a message codeword may follow or not.
#[inline(always)]
pub(crate) fn judge_word(place: u64, in_page: bool, word: u32) -> Result<bool, DecodeFault>
    ensures judged { JudgesMore result place in_page (word ∷ []) }
    ensures follows { OnOk result (0 < place % 17 → IsTrue (is_message (kind_of word)) → IsTrue in_page) }
{
    if place % BATCH > 0 {
        return match from_raw(word) {
            Some(_) => judge_kind(place, in_page, word),
            None => Err(DecodeFault::BadWord(index_at(place))),
        };
    }
    if word != SYNC_WORD {
        return Err(DecodeFault::NoSync(place / BATCH));
    }
    Ok(in_page)
}

// Judges the whole words of the bytes, the first of them at this place.
fn judge_words(place: u64, in_page: bool, bytes: &[u8]) -> Result<bool, DecodeFault>
    requires { place + length bytes.now / 4 < 2 ^ 64 }
    ensures { JudgesMore result place in_page (words_of bytes.now) }
{
    let mut place = place;
    let mut in_page = in_page;
    let (words, _) = bytes.as_chunks::<4>();
    for word in words {
        in_page = judge_word(place, in_page, u32::from_be_bytes(*word))?;
        place += 1;
    }
    Ok(in_page)
}

// The words of a batch.
#[inline(always)]
fn words_in(batch: &[u8]) -> [u32; WORDS]
    requires { length batch.now ≡ 68 }
    ensures { result ≡ words_of batch.now }
{
    let (words, _) = batch.as_chunks::<4>();
    let mut numbers = [0; WORDS];
    for i in 0..WORDS {
        numbers[i] = u32::from_be_bytes(words[i]);
    }
    numbers
}

// Judges codewords of one batch by what they say, the first of them at this place.
fn judge_kinds(place: u64, in_page: bool, codewords: &[u32]) -> Result<bool, DecodeFault>
    requires codewords { All IsCodeword codewords.now }
    requires first { place % 17 ≡ 1 }
    requires few { length codewords.now ≤ 16 }
    requires small { place + 16 < 2 ^ 64 }
    ensures { JudgesMore result place in_page codewords.now }
{
    let mut place = place;
    let mut in_page = in_page;
    for codeword in codewords {
        in_page = judge_kind(place, in_page, *codeword)?;
        place += 1;
    }
    Ok(in_page)
}

// Judges the words of a batch: where all codewords are such, each by what it says alone.
fn judge_batch(place: u64, in_page: bool, batch: &[u8]) -> Result<bool, DecodeFault>
    requires long { length batch.now ≡ 68 }
    requires first { place % 17 ≡ 0 }
    requires small { place + 17 < 2 ^ 64 }
    ensures { JudgesMore result place in_page (words_of batch.now) }
{
    if batch == IDLE_BATCH.as_slice() {
        return Ok(false);
    }
    let words = words_in(batch);
    let codewords = &words[1..];
    let mut flags = [false; BATCH_CODEWORDS];
    check_all(codewords, &mut flags);
    if words[0] != SYNC_WORD || flags.contains(&false) {
        return judge_words(place, in_page, batch);
    }
    judge_kinds(place + 1, in_page, codewords)
}

// Judges all whole words after the preamble.
fn judge_batches(bytes: &[u8]) -> Result<(), DecodeFault>
    ensures { MatchResult result (λ _. AllMayStand (words_of bytes.now)) (λ f. HasBadWord (words_of bytes.now) f) }
{
    let count = bytes.len() / BATCH_BYTES;
    let mut in_page = false;
    for i in 0..count {
        let start = BATCH_BYTES * i;
        in_page = judge_batch(
            BATCH * i as u64,
            in_page,
            &bytes[start..start + BATCH_BYTES],
        )?;
    }
    judge_words(BATCH * count as u64, in_page, &bytes[BATCH_BYTES * count..])?;
    Ok(())
}

/// The first fault of a transmission from left to right, where it has one. It takes no memory.
pub fn judge_bytes(bytes: &[u8]) -> Result<(), DecodeFault>
    ensures ok { OnOk result ((pages : List Page) × ReadsAs bytes.now pages) }
    ensures err { IfErr result (HasFault bytes.now) }
{
    let count = preamble_len(bytes);
    let (_, rest) = bytes.split_at(count);
    if count < PREAMBLE_BYTES {
        return Err(DecodeFault::ShortPreamble);
    }
    if rest.is_empty() {
        return Err(DecodeFault::NoBatch);
    }
    judge_batches(rest)?;
    if rest.len() % BATCH_BYTES != 0 {
        return Err(DecodeFault::Truncated);
    }
    Ok(())
}
