//! The words of receptions: which of them are read, and how many are lost.
ghost use Rattle.std.specs.Prelude.{◌≡◌, ◌↔◌, ◌+◌, ◌-◌, ◌*◌, ◌^◌, ◌<◌, ◌≤◌, length, IsTrue};
ghost use Rattle.pocsag_words.specs.Codeword.{HasNoneNear};
ghost use Rattle.pocsag_words.specs.Frame.{input_limit};
ghost use Rattle.pocsag_capture.specs.Bits.{capture_bits};
ghost use Rattle.pocsag_capture.specs.Receptions.{HasFewLost, IsBreak, IsLikeSynchronised, IsReadTo, IsReception, run_end, received_word, sent_at, word_in_front};
ghost use Rattle.pocsag_capture.specs.declared.reception.Reception.{Reception};
ghost use Rattle.pocsag_capture.specs.declared.reception.Run.{Run};

use crate::bits::word_on;
use crate::polarity::Polarity;
use crate::reception::{BATCH, Reception, Run};
use pocsag_words::{BATCH_BITS, SYNC_WORD, repair};

/// A word past repair, which stands for each word that was expected and not read.
pub(crate) const UNREAD_WORD: u32 = 0x0000_000B;

// The bits that may be wrong in the synchronisation codeword of the last batch.
const LIKE_BITS: u32 = 7;

// The words of a lone batch that may be lost.
const FEW_LOST: u64 = 5;

// The word from a bit on as it was sent.
#[inline(always)]
pub(crate) fn sent_at(capture: &[u8], polarity: Polarity, bit: u64) -> u32
    requires few { length capture.now ≤ input_limit }
    requires bit { bit < 2 ^ 61 }
    ensures { result ≡ sent_at (capture_bits capture.now) polarity bit }
{
    if bit + 32 > 8 * capture.len() as u64 {
        return UNREAD_WORD;
    }
    polarity.sent(word_on(capture, bit))
}

// A word of the batch in front by its place.
fn word_in_front(capture: &[u8], reception: Reception, place: u64) -> u32
    requires few { length capture.now ≤ input_limit }
    requires place { place < 17 }
    requires bit { reception.bit + 32 * place < 2 ^ 61 }
    ensures { result ≡ word_in_front (capture_bits capture.now) reception place }
{
    if reception.words_in_front < BATCH - place {
        return UNREAD_WORD;
    }
    let bit = (reception.bit + 32 * place).saturating_sub(BATCH_BITS);
    sent_at(capture, reception.polarity, bit)
}

// A word of a reception by its place.
#[inline(always)]
pub(crate) fn received_word(capture: &[u8], reception: Reception, place: u64) -> u32
    requires few { length capture.now ≤ input_limit }
    requires place { reception.bit + 32 * place < 2 ^ 61 }
    ensures { result ≡ received_word (capture_bits capture.now) reception place }
{
    let first = BATCH * reception.batches_in_front();
    if place < first {
        return word_in_front(capture, reception, place);
    }
    let own = place - first;
    if own >= reception.words {
        return UNREAD_WORD;
    }
    sent_at(capture, reception.polarity, reception.bit + 32 * own)
}

// Whether a word is past repair.
fn is_lost(word: u32) -> bool
    ensures { IsTrue result ↔ HasNoneNear word }
{
    repair(word).is_none()
}

// Whether few of the words behind the first synchronisation codeword of a run are past repair.
pub(crate) fn has_few_lost(capture: &[u8], run: Run) -> bool
    requires few { length capture.now ≤ input_limit }
    requires end { run.bit < 2 ^ 60 }
    ensures { IsTrue result ↔ HasFewLost (capture_bits capture.now) run }
{
    let mut lost = 0;
    for place in 1..BATCH {
        if is_lost(sent_at(capture, run.polarity, run.bit + 32 * place)) {
            lost += 1;
        }
    }
    lost <= FEW_LOST
}

// Whether a word of the last batch and the next one are past repair.
fn is_break(capture: &[u8], run: Run, place: u64) -> bool
    requires few { length capture.now ≤ input_limit }
    requires end { run_end run < 2 ^ 60 }
    requires last { 17 * (run.batches - 1) < place }
    requires inside { place < 17 * run.batches }
    ensures { IsTrue result ↔ IsBreak (capture_bits capture.now) run.polarity run.bit run.batches place }
{
    if place + 1 >= BATCH * run.batches {
        return false;
    }
    let bit = run.bit + 32 * place;
    if !is_lost(sent_at(capture, run.polarity, bit)) {
        return false;
    }
    is_lost(sent_at(capture, run.polarity, bit + 32))
}

// How many words are read of batches from a bit on.
fn words_read(capture: &[u8], run: Run) -> u64
    requires few { length capture.now ≤ input_limit }
    requires some { 0 < run.batches }
    requires end { run_end run < 2 ^ 60 }
    ensures { IsReadTo (capture_bits capture.now) run.polarity run.bit run.batches result }
{
    let all = BATCH * run.batches;
    for place in BATCH * (run.batches - 1) + 1..all {
        if is_break(capture, run, place) {
            return place;
        }
    }
    all
}

// Whether a word differs little from the synchronisation codeword.
fn is_like_synchronised(capture: &[u8], bit: u64, polarity: Polarity) -> bool
    requires few { length capture.now ≤ input_limit }
    requires bit { bit < 2 ^ 60 }
    ensures { IsTrue result ↔ IsLikeSynchronised (capture_bits capture.now) bit polarity }
{
    if bit + 32 > 8 * capture.len() as u64 {
        return false;
    }
    (SYNC_WORD ^ polarity.sent(word_on(capture, bit))).count_ones() <= LIKE_BITS
}

// The reception of a run, with so many words of the batch in front of it.
pub(crate) fn reception_of(capture: &[u8], run: Run, words_in_front: u64) -> Reception
    requires few { length capture.now ≤ input_limit }
    requires some { 0 < run.batches }
    requires end { run_end run < 2 ^ 59 }
    ensures run { IsReception (capture_bits capture.now) run result }
    ensures front { result.words_in_front ≡ words_in_front }
{
    let end = run.bit + BATCH_BITS * run.batches;
    let batches = if is_like_synchronised(capture, end, run.polarity) {
        run.batches + 1
    } else {
        run.batches
    };
    let words = words_read(capture, Run { batches, ..run });
    Reception {
        bit: run.bit,
        polarity: run.polarity,
        batches,
        words,
        words_in_front,
    }
}
