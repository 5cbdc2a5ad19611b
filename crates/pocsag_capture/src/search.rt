//! The search for transmissions.
ghost use Rattle.std.specs.Prelude.{◌≡◌, ◌↔◌, ℕ, ◌+◌, ◌-◌, ◌*◌, ◌/◌, ◌%◌, ◌^◌, ◌<◌, ◌≤◌, length, IsTrue, IfOk, IfSome, IfNone};
ghost use Rattle.std.specs.Bool.{OnTrue};
ghost use Rattle.pocsag_words.specs.Codeword.{IsNear};
ghost use Rattle.pocsag_words.specs.Frame.{input_limit};
ghost use Rattle.pocsag_pages.specs.Bytes.{sync_word};
ghost use Rattle.pocsag_capture.specs.Bits.{as_sent, capture_bits};
ghost use Rattle.pocsag_capture.specs.Receptions.{AreReceptions, IsOnAir, IsQuiet, IsSynchronised, behind, run_end};
ghost use Rattle.pocsag_capture.specs.Runs.{BeginsRun, Steps};
ghost use Rattle.pocsag_capture.specs.Slips.{AreInStep, HasOtherSync, IsBeforeIdle};
ghost use Rattle.pocsag_capture.specs.declared.polarity.Polarity.{Polarity};
ghost use Rattle.pocsag_capture.specs.declared.reception.Run.{Run};

use crate::bits::{window_on, word_in, word_on};
use crate::in_front::read_in_front;
use crate::polarity::{NEAR_BITS, Polarity, polarity_of};
use crate::received_words::{has_few_lost, reception_of, sent_at};
use crate::reception::{BATCH, Reception, Run};
use crate::slip::has_slipped;
use crate::sync_table::may_begin;
use pocsag_words::{BATCH_BITS, IDLE_WORD, SYNC_WORD};
use std::alloc::{AllocError, Global};

// How many bits before the end of a batch the next transmission may begin, since bits are lost, or behind it, since bits are
// doubled.
const WORD_SLACK: u64 = 31;

// How many bits of a synchronisation codeword stand before the eighteen with which an idle codeword in the other polarity begins.
const BEFORE_IDLE: u64 = 14;

// Where a synchronisation codeword begins.
#[derive(Drop)]
pub(crate) struct SyncPlace {
    pub(crate) bit: u64,
    pub(crate) polarity: Polarity,
}

// Whether none of the eight words that begin in the first byte of a window is a synchronisation codeword.
#[inline(always)]
fn is_quiet(window: u64) -> bool
    requires { window < 2 ^ 40 }
    ensures { OnTrue result ((bit : ℕ) (polarity : Polarity) → bit < 8 →
        ¬ IsNear sync_word (as_sent polarity (window / 2 ^ (8 - bit) % 2 ^ 32))) }
{
    if !may_begin(window) {
        return true;
    }
    for bit in 0..8 {
        if polarity_of(word_in(window, bit)).is_some() {
            return false;
        }
    }
    true
}

// The first synchronisation codeword from a bit on, before the last.
fn find(capture: &[u8], first: u64, last: u64) -> Option<SyncPlace>
    requires few { length capture.now ≤ input_limit }
    requires first { first < 2 ^ 60 }
    ensures later { IfSome result (λ place. first ≤ place.bit) }
    ensures quiet { IfSome result (λ place. IsQuiet (capture_bits capture.now) first place.bit) }
    ensures earlier { IfSome result (λ place. place.bit < last) }
    ensures there { IfSome result (λ place. IsSynchronised (capture_bits capture.now) place.bit place.polarity) }
    ensures none { IfNone result (IsQuiet (capture_bits capture.now) first last) }
{
    let end = 8 * capture.len() as u64;
    let mut bit = first;
    while bit < last && bit + 32 <= end {
        if bit % 8 == 0 && is_quiet(window_on(capture, (bit / 8) as usize)) {
            bit += 8;
            continue;
        }
        if let Some(polarity) = polarity_of(word_on(capture, bit)) {
            return Some(SyncPlace { bit, polarity });
        }
        bit += 1;
    }
    None
}

// Whether a synchronisation codeword of the polarity begins at a bit.
fn is_synchronised(capture: &[u8], bit: u64, polarity: Polarity) -> bool
    requires few { length capture.now ≤ input_limit }
    requires bit { bit < 2 ^ 60 }
    ensures { IsTrue result ↔ IsSynchronised (capture_bits capture.now) bit polarity }
{
    if bit + 32 > 8 * capture.len() as u64 {
        return false;
    }
    (SYNC_WORD ^ polarity.sent(word_on(capture, bit))).count_ones() <= NEAR_BITS
}

// How many batches behind a synchronisation codeword the next one in step begins; 0 where none does.
#[tactic(auto, using(crate::proofs::Windows::bits_long))]
fn steps_on(capture: &[u8], bit: u64, polarity: Polarity) -> u64
    requires few { length capture.now ≤ input_limit }
    requires there { IsSynchronised (capture_bits capture.now) bit polarity }
    ensures { Steps (capture_bits capture.now) bit polarity result }
{
    if is_synchronised(capture, bit + BATCH_BITS, polarity) {
        return 1;
    }
    let next = bit + 2 * BATCH_BITS;
    if is_synchronised(capture, next, polarity) && find(capture, bit + 1, next).is_none() {
        2
    } else {
        0
    }
}

// The run that a synchronisation codeword begins.
fn run_of(capture: &[u8], place: SyncPlace) -> Run
    requires few { length capture.now ≤ input_limit }
    requires there { IsSynchronised (capture_bits capture.now) place.bit place.polarity }
    ensures run { BeginsRun (capture_bits capture.now) place.bit place.polarity result }
    ensures end { run_end result < 2 ^ 59 }
{
    let SyncPlace { bit, polarity } = place;
    let mut batches = 1;
    let mut steps = steps_on(capture, bit, polarity);
    while steps > 0 {
        batches += steps;
        steps = steps_on(capture, bit + BATCH_BITS * (batches - 1), polarity);
    }
    Run {
        bit,
        polarity,
        batches,
    }
}

// Whether a run is on the air, where what is read of the one before it ends at a bit.
fn counts(capture: &[u8], held: u64, run: Run) -> bool
    requires few { length capture.now ≤ input_limit }
    requires end { run_end run < 2 ^ 60 }
    ensures { IsTrue result ↔ IsOnAir (capture_bits capture.now) held run }
{
    run.batches > 1 || (held <= run.bit + WORD_SLACK && has_few_lost(capture, run))
}

// Whether fourteen bits behind a bit an idle codeword begins in step.
fn is_before_idle(capture: &[u8], reception: Reception, bit: u64) -> bool
    requires few { length capture.now ≤ input_limit }
    requires bit { bit < 2 ^ 60 }
    ensures { IsTrue result ↔ IsBeforeIdle (capture_bits capture.now) reception bit }
{
    let idle = bit + BEFORE_IDLE;
    idle.saturating_sub(reception.bit) % 32 == 0
        && sent_at(capture, reception.polarity, idle) == IDLE_WORD
}

// Whether another synchronisation codeword begins inside the last batch of a reception, or at most 31 bits behind it.
fn has_other_sync(capture: &[u8], reception: Reception) -> bool
    requires few { length capture.now ≤ input_limit }
    requires end { behind reception < 2 ^ 60 }
    ensures { IsTrue result ↔ HasOtherSync (capture_bits capture.now) reception }
{
    let behind = reception.bit + BATCH_BITS * reception.batches;
    let mut first = behind.saturating_sub(BATCH_BITS - 1);
    while let Some(place) = find(capture, first, behind + WORD_SLACK + 1) {
        if !is_before_idle(capture, reception, place.bit) {
            return true;
        }
        first = place.bit + 1;
    }
    false
}

// How many of all batches of a reception are in step: all, or all but the last.
pub(crate) fn steady_batches(capture: &[u8], reception: Reception) -> u64
    requires few { length capture.now ≤ input_limit }
    requires end { behind reception < 2 ^ 60 }
    ensures { AreInStep (capture_bits capture.now) reception result }
{
    let all = reception.all_batches();
    if has_other_sync(capture, reception) || has_slipped(capture, reception) {
        return all.saturating_sub(1);
    }
    all
}

// The receptions of a capture.
pub(crate) fn receptions(alloc: Global, capture: &[u8]) -> Result<Vec<Reception>, AllocError>
    requires { length capture.now ≤ input_limit }
    ensures { IfOk result (λ found. AreReceptions (capture_bits capture.now) found.items) }
{
    let end = 8 * capture.len() as u64;
    let mut found = Vec::new(alloc);
    let mut first = 0;
    let mut held = 0;
    while let Some(place) = find(capture, first, end) {
        let run = run_of(capture, place);
        first = run.bit + BATCH_BITS * (run.batches - 1) + 1;
        if counts(capture, held, run) {
            let reception = reception_of(capture, run, read_in_front(capture, held, run));
            found.push(reception)?;
            held = run.bit + 32 * reception.words.min(BATCH * run.batches);
        }
    }
    Ok(found)
}
