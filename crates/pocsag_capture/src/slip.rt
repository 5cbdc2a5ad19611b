//! Bits that were lost or doubled in the last batch of a reception, behind which no synchronisation codeword shows it.
ghost use Rattle.std.specs.Prelude.{◌↔◌, ◌+◌, ◌*◌, ◌^◌, ◌<◌, ◌≤◌, length, IsTrue};
ghost use Rattle.pocsag_words.specs.Frame.{input_limit};
ghost use Rattle.pocsag_capture.specs.Bits.{capture_bits};
ghost use Rattle.pocsag_capture.specs.Receptions.{IsBeside, behind};
ghost use Rattle.pocsag_capture.specs.Slips.{HasSlipped, IsSlip};

use crate::polarity::Polarity;
use crate::received_words::sent_at;
use crate::reception::{BATCH, Reception};
use pocsag_words::{IDLE_WORD, from_raw};

// How many bits behind the word before it a word begins where a bit was lost, in step, and where a bit was doubled.
pub(crate) const EARLY: u64 = 31;

const IN_STEP: u64 = 32;

pub(crate) const LATE: u64 = 33;

// So many words one bit beside their places show a slip, or two at the end.
const SHOWING: u64 = 4;

// Whether a word that is due 32 bits behind a bit is a codeword so many bits behind it, and none in its place unless the first is
// idle.
pub(crate) fn is_beside(capture: &[u8], polarity: Polarity, step: u64, before: u64) -> bool
    requires few { length capture.now ≤ input_limit }
    requires before { before + 33 < 2 ^ 61 }
    requires step { step ≤ 33 }
    ensures { IsTrue result ↔ IsBeside (capture_bits capture.now) polarity step before }
{
    let beside = sent_at(capture, polarity, before + step);
    if from_raw(beside).is_none() {
        return false;
    }
    beside == IDLE_WORD || from_raw(sent_at(capture, polarity, before + IN_STEP)).is_none()
}

// Whether from a place on four words of a reception, or those up to its end, are codewords one bit beside their places.
fn is_slip(capture: &[u8], reception: Reception, step: u64, first: u64) -> bool
    requires few { length capture.now ≤ input_limit }
    requires first { 0 < first }
    requires inside { first < 17 * reception.batches }
    requires end { behind reception < 2 ^ 60 }
    requires step { step ≤ 33 }
    ensures { IsTrue result ↔ IsSlip (capture_bits capture.now) reception step first }
{
    let end = BATCH * reception.batches;
    for place in first..first + SHOWING {
        let before = reception.bit + 32 * (place - 1);
        if place < end && !is_beside(capture, reception.polarity, step, before) {
            return false;
        }
    }
    true
}

// Whether a bit was lost or doubled in the last batch of a reception.
pub(crate) fn has_slipped(capture: &[u8], reception: Reception) -> bool
    requires few { length capture.now ≤ input_limit }
    requires end { behind reception < 2 ^ 60 }
    ensures { IsTrue result ↔ HasSlipped (capture_bits capture.now) reception }
{
    let end = BATCH * reception.batches;
    for place in end.saturating_sub(BATCH - 1)..end.saturating_sub(1) {
        let is_early = is_slip(capture, reception, EARLY, place);
        if is_early {
            return true;
        }
        let is_late = is_slip(capture, reception, LATE, place);
        if is_late {
            return true;
        }
    }
    false
}
