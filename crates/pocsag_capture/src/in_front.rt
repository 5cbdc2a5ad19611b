//! The words in front of a run that are read: of the batch whose synchronisation codeword was damaged, or is not in the capture.
ghost use Rattle.std.specs.Prelude.{◌≡◌, ◌↔◌, ◌+◌, ◌*◌, ◌^◌, ◌<◌, ◌≤◌, length, IsTrue};
ghost use Rattle.pocsag_words.specs.Frame.{input_limit};
ghost use Rattle.pocsag_capture.specs.Bits.{capture_bits};
ghost use Rattle.pocsag_capture.specs.Receptions.{AreInFront, HasInFront, SlipsInFront};

use crate::received_words::sent_at;
use crate::reception::{BATCH, Run};
use crate::slip::{EARLY, LATE, is_beside};
use pocsag_words::repair;

// So many words in front of a run, or more, are read; fewer may have a repair by chance.
const LEAST_IN_FRONT: u64 = 2;

// Words in front of a run that have a repair each.
#[derive(Clone, Copy)]
pub(crate) struct InFront {
    pub(crate) front_count: u64,
    // How many of their bits are wrong.
    pub(crate) front_errors: u64,
}

// The words in front of a run that have a repair each, and begin behind a held bit.
fn repaired_in_front(capture: &[u8], held: u64, run: Run) -> InFront
    requires few { length capture.now ≤ input_limit }
    requires held { held < 2 ^ 60 }
    requires bit { run.bit < 2 ^ 60 }
    ensures are { AreInFront (capture_bits capture.now) held run.polarity run.bit
        result.front_count result.front_errors }
    ensures most { result.front_count ≤ 16 }
    ensures room { 32 * result.front_count ≤ run.bit }
    ensures few_errors { result.front_errors ≤ 32 }
{
    let mut front_errors = 0;
    for front_count in 0..BATCH - 1 {
        let back = 32 * (front_count + 1);
        if run.bit < held + back {
            return InFront {
                front_count,
                front_errors,
            };
        }
        let word = sent_at(capture, run.polarity, run.bit - back);
        let Some(mended) = repair(word) else {
            return InFront {
                front_count,
                front_errors,
            };
        };
        front_errors += u64::from((mended.raw() ^ word).count_ones());
    }
    InFront {
        front_count: BATCH - 1,
        front_errors,
    }
}

// Whether one of so many words in front of a run is a codeword one bit beside its place.
fn slips_in_front(capture: &[u8], run: Run, front_count: u64) -> bool
    requires few { length capture.now ≤ input_limit }
    requires most { front_count ≤ 16 }
    requires bit { run.bit < 2 ^ 60 }
    ensures { IsTrue result ↔ SlipsInFront (capture_bits capture.now) run.polarity run.bit front_count }
{
    for nth in 1..front_count + 1 {
        let back = 32 * (nth + 1);
        if run.bit < back {
            return false;
        }
        let before = run.bit - back;
        let is_early = is_beside(capture, run.polarity, EARLY, before);
        if is_early {
            return true;
        }
        let is_late = is_beside(capture, run.polarity, LATE, before);
        if is_late {
            return true;
        }
    }
    false
}

// How many words are read of the batch in front of a run, where what is read of the reception before it ends at a held bit.
pub(crate) fn read_in_front(capture: &[u8], held: u64, run: Run) -> u64
    requires few { length capture.now ≤ input_limit }
    requires held { held < 2 ^ 60 }
    requires bit { run.bit < 2 ^ 60 }
    ensures { HasInFront (capture_bits capture.now) held run.polarity run.bit result }
{
    let InFront {
        front_count,
        front_errors,
    } = repaired_in_front(capture, held, run);
    if front_count < LEAST_IN_FRONT {
        return 0;
    }
    if 3 * front_errors > front_count {
        return 0;
    }
    if slips_in_front(capture, run, front_count) {
        return 0;
    }
    front_count
}
