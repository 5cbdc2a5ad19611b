//! Repair of a transmission in place.
ghost use Rattle.std.specs.Prelude.{◌≡◌, ℕ, ◌+◌, ◌^◌, ◌<◌, ◌≤◌, ◌==◌, ◌++◌, if◌then◌else◌, List, length, take, drop, bit_xor, count_ones};
ghost use Rattle.std.specs.Int.{from_be_bytes, to_be_bytes, w32};
ghost use Rattle.pocsag_pages.specs.Bytes.{Sent};
ghost use Rattle.pocsag_pager.specs.Damage.{IsDamaged};
ghost use Rattle.pocsag_decode.specs.Repairs.{Counts, IsRepaired, IsRepairOf};

use crate::judge::BATCH;
use crate::laws::recall_repair_restores;
use crate::repaired::Repaired;
use pocsag_pages::preamble_len;
use pocsag_words::{SYNC_WORD, repair};

// The bits that may be wrong in a synchronisation codeword.
const WRONG_BITS: u32 = 2;

// The word at a place, counted from 0 with the synchronisation codewords, as it is repaired.
fn repaired_word(place: u64, word: u32) -> u32
    ensures { IsRepaired place word result }
{
    if place % BATCH != 0 {
        return match repair(word) {
            Some(codeword) => codeword.raw(),
            None => word,
        };
    }
    if (SYNC_WORD ^ word).count_ones() <= WRONG_BITS {
        SYNC_WORD
    } else {
        word
    }
}

// The word of the four bytes from an index on.
fn word_at(bytes: &[u8], at: usize) -> u32
    requires { at + 4 ≤ length bytes.now }
    ensures { to_be_bytes w32 result ≡ take 4 (drop at bytes.now) }
{
    u32::from_be_bytes([bytes[at], bytes[at + 1], bytes[at + 2], bytes[at + 3]])
}

/// Repairs a transmission in place, for whatever addresses it is: of the whole words after the bytes AA that stand first,
/// each becomes the only codeword that differs from it in at most two bits, and the first of each seventeen, where the
/// synchronisation codeword is due, that codeword. A word with more wrong bits stays as it is, and so do all other bytes.
pub fn repair_all(bytes: &mut [u8]) -> Repaired
    ensures repaired { IsRepairOf bytes.old bytes.new }
    ensures counted { Counts result bytes.old bytes.new }

    // *Repaired for all*: bytes of a transmission with at most two wrong bits in each word become those that were sent.
    ensures restored { (X T : List ℕ) → Sent X T → IsDamaged X bytes.old → bytes.new ≡ X }

    // The bytes of a transmission stay as they are, and nothing is counted.
    ensures whole { (T : List ℕ) → Sent bytes.old T →
        (bytes.new ≡ bytes.old) × (result.words ≡ 0) × (result.bits ≡ 0) }
{
    recall_repair_restores();
    let mut told = Repaired { words: 0, bits: 0 };
    let mut at = preamble_len(bytes);
    let mut place = 0;
    while bytes.len() - at >= 4 {
        let before = word_at(bytes, at);
        let after = repaired_word(place, before);
        bytes[at..at + 4].copy_from_slice(&after.to_be_bytes());
        told.words += u64::from(after != before);
        told.bits += u64::from((after ^ before).count_ones());
        at += 4;
        place += 1;
    }
    told
}
