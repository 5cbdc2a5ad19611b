//! Receptions as transmissions of whole bytes.
ghost use Rattle.std.specs.Prelude.{◌≡◌, ◌⊎◌, ℕ, ◌+◌, ◌-◌, ◌*◌, ◌^◌, ◌<◌, ◌≤◌, List, [], ◌∷◌, ◌++◌, All, Some, length, map, replicate, slice_get, IfErr, IfNone, IfOk, IfSome, OnOk};
ghost use Rattle.pocsag_words.specs.Frame.{input_limit, preamble_byte, preamble_length};
ghost use Rattle.pocsag_pages.specs.declared.page.Page.{Page};
ghost use Rattle.pocsag_capture.specs.Bits.{capture_bits};
ghost use Rattle.pocsag_capture.specs.ExtractedBytes.{ExplainsNone, ExplainsUnextracted, ExtractsAll, ExtractsOne, PutsExtract, PutsExtracts};
ghost use Rattle.pocsag_capture.specs.Receptions.{AreReceptions, behind};
ghost use Rattle.pocsag_capture.specs.Sent.{HoldsSent, ReadsAmong};
ghost use Rattle.pocsag_capture.specs.declared.reception.Reception.{Reception};

use crate::corrector::WordCorrector;
use crate::fault::CaptureFault;
use crate::polarity::Polarity;
use crate::reception::{BATCH, Reception, ReceptionStats};
use crate::search::{receptions, steady_batches};
use pocsag_words::{INPUT_LIMIT, PREAMBLE_BYTE, PREAMBLE_BYTES, SYNC_WORD};
use std::alloc::{AllocError, Global};

/// What is extracted from a capture.
#[derive(Drop)]
pub struct Extracted {
    /// The bytes of a transmission.
    pub bytes: Vec<u8>,
    /// The receptions that it is extracted from.
    pub heard: Vec<ReceptionStats>,
}

// Puts the batches of a reception behind the bytes, each word corrected.
pub(crate) fn put_extract(
    capture: &[u8],
    reception: Reception,
    bytes: &mut Vec<u8>,
) -> Result<ReceptionStats, AllocError>
    requires few { length capture.now ≤ input_limit }
    requires end { behind reception < 2 ^ 60 }
    ensures extracted { IfOk result (λ heard.
        PutsExtract (capture_bits capture.now) heard bytes.old.items bytes.new.items) }
    ensures same { IfOk result (λ heard. heard.reception ≡ reception) }
{
    let steady = steady_batches(capture, reception);
    let mut corrector = WordCorrector {
        is_open: false,
        corrected: 0,
        lost: 0,
        cut: 0,
    };
    for place in 0..BATCH * reception.all_batches() {
        let Some(corrected_word) = corrector.correct_at(capture, reception, steady, place) else {
            bytes.extend_from_slice(&SYNC_WORD.to_be_bytes())?;
            continue;
        };
        bytes.extend_from_slice(&corrected_word.codeword.to_be_bytes())?;
    }
    corrector.close(true);
    Ok(ReceptionStats {
        reception,
        steady,
        corrected: corrector.corrected,
        lost: corrector.lost,
        cut: corrector.cut,
    })
}

// The same of receptions, one behind the other.
fn put_extracts(
    alloc: Global,
    capture: &[u8],
    found: &[Reception],
    bytes: &mut Vec<u8>,
) -> Result<Vec<ReceptionStats>, AllocError>
    requires few { length capture.now ≤ input_limit }
    requires ends { All (λ (r : Reception). behind r < 2 ^ 60) found.now }
    ensures { IfOk result (λ heard.
        PutsExtracts (capture_bits capture.now) found.now heard.items bytes.old.items bytes.new.items) }
{
    let mut heard = Vec::new(alloc);
    for reception in found {
        heard.push(put_extract(capture, *reception, bytes)?)?;
    }
    Ok(heard)
}

// The bytes of a preamble.
pub(crate) fn preamble(alloc: Global) -> Result<Vec<u8>, AllocError>
    ensures { IfOk result (λ bytes. bytes.items ≡ replicate preamble_length preamble_byte) }
{
    Vec::from_slice(alloc, &[PREAMBLE_BYTE; PREAMBLE_BYTES])
}

/// The receptions of a capture, which may be too large.
pub fn receptions_in(alloc: Global, capture: &[u8]) -> Result<Vec<Reception>, CaptureFault>
    ensures found { IfOk result (λ found. AreReceptions (capture_bits capture.now) found.items) }
    ensures some { IfOk result (λ found. All (λ (r : Reception). 0 < r.batches) found.items) }
    ensures ends { IfOk result (λ found. All (λ (r : Reception). behind r < 2 ^ 60) found.items) }
    ensures few { OnOk result (length capture.now ≤ input_limit) }
    ensures explained { IfErr result (ExplainsUnextracted capture.now) }
{
    if capture.len() > INPUT_LIMIT {
        return Err(CaptureFault::TooLarge);
    }
    Ok(receptions(alloc, capture)?)
}

/// Extracts all transmissions from a capture, one behind the other: the bytes are a transmission that reads as all their
/// pages. Each word is repaired; a word that is lost, and a message codeword that continues no page, become idle.
pub fn extract_all(alloc: Global, capture: &[u8]) -> Result<Extracted, CaptureFault>
    ensures extracted { IfOk result (ExtractsAll capture.now) }

    // *A capture that holds a sent transmission shows its pages*, one behind the other, whatever else it holds.
    ensures sent { (pages : List Page) → HoldsSent (capture_bits capture.now) pages →
        IfOk result (λ extracted. ReadsAmong extracted.bytes.items pages) }
    ensures few { OnOk result (length capture.now ≤ input_limit) }
    ensures explained { IfErr result (ExplainsUnextracted capture.now) }
{
    let found = receptions_in(alloc, capture)?;
    let mut bytes = preamble(alloc)?;
    // A transmission has at least one batch: here one of which nothing is read.
    let silence = Reception {
        bit: 8 * capture.len() as u64,
        polarity: Polarity::Upright,
        batches: 1,
        words: 0,
        words_in_front: 0,
    };
    put_extract(capture, silence, &mut bytes)?;
    let heard = put_extracts(alloc, capture, found.as_slice(), &mut bytes)?;
    Ok(Extracted { bytes, heard })
}

// The reception of a number, counted from 1.
fn nth_of(found: &[Reception], nth: u64) -> Option<Reception>
    ensures some { IfSome result (λ reception. (1 ≤ nth) × (slice_get found.now (nth - 1) ≡ Some reception)) }
    ensures none { IfNone result ((nth ≡ 0) ⊎ (length found.now < nth)) }
{
    match nth.checked_sub(1) {
        Some(index) => found.get(index as usize).copied(),
        None => None,
    }
}

/// Extracts one transmission from a capture, counted from 1.
pub fn extract_one(alloc: Global, capture: &[u8], nth: u64) -> Result<Extracted, CaptureFault>
    ensures extracted { IfOk result (λ extracted.
        ExtractsOne capture.now nth extracted.heard.items extracted.bytes.items) }
    ensures few { OnOk result (length capture.now ≤ input_limit) }
    ensures explained { IfErr result (ExplainsNone capture.now nth) }
{
    let found = receptions_in(alloc, capture)?;
    let Some(reception) = nth_of(found.as_slice(), nth) else {
        return Err(CaptureFault::NoSuchTransmission {
            nth,
            found: found.len() as u64,
        });
    };
    let mut bytes = preamble(alloc)?;
    let heard = put_extract(capture, reception, &mut bytes)?;
    Ok(Extracted {
        bytes,
        heard: Vec::from_slice(alloc, &[heard])?,
    })
}
