ghost use Rattle.std.specs.Prelude.{◌≡◌, ℕ, List, ◌++◌, All, OnOk, OnErr};
ghost use Rattle.std.specs.Iterator.{Drains, IsFinite, Yields};
ghost use Rattle.pocsag_words.specs.Codeword.{IsCodeword};
ghost use Rattle.pocsag_words.specs.Devices.{CallsPerByte, CountsFailures, Delivers, TookPrefix};
ghost use Rattle.pocsag_pages.specs.Bytes.{bytes_of};
ghost use Rattle.pocsag_batch.specs.Meanings.{Say, Sends, SendsPart};

use crate::batches::Batches;
use crate::piece::{Piece, put_word};
use crate::slots::Slots;
use pocsag_slots::SLOTS;
use pocsag_words::{DeviceFault, Sink, Word, WriteFault, write_all};

// Writes the transmission of the codewords that come; what was taken where the device failed is a prefix
// of the transmission of those that had come.
fn write_words<S: Sink, I: Iterator<Item = Word>>(words: I, sink: &mut S) -> Result<(), DeviceFault>
    requires can { I.can_next words }
    requires ends { IsFinite (I.remaining words) }
    ensures whole { S.is_known → OnOk result ((ws : List ℕ) × Drains I.next_gives words ws × All IsCodeword ws ×
        (S.taken sink.new ≡ S.taken sink.old ++ bytes_of ws)) }
    ensures part { S.is_known →
        OnErr result ((ws : List ℕ) × (left : I) × Yields I.next_gives words ws left × All IsCodeword ws ×
        TookPrefix (S.taken sink.old) (S.taken sink.new) (bytes_of ws)) }

    // No call of the writer is without a byte to write.
    ensures calls { (ws : List ℕ) × (left : I) × Yields I.next_gives words ws left × All IsCodeword ws ×
        CallsPerByte (S.calls sink.old) (S.calls sink.new) (bytes_of ws) }
    ensures failures { CountsFailures result (S.failures sink.old) (S.failures sink.new) }
{
    let mut piece = Piece::new();
    let mut slot = 0;
    for word in words {
        put_word(&mut piece, sink, slot, word)?;
        slot = (slot + 1) % SLOTS;
    }
    write_all(sink, piece.as_slice())
}

/// Writes the transmission of the batches: the preamble of 72 bytes AA, and each batch behind its
/// synchronisation codeword, high byte first. After `WriteFault` a prefix of it was taken.
pub fn write<S: Sink>(batches: &Batches, sink: &mut S) -> Result<(), WriteFault>
    ensures delivers { S.is_known → Delivers result (S.taken sink.old) (S.taken sink.new) (bytes_of batches.now) }
    ensures calls { CallsPerByte (S.calls sink.old) (S.calls sink.new) (bytes_of batches.now) }
    ensures failures { CountsFailures result (S.failures sink.old) (S.failures sink.new) }
{
    match write_words(batches.words().iter().copied(), sink) {
        Ok(()) => Ok(()),
        Err(_) => Err(WriteFault),
    }
}

/// Writes the transmission of the codewords as `write` does, and builds no batches. After `WriteFault` a
/// prefix of it was taken.
pub fn write_slots<S: Sink>(slots: Slots<'_>, sink: &mut S) -> Result<(), WriteFault>
    ensures whole { S.is_known → OnOk result (Sends slots.entry (S.taken sink.old) (S.taken sink.new)) }
    ensures part { S.is_known → OnErr result (SendsPart slots.entry (S.taken sink.old) (S.taken sink.new)) }
    ensures calls { (words : List ℕ) × Say slots.entry words
        × CallsPerByte (S.calls sink.old) (S.calls sink.new) (bytes_of words) }
    ensures failures { CountsFailures result (S.failures sink.old) (S.failures sink.new) }
{
    slots.recall_sayable();
    match write_words(slots, sink) {
        Ok(()) => Ok(()),
        Err(_) => Err(WriteFault),
    }
}
