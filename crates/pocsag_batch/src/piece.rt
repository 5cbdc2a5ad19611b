ghost use Rattle.std.specs.Prelude.{◌≡◌, ◌+◌, ◌≤◌, [], ◌++◌, length, replicate, OnOk, OnErr};
ghost use Rattle.std.specs.Int.{to_be_bytes, w32};
ghost use Rattle.pocsag_words.specs.Codeword.{IsCodeword};
ghost use Rattle.pocsag_words.specs.Devices.{CallsPerByte, CountsFailures, TookPrefix};
ghost use Rattle.pocsag_batch.specs.SlotBytes.{slot_bytes};

use pocsag_words::{
    BATCH_BYTES, DeviceFault, PREAMBLE_BYTE, PREAMBLE_BYTES, SYNC_WORD, Sink, Word, write_all,
};
use std::marker::Model;

// The bytes of 64 batches.
const PIECE: usize = 64 * BATCH_BYTES;

// A piece of a transmission that is not written yet.
#[derive(Drop)]
pub(crate) struct Piece {
    bytes: [u8; PIECE],
    len: usize,
}

impl Model for Piece {
    ghost use Rattle.std.specs.Prelude.{ℕ, ◌≤◌, List, take};

    ghost Value = { List ℕ };

    ghost view = { λ p. take p.len p.bytes };

    ghost invariant = { λ p. p.len ≤ 4352 };
}

impl Piece {
    // The preamble.
    pub(crate) fn new() -> Piece
        ensures { result ≡ replicate 72 0xaa }
    {
        Piece {
            bytes: [PREAMBLE_BYTE; PIECE],
            len: PREAMBLE_BYTES,
        }
    }

    pub(crate) fn as_slice(&self) -> &[u8]
        ensures { result.now ≡ self.now }
    {
        &self.bytes[..self.len]
    }

    fn len(&self) -> usize
        ensures { result ≡ length self.now }
    {
        self.len
    }

    fn clear(&mut self)
        ensures { self.new ≡ [] }
    {
        self.len = 0;
    }

    fn push(&mut self, number: u32)
        requires { length self.old ≤ 4348 }
        ensures { self.new ≡ self.old ++ to_be_bytes w32 number }
    {
        let end = self.len + 4;
        self.bytes[self.len..end].copy_from_slice(&number.to_be_bytes());
        self.len = end;
    }

    // The codeword, behind the synchronisation codeword where a batch begins.
    fn push_slot(&mut self, slot: usize, word: Word)
        requires { length self.old ≤ 4344 }
        ensures same { self.new ≡ self.old ++ slot_bytes slot word }
        ensures codeword { IsCodeword word }
    {
        if slot == 0 {
            self.push(SYNC_WORD);
        }
        self.push(word.raw());
    }
}

// Writes the piece where there is no room left for a slot.
fn make_room<S: Sink>(piece: &mut Piece, sink: &mut S) -> Result<(), DeviceFault>
    ensures room { OnOk result (length piece.new ≤ 4344) }
    ensures same { S.is_known → OnOk result (S.taken sink.new ++ piece.new ≡ S.taken sink.old ++ piece.old) }
    ensures grown { S.is_known → OnOk result (length (S.taken sink.old) ≤ length (S.taken sink.new)) }
    ensures part { S.is_known → OnErr result (TookPrefix (S.taken sink.old) (S.taken sink.new) piece.old) }
    ensures calls { OnOk result (S.calls sink.new + length piece.new ≤ S.calls sink.old + length piece.old) }
    ensures tried { OnErr result (CallsPerByte (S.calls sink.old) (S.calls sink.new) piece.old) }
    ensures failures { CountsFailures result (S.failures sink.old) (S.failures sink.new) }
{
    if piece.len() > PIECE - 8 {
        write_all(sink, piece.as_slice())?;
        piece.clear();
    }
    Ok(())
}

/// Appends the codeword of a slot to the piece. A full piece is written first.
pub(crate) fn put_word<S: Sink>(
    piece: &mut Piece,
    sink: &mut S,
    slot: usize,
    word: Word,
) -> Result<(), DeviceFault>
    ensures same { S.is_known →
        OnOk result (S.taken sink.new ++ piece.new ≡ (S.taken sink.old ++ piece.old) ++ slot_bytes slot word) }
    ensures codeword { OnOk result (IsCodeword word) }
    ensures grown { S.is_known → OnOk result (length (S.taken sink.old) ≤ length (S.taken sink.new)) }
    ensures part { S.is_known → OnErr result (TookPrefix (S.taken sink.old) (S.taken sink.new) piece.old) }
    ensures calls { OnOk result
        (S.calls sink.new + length piece.new ≤ S.calls sink.old + (length piece.old + length (slot_bytes slot word))) }
    ensures tried { OnErr result (CallsPerByte (S.calls sink.old) (S.calls sink.new) piece.old) }
    ensures failures { CountsFailures result (S.failures sink.old) (S.failures sink.new) }
{
    make_room(piece, sink)?;
    piece.push_slot(slot, word);
    Ok(())
}
