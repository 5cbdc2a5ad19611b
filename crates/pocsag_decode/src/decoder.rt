ghost use Rattle.std.specs.Prelude.{◌≡◌, ◌⊎◌, ℕ, ◌+◌, ◌%◌, ◌^◌, ◌<◌, ◌≤◌, ◌++◌, [], List, length, true, All, OnOk, OnErr, IfErr, IfOk, MatchResult};
ghost use Rattle.pocsag_pages.specs.Bytes.{after_preamble, leading};
ghost use Rattle.pocsag_decode.specs.PartialWords.{size_of};
ghost use Rattle.pocsag_decode.specs.Faults.{EndsOpen, HasFaultOfEnd, IsFaultless, ReadsAs, RefusesPiece};
ghost use Rattle.pocsag_pages.specs.Listable.{IsListable};
ghost use Rattle.pocsag_decode.specs.States.{HasStopped, HasTakenIn};

use crate::body::Body;
use crate::fault::DecodeFault;
use crate::open_page::PageCollector;
use crate::partial_word::PartialWord;
use crate::state::Decoder;
use pocsag_pages::{Page, preamble_len};
use pocsag_words::{BATCH_BYTES, PREAMBLE_BYTES};
use std::alloc::Global;

// The fewest bytes AA that a transmission begins with.
const PREAMBLE: u64 = PREAMBLE_BYTES as u64;

impl Decoder {
    /// A decoder of no bytes, which takes no memory.
    pub fn new(alloc: Global) -> Decoder
        ensures { HasTakenIn result [] }
    {
        Decoder {
            has_failed: false,
            leading: 0,
            body: Body {
                place: 0,
                partial: PartialWord::None,
                growing: PageCollector {
                    alloc,
                    pages: Vec::new(alloc),
                    current: None,
                },
            },
        }
    }

    /// Takes the next piece of the bytes, which may be empty. After a fault every call returns `Failed`.
    pub fn feed(&mut self, piece: &[u8]) -> Result<(), DecodeFault>
        // The bytes X that were fed so far and the piece have no fault at a byte that is there.
        ensures stands { (X : List ℕ) → HasTakenIn self.old X → OnOk result (HasTakenIn self.new (X ++ piece.now)) }
        ensures refused { (X : List ℕ) → HasTakenIn self.old X → IfErr result (RefusesPiece X piece.now) }

        // A decoder that has failed stays so.
        ensures over { OnErr result (HasStopped self.new) }
        ensures failed { HasStopped self.old → result ≡ Err DecodeFault.Failed }
    {
        if self.has_failed {
            return Err(DecodeFault::Failed);
        }
        match self.take(piece) {
            Ok(()) => Ok(()),
            Err(fault) => {
                self.has_failed = true;
                Err(fault)
            }
        }
    }

    /// The pages of all the bytes that were fed, or the fault of their end. Every later call returns `Failed`.
    pub fn finish(&mut self) -> Result<Vec<Page>, DecodeFault>
        ensures finished { (X : List ℕ) → HasTakenIn self.old X →
            MatchResult result (λ v. ReadsAs X v.items) (λ e. (e ≡ DecodeFault.OutOfMemory) ⊎ HasFaultOfEnd X e) }
        ensures listable { (X : List ℕ) → HasTakenIn self.old X → IfOk result (λ v. All IsListable v.items) }

        // Memory is wanted only by bytes that have no fault, to keep the page that is open at their end.
        ensures memory { (X : List ℕ) → HasTakenIn self.old X → result ≡ Err DecodeFault.OutOfMemory →
            IsFaultless X × EndsOpen X }

        // A decoder that has failed stays so.
        ensures over { HasStopped self.new }
        ensures failed { HasStopped self.old → result ≡ Err DecodeFault.Failed }
    {
        if self.has_failed {
            return Err(DecodeFault::Failed);
        }
        self.has_failed = true;
        if self.leading < PREAMBLE {
            return Err(DecodeFault::ShortPreamble);
        }
        let size = self.body.size();
        if size == 0 {
            return Err(DecodeFault::NoBatch);
        }
        if size % (BATCH_BYTES as u64) != 0 {
            return Err(DecodeFault::Truncated);
        }
        Ok(self.body.growing.finish()?)
    }

    // Counts the bytes AA with which the piece begins, where no other byte came before; gives the rest
    // of the piece.
    fn skip_preamble<'a>(&mut self, piece: &'a [u8]) -> &'a [u8]
        requires { self.old.leading + size_of self.old.body.place self.old.body.partial + length piece.now < 2 ^ 64 }
        ensures body { self.new.body ≡ self.old.body }
        ensures works { self.new.has_failed ≡ self.old.has_failed }
        ensures within { length result.now ≤ length piece.entry.now }
        ensures counted { self.new.leading + length result.now ≡ self.old.leading + length piece.entry.now }
        ensures skipped { (X : List ℕ) → self.old.leading ≡ leading X →
            size_of self.old.body.place self.old.body.partial ≡ length (after_preamble X) →
            (self.new.leading ≡ leading (X ++ piece.entry.now))
            × (after_preamble (X ++ piece.entry.now) ≡ after_preamble X ++ result.now) }
    {
        if self.body.size() > 0 {
            return piece;
        }
        let count = preamble_len(piece);
        self.leading += count as u64;
        let (_, rest) = piece.split_at(count);
        rest
    }

    fn take(&mut self, piece: &[u8]) -> Result<(), DecodeFault>
        ensures stands { (X : List ℕ) → HasTakenIn self.old X → OnOk result (HasTakenIn self.new (X ++ piece.now)) }
        ensures refused { (X : List ℕ) → HasTakenIn self.old X → IfErr result (RefusesPiece X piece.now) }
    {
        if piece.len() as u64 > u64::MAX - (self.leading + self.body.size()) {
            return Err(DecodeFault::TooMuch);
        }
        let rest = self.skip_preamble(piece);
        if rest.is_empty() {
            return Ok(());
        }
        if self.leading < PREAMBLE {
            return Err(DecodeFault::ShortPreamble);
        }
        self.body.take(rest)
    }
}
