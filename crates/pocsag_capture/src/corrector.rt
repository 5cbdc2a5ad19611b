//! The words of a reception, repaired one after the other.
ghost use Rattle.std.specs.Prelude.{◌≡◌, ◌+◌, ◌*◌, ◌%◌, ◌^◌, ◌<◌, ◌≤◌, false, length, nat_le, None, Some, bit_xor, count_ones, if◌then◌else◌, IfNone, IfSome};
ghost use Rattle.pocsag_words.specs.Frame.{input_limit};
ghost use Rattle.pocsag_pages.specs.Bytes.{sync_word};
ghost use Rattle.pocsag_capture.specs.Bits.{capture_bits};
ghost use Rattle.pocsag_capture.specs.Extracted.{far_words, near_errors};
ghost use Rattle.pocsag_capture.specs.Receptions.{received_word};
ghost use Rattle.pocsag_capture.specs.TakenWords.{CountsSync, TakesWord, cut_by};

use crate::polarity::NEAR_BITS;
use crate::received_words::received_word;
use crate::reception::{BATCH, Reception};
use pocsag_words::{IDLE_WORD, Kind, SYNC_WORD, kind, repair};

// What is known of the words so far.
#[derive(Clone, Copy)]
pub(crate) struct WordCorrector {
    // Whether the next message codeword continues a page.
    pub(crate) is_open: bool,
    // How many bits were wrong.
    pub(crate) corrected: u64,
    // How many words are past repair or were not read.
    pub(crate) lost: u64,
    // How many pages that ended are cut.
    pub(crate) cut: u64,
}

// What a word is corrected to.
#[derive(Clone, Copy)]
pub(crate) struct CorrectedWord {
    // The codeword as a number: the idle codeword where none is kept.
    pub(crate) codeword: u32,
    // Where a page ends at the word, whether it is cut.
    pub(crate) ended: Option<bool>,
}

impl WordCorrector {
    // Takes the word at the place of a synchronisation codeword.
    #[inline(always)]
    pub(crate) fn take_sync(&mut self, word: u32)
        requires corrected { self.old.corrected + 32 < 2 ^ 64 }
        requires lost { self.old.lost + 1 < 2 ^ 64 }
        ensures bits { self.new.corrected ≡ self.old.corrected + near_errors (count_ones (bit_xor sync_word word)) }
        ensures open_page { self.new.is_open ≡ self.old.is_open }
        ensures lost { self.new.lost ≡ self.old.lost + far_words (count_ones (bit_xor sync_word word)) }
        ensures cut { self.new.cut ≡ self.old.cut }
    {
        let wrong = (SYNC_WORD ^ word).count_ones();
        if wrong <= NEAR_BITS {
            self.corrected += u64::from(wrong);
        } else {
            self.lost += 1;
        }
    }

    // Ends the open page, if there is one: whether it is cut.
    #[inline(always)]
    pub(crate) fn close(&mut self, is_cut: bool) -> Option<bool>
        requires cut { self.old.cut + 1 < 2 ^ 64 }
        ensures ended { result ≡ (if self.old.is_open then Some is_cut else None) }
        ensures cut { self.new ≡ record self.old { is_open = false; cut = self.old.cut + cut_by result } }
    {
        let was_open = self.is_open;
        self.is_open = false;
        if !was_open {
            return None;
        }
        if is_cut {
            self.cut += 1;
        }
        Some(is_cut)
    }

    // Takes a word at the place of a codeword, which may be out of step.
    #[inline(always)]
    pub(crate) fn take(&mut self, word: u32, is_out_of_step: bool) -> CorrectedWord
        requires corrected { self.old.corrected + 32 < 2 ^ 64 }
        requires lost { self.old.lost + 1 < 2 ^ 64 }
        requires cut { self.old.cut + 1 < 2 ^ 64 }
        ensures { TakesWord self.old self.new is_out_of_step word result.codeword result.ended }
    {
        let Some(mended) = repair(word) else {
            self.lost += 1;
            let ended = self.close(true);
            return CorrectedWord {
                codeword: IDLE_WORD,
                ended,
            };
        };
        let codeword = mended.raw();
        self.corrected += u64::from((codeword ^ word).count_ones());
        match kind(mended) {
            Kind::Idle => {
                let ended = self.close(is_out_of_step);
                CorrectedWord { codeword, ended }
            }
            Kind::Address {
                high: _,
                function: _,
            } => {
                let ended = self.close(is_out_of_step);
                self.is_open = true;
                CorrectedWord { codeword, ended }
            }
            Kind::Message(_) => {
                if !self.is_open {
                    return CorrectedWord {
                        codeword: IDLE_WORD,
                        ended: None,
                    };
                }
                CorrectedWord {
                    codeword,
                    ended: None,
                }
            }
        }
    }

    // Corrects the word of a reception at a place, where so many of its batches are in step; nothing where a synchronisation
    // codeword is due, which is only counted.
    #[inline(always)]
    pub(crate) fn correct_at(
        &mut self,
        capture: &[u8],
        reception: Reception,
        steady: u64,
        place: u64,
    ) -> Option<CorrectedWord>
        requires few { length capture.now ≤ input_limit }
        requires place { reception.bit + 32 * place < 2 ^ 61 }
        requires steady { steady < 2 ^ 59 }
        requires corrected { self.old.corrected + 32 < 2 ^ 64 }
        requires lost { self.old.lost + 1 < 2 ^ 64 }
        requires cut { self.old.cut + 1 < 2 ^ 64 }
        ensures sync { IfNone result (place % 17 ≡ 0) }
        ensures inside { IfSome result (λ _. 0 < place % 17) }
        ensures counted { IfNone result
            (CountsSync self.old self.new (received_word (capture_bits capture.now) reception place)) }
        ensures taken { IfSome result (λ c. TakesWord self.old self.new (nat_le (17 * steady) place)
            (received_word (capture_bits capture.now) reception place) c.codeword c.ended) }
    {
        let word = received_word(capture, reception, place);
        if place % BATCH == 0 {
            self.take_sync(word);
            return None;
        }
        Some(self.take(word, BATCH * steady <= place))
    }
}
