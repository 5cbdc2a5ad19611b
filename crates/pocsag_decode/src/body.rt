ghost use Rattle.std.specs.Prelude.{◌≡◌, ◌≢◌, ◌↔◌, ℕ, ◌+◌, ◌*◌, ◌%◌, ◌^◌, ◌<◌, ◌≤◌, ◌∷◌, ◌++◌, [], length, is_some, IsTrue, IfOk, OnErr};
ghost use Rattle.std.specs.Int.{from_be_bytes, w32};
ghost use Rattle.pocsag_decode.specs.PartialWords.{partial_bytes, size_of};
ghost use Rattle.pocsag_decode.specs.States.{HoldsOf};
ghost use Rattle.pocsag_decode.specs.Intake.{CountsBytes, CountsWord, ReadsWord, RefusesBytes, RefusesWord, TakesIn};

use crate::fault::DecodeFault;
use crate::judge::{BATCH, judge_word};
use crate::open_page::PageCollector;
use crate::partial_word::PartialWord;
use pocsag_pages::Page;
use pocsag_words::kind_of_number;
use std::alloc::{AllocError, Global};

// What was read after the preamble.
#[derive(Drop)]
pub(crate) struct Body {
    // How many whole words were read.
    pub(crate) place: u64,
    pub(crate) partial: PartialWord,
    pub(crate) growing: PageCollector,
}

impl Body {
    // How many bytes were read.
    pub(crate) fn size(&self) -> u64
        requires { size_of self.now.place self.now.partial < 2 ^ 64 }
        ensures { result ≡ size_of self.now.place self.now.partial }
    {
        let partial_bytes = match self.partial {
            PartialWord::None => 0,
            PartialWord::One(_) => 1,
            PartialWord::Two(_, _) => 2,
            PartialWord::Three(_, _, _) => 3,
        };
        4 * self.place + partial_bytes
    }

    // Takes the next whole word.
    #[inline(always)]
    fn take_word(&mut self, word: u32) -> Result<(), DecodeFault>
        requires { self.old.place < 2 ^ 62 }
        ensures partial { self.new.partial ≡ self.old.partial }
        ensures count { CountsWord result self.old self.new }
        ensures read { ReadsWord result self.old self.new word }
        ensures bad { RefusesWord result self.old word }
    {
        judge_word(self.place, self.growing.current.is_some(), word)?;
        if self.place % BATCH > 0 {
            let frame = (self.place % BATCH - 1) as u32 / 2;
            self.growing.take(frame, kind_of_number(word))?;
        }
        self.place += 1;
        Ok(())
    }

    fn take_byte(&mut self, byte: u8) -> Result<(), DecodeFault>
        requires { size_of self.old.place self.old.partial + 1 < 2 ^ 64 }
        ensures count { CountsBytes result self.old self.new 1 }
        ensures stands { TakesIn result self.old self.new (byte ∷ []) }
        ensures bad { RefusesBytes result self.old (byte ∷ []) }
    {
        match self.partial {
            PartialWord::None => {
                self.partial = PartialWord::One(byte);
                Ok(())
            }
            PartialWord::One(a) => {
                self.partial = PartialWord::Two(a, byte);
                Ok(())
            }
            PartialWord::Two(a, b) => {
                self.partial = PartialWord::Three(a, b, byte);
                Ok(())
            }
            PartialWord::Three(a, b, c) => {
                self.partial = PartialWord::None;
                self.take_word(u32::from_be_bytes([a, b, c, byte]))
            }
        }
    }

    // Takes the next bytes after the preamble: whole words at once where no word is begun.
    pub(crate) fn take(&mut self, bytes: &[u8]) -> Result<(), DecodeFault>
        requires { size_of self.old.place self.old.partial + length bytes.now < 2 ^ 64 }
        ensures count { CountsBytes result self.old self.new (length bytes.now) }
        ensures stands { TakesIn result self.old self.new bytes.now }
        ensures bad { RefusesBytes result self.old bytes.now }
    {
        let mut rest = bytes;
        while let [byte, tail @ ..] = rest {
            if let (PartialWord::None, [a, b, c, d, others @ ..]) = (self.partial, rest) {
                self.take_word(u32::from_be_bytes([*a, *b, *c, *d]))?;
                rest = others;
            } else {
                self.take_byte(*byte)?;
                rest = tail;
            }
        }
        Ok(())
    }
}
