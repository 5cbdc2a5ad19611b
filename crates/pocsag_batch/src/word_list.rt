ghost use Rattle.std.specs.Prelude.{◌≡◌, ◌+◌, ◌/◌, [], ◌∷◌, ◌++◌, length, map, replicate, OnOk, All};
ghost use Rattle.pocsag_words.specs.Codeword.{IsCodeword};
ghost use Rattle.pocsag_words.specs.Kinds.{kind_of};
ghost use Rattle.pocsag_words.specs.declared.codeword.Kind.TheVariants.{Idle};
ghost use Rattle.pocsag_pages.specs.Pages.{IsGoodPage};
ghost use Rattle.pocsag_pages.specs.Reading.{page_words};

use pocsag_pages::Page;
use pocsag_words::{OutOfMemory, Word, address_word, message_word};
use std::alloc::Global;
use std::marker::Model;

// The high bits of the address and the function that the idle codeword would be read as.
const IDLE_HIGH: u32 = 250_958;

/// The idle codeword.
pub(crate) fn idle_word() -> Word
    ensures { kind_of result ≡ Idle }
{
    address_word(IDLE_HIGH, 0)
}

// A growing list of codewords.
#[derive(Drop)]
pub(crate) struct WordList {
    words: Vec<Word>,
}

impl Model for WordList {
    ghost use Rattle.std.specs.Prelude.{ℕ, List, All};
    ghost use Rattle.pocsag_words.specs.Codeword.{IsCodeword};

    ghost Value = { List ℕ };

    ghost view = { λ w. w.words.items };

    ghost invariant = { λ w. All IsCodeword w.words.items };
}

impl WordList {
    pub(crate) fn new(alloc: Global) -> WordList
        ensures { result ≡ [] }
    {
        WordList {
            words: Vec::new(alloc),
        }
    }

    pub(crate) fn len(&self) -> usize
        ensures { result ≡ length self.now }
    {
        self.words.len()
    }

    pub(crate) fn as_slice(&self) -> &[Word]
        ensures same { result.now ≡ self.now }
        ensures codewords { All IsCodeword result.now }
    {
        self.words.as_slice()
    }

    pub(crate) fn push(&mut self, word: Word) -> Result<(), OutOfMemory>
        ensures more { OnOk result (self.new ≡ self.old ++ word ∷ []) }
        ensures codewords { OnOk result (All IsCodeword self.new) }
    {
        self.words.push(word)?;
        Ok(())
    }

    pub(crate) fn push_idles(&mut self, count: usize) -> Result<(), OutOfMemory>
        ensures { OnOk result (map kind_of self.new ≡ map kind_of self.old ++ replicate count Idle) }
    {
        for done in 0..count {
            self.push(idle_word())?;
        }
        Ok(())
    }

    // The address codeword of the page, and then its message codewords.
    pub(crate) fn push_page(&mut self, page: &Page) -> Result<(), OutOfMemory>
        requires { IsGoodPage page.now }
        ensures { OnOk result (map kind_of self.new ≡ map kind_of self.old ++ page_words page.now) }
    {
        self.push(address_word(page.address / 8, page.function))?;
        for item in page.payload.as_slice() {
            self.push(message_word(*item))?;
        }
        Ok(())
    }
}
