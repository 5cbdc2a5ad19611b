ghost use Rattle.std.specs.Prelude.{◌≡◌, ◌*◌, length, All};
ghost use Rattle.pocsag_words.specs.Codeword.{IsCodeword};
ghost use Rattle.pocsag_batch.specs.WordLists.{AreBatches};

use crate::word_list::WordList;
use pocsag_slots::SLOTS;
use pocsag_words::Word;
use std::marker::Model;

/// The codewords of whole batches, sixteen to a batch, at least one batch; synchronisation codewords
/// are not among them.
#[derive(Drop)]
pub struct Batches {
    words: WordList,
}

impl Model for Batches {
    ghost use Rattle.std.specs.Prelude.{ℕ, List};
    ghost use Rattle.pocsag_batch.specs.WordLists.{AreBatches};

    ghost Value = { List ℕ };

    ghost view = { λ b. b.words };

    ghost invariant = { λ b. AreBatches b.words };
}

impl Batches {
    pub(crate) fn new(words: WordList) -> Batches
        requires { AreBatches words }
        ensures { result ≡ words }
    {
        Batches { words }
    }

    /// The codewords in order.
    pub fn words(&self) -> &[Word]
        ensures same { result.now ≡ self.now }
        ensures codewords { All IsCodeword result.now }
        ensures batches { AreBatches self.now }
    {
        self.words.as_slice()
    }

    /// How many batches there are, at least one.
    pub fn count(&self) -> u32
        ensures { 16 * result ≡ length self.now }
    {
        (self.words.len() / SLOTS) as u32
    }
}
