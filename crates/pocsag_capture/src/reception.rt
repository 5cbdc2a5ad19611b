ghost use Rattle.std.specs.Prelude.{◌≡◌, ◌^◌, ◌<◌};
ghost use Rattle.pocsag_capture.specs.Receptions.{all_batches, batches_in_front};

use crate::polarity::Polarity;
use pocsag_words::BATCH_WORDS;

// The words of a batch, its synchronisation codeword among them.
pub(crate) const BATCH: u64 = BATCH_WORDS as u64;

/// Synchronisation codewords in step, from the first to the last.
#[derive(Clone, Copy, PartialEq, Eq, Debug)]
pub struct Run {
    /// The bit at which the first of them begins, the capture's first bit being 0.
    pub bit: u64,
    pub polarity: Polarity,
    /// How many batches begin from the first of them to the last.
    pub batches: u64,
}

/// A transmission in a capture.
#[derive(Clone, Copy, PartialEq, Eq, Debug)]
pub struct Reception {
    /// The bit at which its first synchronisation codeword begins, the capture's first bit being 0.
    pub bit: u64,
    pub polarity: Polarity,
    /// How many batches begin from that codeword on.
    pub batches: u64,
    /// How many of their words are read.
    pub words: u64,
    /// How many words are read of the batch in front of that codeword, its last; 0 where there is none.
    pub words_in_front: u64,
}

impl Reception {
    // How many batches are in front of its first synchronisation codeword.
    #[inline(always)]
    pub(crate) fn batches_in_front(self) -> u64
        ensures { result ≡ batches_in_front self }
    {
        if self.words_in_front == 0 { 0 } else { 1 }
    }

    // How many batches it has in all.
    #[inline(always)]
    pub(crate) fn all_batches(self) -> u64
        requires { self.batches < 2 ^ 60 }
        ensures { result ≡ all_batches self }
    {
        self.batches_in_front() + self.batches
    }
}

/// A transmission in a capture, and how well it was received.
#[derive(Clone, Copy, PartialEq, Eq, Debug)]
pub struct ReceptionStats {
    pub reception: Reception,
    /// How many of its batches are in step: all, or all but the last, where another synchronisation codeword, in either
    /// polarity, begins inside the last one or at most 31 bits behind it, or a bit was lost or doubled in it.
    pub steady: u64,
    /// How many bits were wrong, in synchronisation codewords and in those that were repaired.
    pub corrected: u64,
    /// How many words are past repair or were not read.
    pub lost: u64,
    /// How many pages are cut: a word that is lost, one that is out of step, or the end stands directly behind what is shown of
    /// them.
    pub cut: u64,
}
