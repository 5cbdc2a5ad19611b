ghost use Rattle.std.specs.Prelude.{◌≡◌, Some, IfSome};
ghost use Rattle.pocsag_words.specs.Codeword.{IsNear};
ghost use Rattle.pocsag_pages.specs.Bytes.{sync_word};
ghost use Rattle.pocsag_capture.specs.Bits.{as_sent};

use pocsag_words::SYNC_WORD;

// The bits that may be wrong in a synchronisation codeword.
pub(crate) const NEAR_BITS: u32 = 2;

const WORD_BITS: u32 = 32;

/// How the bits of a transmission were received.
#[derive(Clone, Copy, PartialEq, Eq, Debug)]
pub enum Polarity {
    /// As they were sent.
    Upright,
    /// Each as the other.
    Inverted,
}

impl Polarity {
    ghost use Rattle.std.specs.Prelude.{◌≡◌};
    ghost use Rattle.pocsag_capture.specs.Bits.{as_sent, inverts};

    // What was sent where the word was received.
    #[inline(always)]
    pub(crate) fn sent(self, word: u32) -> u32
        ensures { result ≡ as_sent self word }
    {
        match self {
            Polarity::Upright => word,
            Polarity::Inverted => !word,
        }
    }

    /// Whether each bit was received as the other.
    pub fn is_inverted(self) -> bool
        ensures { result ≡ inverts self }
    {
        match self {
            Polarity::Upright => false,
            Polarity::Inverted => true,
        }
    }
}

// The polarity in which a word differs from the synchronisation codeword in at most two bits.
#[inline(always)]
pub(crate) fn polarity_of(word: u32) -> Option<Polarity>
    ensures near { IfSome result (λ polarity. IsNear sync_word (as_sent polarity word)) }
    ensures only { (polarity : Polarity) → IsNear sync_word (as_sent polarity word) → result ≡ Some polarity }
{
    let wrong = (SYNC_WORD ^ word).count_ones();
    if wrong <= NEAR_BITS {
        return Some(Polarity::Upright);
    }
    if wrong >= WORD_BITS - NEAR_BITS {
        return Some(Polarity::Inverted);
    }
    None
}
