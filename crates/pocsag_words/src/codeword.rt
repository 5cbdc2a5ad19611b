ghost use Rattle.std.specs.Prelude.{◌≡◌, ℕ, ◌+◌, ◌*◌, ◌/◌, ◌^◌, ◌<◌};
ghost use Rattle.std.specs.Option.{SomeIff};
ghost use Rattle.pocsag_words.specs.Codeword.{IsCodeword};
ghost use Rattle.pocsag_words.specs.Kinds.{kind_of, address_kind};

use crate::checks::{DATA_UNIT, check_bits, is_codeword};
use std::marker::Model;

/// The idle codeword, a rule of Annex 1.
pub const IDLE_WORD: u32 = 0x7A89_C197;

/// The 21 data bits of the message codeword with no message bit set.
pub(crate) const MESSAGE: u32 = 0x10_0000;

/// What a codeword says.
#[derive(Clone, Copy, PartialEq, Eq)]
pub enum Kind {
    /// The idle codeword, which stands where nothing else does.
    Idle,
    /// An address codeword: the 18 high bits of a pager's address, and the function, 0 to 3.
    Address { high: u32, function: u8 },
    /// A message codeword with its 20 message bits, the bit that is sent first the highest.
    Message(u32),
}

/// A codeword: a number of 32 bits, the bit that is sent first the highest, whose check bits and
/// parity bit are right.
#[derive(Clone, Copy, PartialEq, Eq, Debug)]
pub struct Word {
    number: u32,
}

impl Model for Word {
    ghost use Rattle.std.specs.Prelude.{ℕ};
    ghost use Rattle.pocsag_words.specs.Codeword.{IsCodeword};

    ghost Value = { ℕ };

    ghost view = { λ w. w.number };

    ghost invariant = { λ w. IsCodeword w.number };

    ghost inverse = { λ n. record { number = n } };
}

impl Word {
    ghost use Rattle.std.specs.Prelude.{◌≡◌};
    ghost use Rattle.pocsag_words.specs.Codeword.{IsCodeword};
    // The number as a codeword.
    pub(crate) fn new(number: u32) -> Word
        requires { IsCodeword number }
        ensures { result ≡ number }
    {
        Word { number }
    }

    /// The codeword as a number.
    pub fn raw(self) -> u32
        ensures same { result ≡ self }
        ensures codeword { IsCodeword result }
    {
        self.number
    }
}

/// The number as a codeword, where it is one.
pub fn from_raw(number: u32) -> Option<Word>
    ensures { SomeIff result (IsCodeword number) number }
{
    if is_codeword(number) {
        Some(Word { number })
    } else {
        None
    }
}

/// The address codeword with these 18 high bits of an address and this function. The high bits
/// 250958 with function 0 give the idle codeword.
pub fn address_word(high: u32, function: u8) -> Word
    requires high { high < 262144 }
    requires function { function < 4 }
    ensures codeword { IsCodeword result }
    ensures carries { result / 2048 ≡ 4 * high + function }

    // A codeword is known by its data.
    ensures only { (w : ℕ) → IsCodeword w → w / 2048 ≡ 4 * high + function → w ≡ result }
    ensures kind { kind_of result ≡ address_kind high function }
{
    encode(4 * high + u32::from(function))
}

/// The message codeword with these 20 message bits.
pub fn message_word(bits: u32) -> Word
    requires { bits < 1048576 }
    ensures codeword { IsCodeword result }
    ensures carries { result / 2048 ≡ 2 ^ 20 + bits }

    // A codeword is known by its data.
    ensures only { (w : ℕ) → IsCodeword w → w / 2048 ≡ 2 ^ 20 + bits → w ≡ result }
    ensures kind { kind_of result ≡ Kind.Message bits }
{
    encode(MESSAGE + bits)
}

/// The codeword with this data.
fn encode(bits: u32) -> Word
    requires { bits < 2 ^ 21 }
    ensures codeword { IsCodeword result }
    ensures carries { result / 2048 ≡ bits }
    ensures only { (w : ℕ) → IsCodeword w → w / 2048 ≡ bits → w ≡ result }
{
    Word {
        number: DATA_UNIT * bits + check_bits(bits),
    }
}
