ghost use Rattle.std.specs.Prelude.{◌≡◌};
ghost use Rattle.pocsag_words.specs.Codeword.{IsCodeword};
ghost use Rattle.pocsag_words.specs.Kinds.{kind_of, IsInRange};

use crate::checks::DATA_UNIT;
use crate::codeword::{IDLE_WORD, Kind, MESSAGE, Word};

/// What the codeword says.
pub fn kind(word: Word) -> Kind
    ensures kind { result ≡ kind_of word }
    ensures codeword { IsCodeword word }
    ensures ranges { IsInRange result }
{
    kind_of_number(word.raw())
}

/// What the codeword of this number says. A number that is no codeword is read by its first 21 bits.
#[inline(always)]
pub fn kind_of_number(number: u32) -> Kind
    ensures kind { result ≡ kind_of number }
    ensures ranges { IsInRange result }
{
    let bits = number / DATA_UNIT;
    if number == IDLE_WORD {
        Kind::Idle
    } else if bits < MESSAGE {
        Kind::Address {
            high: bits / 4,
            function: (bits % 4) as u8,
        }
    } else {
        Kind::Message(bits - MESSAGE)
    }
}
