ghost use Rattle.std.specs.Prelude.{◌≡◌, ◌+◌, ◌%◌, ◌<◌, IfOk, map};
ghost use Rattle.pocsag_words.specs.Kinds.{kind_of};
ghost use Rattle.pocsag_pages.specs.Bytes.{codewords_in};
ghost use Rattle.pocsag_show.specs.Letters.{letters_with};
ghost use Rattle.pocsag_show.specs.PageNumbers.{number_below};

use crate::kind_reader::{KindReader, address_at};
use crate::page_numbers::PageNumbers;
use pocsag_words::Kind;
use std::alloc::{AllocError, Global};

/// How many letters the pages have in turn.
pub(crate) const LETTERS: usize = 26;

/// The letter of a page with this number, where A or a is the first.
pub(crate) fn letter_of(first: u8, number: usize) -> u8
    requires { first < 128 }
    ensures { result ≡ first + number % 26 }
{
    first + (number % LETTERS) as u8
}

/// The letters of the codewords of a transmission, of which there are so many, by the numbers of addresses.
pub(crate) fn letters_of(
    alloc: Global,
    bytes: &[u8],
    numbers: &PageNumbers,
) -> Result<Vec<u8>, AllocError>
    ensures { IfOk result (λ v. v.items ≡
        letters_with (number_below numbers.now) 0 0 (map kind_of (codewords_in bytes.now))) }
{
    let mut kinds = KindReader::new(bytes);
    let mut letters = Vec::with_capacity(alloc, bytes.len() / 4)?;
    let mut last = 0;
    while let Some(kind) = kinds.next() {
        let letter = match kind {
            Kind::Idle => b'.',
            Kind::Address { high, function: _ } => {
                last = numbers.below(address_at(high, kinds.index - 1));
                letter_of(b'A', last)
            }
            Kind::Message(_) => letter_of(b'a', last),
        };
        letters.push(letter)?;
    }
    Ok(letters)
}
