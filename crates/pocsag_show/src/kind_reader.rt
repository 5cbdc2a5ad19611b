ghost use Rattle.std.specs.Prelude.{◌≡◌, ◌+◌, ◌*◌, ◌^◌, ◌<◌, ◌≤◌, length};
ghost use Rattle.pocsag_pages.specs.Reading.{frame_at};

use pocsag_pages::preamble_len;
use pocsag_words::{BATCH_CODEWORDS, Kind, kind_of_number};

/// The codewords of a transmission, one after the other.
#[derive(Drop)]
pub(crate) struct KindReader<'a> {
    // The words behind the preamble.
    words: &'a [[u8; 4]],
    /// The index of the codeword that is read next.
    pub(crate) index: usize,
    ghost within: { index ≤ length words.now },
}

/// The address of the page that begins at this index with an address codeword of these high bits.
pub(crate) fn address_at(high: u32, index: usize) -> u32
    requires { high < 2 ^ 18 }
    ensures value { result ≡ 8 * high + frame_at index }
    ensures small { result < 2 ^ 21 }
{
    8 * high + (index % BATCH_CODEWORDS / 2) as u32
}

impl<'a> KindReader<'a> {
    ghost use Rattle.std.specs.Prelude.{◌∷◌, [], IfSome, MatchOption, drop, map, slice_index};
    ghost use Rattle.pocsag_words.specs.Kinds.{IsInRange, kind_of};
    ghost use Rattle.pocsag_pages.specs.Bytes.{codewords_in};
    ghost use Rattle.pocsag_show.specs.Kinds.{addresses_ahead, kinds_ahead, starts_ahead};

    pub(crate) fn new(bytes: &'a [u8]) -> KindReader<'a>
        ensures kinds { kinds_ahead result ≡ map kind_of (codewords_in bytes.now) }
        ensures first { result.index ≡ 0 }
    {
        let (_, rest) = bytes.split_at(preamble_len(bytes));
        let (words, _) = rest.as_chunks::<4>();
        KindReader { words, index: 0 }
    }

    /// What the next codeword says, or none where none is left. A synchronisation codeword stands before each batch.
    pub(crate) fn next(&mut self) -> Option<Kind>
        ensures read { MatchOption result ((kinds_ahead self.old ≡ []) × (kinds_ahead self.new ≡ []))
            (λ kind. kinds_ahead self.old ≡ kind ∷ kinds_ahead self.new) }
        ensures index { MatchOption result (self.new.index ≡ self.old.index)
            (λ _. self.new.index ≡ self.old.index + 1) }
        ensures ranges { IfSome result IsInRange }
        ensures few { IfSome result (λ _. self.new.index < 2 ^ 62) }
    {
        let place = self.index + self.index / BATCH_CODEWORDS + 1;
        if place >= self.words.len() {
            return None;
        }
        let word = self.words[place];
        self.index += 1;
        Some(kind_of_number(u32::from_be_bytes(word)))
    }

    /// The address of the next page, or none where none is left.
    pub(crate) fn next_address(&mut self) -> Option<u32>
        ensures read { MatchOption result (addresses_ahead self.old ≡ [])
            (λ address. addresses_ahead self.old ≡ address ∷ addresses_ahead self.new) }
        ensures small { IfSome result (λ address. address < 2 ^ 21) }
    {
        while let Some(kind) = self.next() {
            if let Kind::Address { high, function: _ } = kind {
                return Some(address_at(high, self.index - 1));
            }
        }
        None
    }

    /// The index of the next address codeword, or 0 where none is left.
    pub(crate) fn next_start(&mut self) -> usize
        ensures start { result ≡ slice_index (starts_ahead self.old) 0 }
        ensures left { starts_ahead self.new ≡ drop 1 (starts_ahead self.old) }
    {
        while let Some(kind) = self.next() {
            if let Kind::Address { .. } = kind {
                return self.index - 1;
            }
        }
        0
    }
}
