ghost use Rattle.std.specs.Prelude.{◌≡◌, ◌∷◌, [], List, All, IfOk, MatchOption};
ghost use Rattle.pocsag_pages.specs.Listable.{IsListable};
ghost use Rattle.pocsag_pages.specs.declared.page.Page.{Page};
ghost use Rattle.pocsag_decode.specs.Faults.{ReadsAs};
ghost use Rattle.pocsag_show.specs.Judged.{kinds_read};
ghost use Rattle.pocsag_show.specs.Placed.{placed_in};
ghost use Rattle.pocsag_show.specs.PageNumbers.{NumbersPages};
ghost use Rattle.pocsag_show.specs.PlacedReaders.{placed_left};

use crate::kind_reader::KindReader;
use crate::page_numbers::PageNumbers;
use crate::placed::Placed;
use pocsag_decode::{PageReader, PageSource};
use std::alloc::{AllocError, Global};

/// The pages of a transmission with their places, one after the other.
#[derive(Drop)]
pub(crate) struct PlacedReader<'a> {
    pages: PageReader<'a>,
    kinds: KindReader<'a>,
    numbers: &'a PageNumbers,
}

impl<'a> PlacedReader<'a> {
    /// The pages of a transmission whose addresses have these numbers.
    pub(crate) fn new(alloc: Global, bytes: &'a [u8], numbers: &'a PageNumbers) -> PlacedReader<'a>
        ensures left { (ps : List Page) (reading : ReadsAs bytes.now ps) → NumbersPages ps numbers.now →
            placed_left result ≡ placed_in (kinds_read reading) ps }
        ensures listable { (ps : List Page) → ReadsAs bytes.now ps →
            All (λ pl. IsListable pl.page) (placed_left result) }
    {
        PlacedReader {
            pages: PageReader::new(alloc, bytes),
            kinds: KindReader::new(bytes),
            numbers,
        }
    }

    /// The next page, or none where none is left.
    pub(crate) fn next_placed(&mut self) -> Result<Option<Placed>, AllocError>
        ensures { IfOk result (λ found. MatchOption found (placed_left self.old ≡ [])
            (λ pl. placed_left self.old ≡ pl ∷ placed_left self.new)) }
    {
        let Some(page) = self.pages.next_page()? else {
            return Ok(None);
        };
        Ok(Some(Placed {
            start: self.kinds.next_start(),
            number: self.numbers.below(page.address),
            page,
        }))
    }
}
