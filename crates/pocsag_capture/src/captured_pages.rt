//! The pages of a reception, each with its state, one after the other as they end.
ghost use Rattle.std.specs.Prelude.{◌≡◌, ◌+◌, ◌*◌, ◌^◌, ◌<◌, ◌≤◌, [], None, Some, All, length, is_some, option_to_list, IfNone, IfOk, IfSome, OnOk};
ghost use Rattle.pocsag_words.specs.Frame.{input_limit};
ghost use Rattle.pocsag_pages.specs.Listable.{IsListable};
ghost use Rattle.pocsag_pages.specs.declared.page.Page.{Page};
ghost use Rattle.pocsag_capture.specs.Bits.{capture_bits};
ghost use Rattle.pocsag_capture.specs.PagesLeft.{AreLeft, CanRead, EndsReceived, HandsOut, IsHandedOut, ReadsReception, handed_cuts, handed_pages, most_left};
ghost use Rattle.pocsag_capture.specs.Receptions.{all_batches, behind};

use crate::corrector::WordCorrector;
use crate::reception::{BATCH, Reception, ReceptionStats};
use crate::search::steady_batches;
use pocsag_decode::OpenPage;
use pocsag_pages::Page;
use pocsag_words::kind_of_number;
use std::alloc::{AllocError, Global};

/// A page of a reception.
#[derive(Drop)]
pub struct CapturedPage {
    pub page: Page,
    /// Whether it is cut.
    pub is_cut: bool,
}

/// Reads the pages of a reception: each word is repaired, and a word that is lost ends the open page. No more than one page is
/// held.
#[derive(Drop)]
pub struct CapturedPages<'a> {
    alloc: Global,
    capture: &'a [u8],
    reception: Reception,
    // How many of its batches are in step.
    steady: u64,
    // The place of the word that is taken next.
    place: u64,
    corrector: WordCorrector,
    // The page that a message codeword would continue.
    current: Option<OpenPage>,
}

// A page with its state, where there is one.
fn with_state(page: Option<Page>, is_cut: Option<bool>) -> Option<CapturedPage>
    requires { is_some page ≡ is_some is_cut }
    ensures pages { option_to_list page ≡ handed_pages result }
    ensures cuts { option_to_list is_cut ≡ handed_cuts result }
{
    match (page, is_cut) {
        (Some(page), Some(is_cut)) => Some(CapturedPage { page, is_cut }),
        _ => None,
    }
}

impl<'a> CapturedPages<'a> {
    /// A reader of the pages of a reception that has read none of them.
    pub fn new(alloc: Global, capture: &'a [u8], reception: Reception) -> CapturedPages<'a>
        requires few { length capture.now ≤ input_limit }
        requires end { behind reception < 2 ^ 60 }
        ensures can { CanRead result }
        ensures captured { ReadsReception (capture_bits capture.now) reception result }
    {
        CapturedPages {
            alloc,
            capture,
            reception,
            steady: steady_batches(capture, reception),
            place: 0,
            corrector: WordCorrector {
                is_open: false,
                corrected: 0,
                lost: 0,
                cut: 0,
            },
            current: None,
        }
    }

    // Takes the next word: the page that ends at it. Where memory is refused, the word is left.
    #[inline(always)]
    fn take_word(&mut self) -> Result<Option<CapturedPage>, AllocError>
        requires can { CanRead self.old }
        requires some { self.old.place < 17 * all_batches self.old.reception }
        ensures can { CanRead self.new }
        ensures handed { HandsOut self.old self.new result }
        ensures listable { IfOk result (λ page. All IsListable (handed_pages page)) }
        ensures place { OnOk result (self.new.place ≡ self.old.place + 1) }
        ensures reception { self.new.reception ≡ self.old.reception }
        ensures fewer { OnOk result (most_left self.new < most_left self.old) }
    {
        let mut corrector = self.corrector;
        let place = self.place;
        let Some(corrected_word) = corrector.correct_at(
            self.capture,
            self.reception,
            self.steady,
            place,
        ) else {
            self.corrector = corrector;
            self.place = place + 1;
            return Ok(None);
        };
        let frame = (place % BATCH - 1) as u32 / 2;
        let kind = kind_of_number(corrected_word.codeword);
        let page = OpenPage::take_kind(self.alloc, &mut self.current, frame, kind)?;
        self.corrector = corrector;
        self.place = place + 1;
        Ok(with_state(page, corrected_word.ended))
    }

    /// The next page, or none after the last. If memory is refused, the remaining pages are the same as before.
    pub fn next_page(&mut self) -> Result<Option<CapturedPage>, AllocError>
        requires can { CanRead self.old }
        ensures can { CanRead self.new }
        ensures handed { HandsOut self.old self.new result }
        ensures listable { IfOk result (λ page. All IsListable (handed_pages page)) }
        ensures fewer { IfOk result (λ page. IfSome page (λ _. most_left self.new < most_left self.old)) }
        ensures over { IfOk result (λ page. IfNone page (IsHandedOut self.new)) }
    {
        while self.place < BATCH * self.reception.all_batches() {
            if let Some(page) = self.take_word()? {
                return Ok(Some(page));
            }
        }
        // A page that is open behind the last word is cut.
        let is_cut = self.corrector.close(true);
        Ok(with_state(OpenPage::end_page(&mut self.current), is_cut))
    }

    /// How the reception was received, with the words that are left.
    pub fn finish(self) -> ReceptionStats
        requires can { CanRead self }
        ensures ends { EndsReceived self.entry result }
        ensures over { IsHandedOut self.entry → AreLeft self.entry [] [] result }
    {
        let mut corrector = self.corrector;
        for place in self.place..BATCH * self.reception.all_batches() {
            corrector.correct_at(self.capture, self.reception, self.steady, place);
        }
        corrector.close(true);
        ReceptionStats {
            reception: self.reception,
            steady: self.steady,
            corrected: corrector.corrected,
            lost: corrector.lost,
            cut: corrector.cut,
        }
    }
}
