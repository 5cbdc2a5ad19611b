//! The rows of a capture: those of its pages that are asked for, each with its mark, one after the other.
ghost use Rattle.std.specs.Prelude.{◌≡◌, ◌+◌, ◌^◌, ◌<◌, ◌≤◌, All, List, None, Some, length, IfOk};
ghost use Rattle.pocsag_words.specs.Frame.{input_limit};
ghost use Rattle.pocsag_capture.specs.Bits.{capture_bits};
ghost use Rattle.pocsag_capture.specs.PagesLeft.{IsHandedOut};
ghost use Rattle.pocsag_capture.specs.Receptions.{behind};
ghost use Rattle.pocsag_capture.specs.declared.reception.Reception.{Reception};
ghost use Rattle.pocsag_capture.specs.declared.reception.ReceptionStats.{ReceptionStats};
ghost use Rattle.pocsag_receiver.specs.CapturedForms.{is_picked};
ghost use Rattle.pocsag_receiver.specs.Rows.{AreRowsBehind, AreRowsFrom, AreRowsLeft, AreRowsOf, CanHandOut, most_rows};
ghost use Rattle.pocsag_receiver.specs.declared.form.Row.{Row};

use crate::form::{ListForm, Row, RowSource};
use pocsag_capture::{CapturedPages, Reception, ReceptionStats};
use std::alloc::{AllocError, Global};

/// Which pages of a capture are listed, and in which form.
#[derive(Clone, Copy)]
pub struct CaptureOptions {
    /// Those of this address alone.
    pub only: Option<u32>,
    /// In this form.
    pub form: ListForm,
}

/// What is reported of a page of a capture besides the page.
#[derive(Clone, Copy)]
pub struct PageOrigin {
    /// Whether the page is cut.
    pub is_cut: bool,
    /// The number of its transmission, counted from 1.
    pub transmission: u64,
    /// Whether each bit of that was received as the other.
    pub is_inverted: bool,
    /// The bit of the capture at which it begins.
    pub bit: u64,
}

// A reception of which the pages are handed out.
#[derive(Drop)]
pub(crate) struct Begun<'a> {
    // The mark of its pages, but for whether they are cut.
    pub(crate) mark: PageOrigin,
    pub(crate) pages: CapturedPages<'a>,
}

// The rows of receptions.
#[derive(Drop)]
pub(crate) struct CaptureRows<'a> {
    pub(crate) alloc: Global,
    pub(crate) capture: &'a [u8],
    // The address of which the pages are asked for, or all.
    pub(crate) only: Option<u32>,
    pub(crate) found: &'a [Reception],
    // The place of the reception that is begun.
    pub(crate) place: usize,
    pub(crate) current: Option<Begun<'a>>,
    // How those before it were received, and room for the others.
    pub(crate) heard: Vec<ReceptionStats>,
}

// Whether the pages of an address are asked for: those of all addresses, or those of one.
fn is_picked(only: Option<u32>, address: u32) -> bool
    ensures { result ≡ is_picked only address }
{
    match only {
        Some(one) => address == one,
        None => true,
    }
}

impl<'a> CaptureRows<'a> {
    /// The rows of these receptions. After this call memory is taken only for the pages.
    #[tactic(auto, using(crate::proofs::CaptureRows::all_from))]
    pub(crate) fn new(
        alloc: Global,
        capture: &'a [u8],
        only: Option<u32>,
        found: &'a [Reception],
    ) -> Result<CaptureRows<'a>, AllocError>
        requires few { length capture.now ≤ input_limit }
        requires ends { All (λ (r : Reception). behind r < 2 ^ 60) found.now }
        ensures can { IfOk result (λ source. CanHandOut source source.current) }
        ensures all { IfOk result (λ source. (rows : List Row) (heard : List ReceptionStats) →
            AreRowsLeft source source.current rows heard →
            AreRowsOf (capture_bits capture.now) only 1 found.now rows heard) }
    {
        let mut heard = Vec::new(alloc);
        for reception in found {
            heard.push(ReceptionStats {
                reception: *reception,
                steady: 0,
                corrected: 0,
                lost: 0,
                cut: 0,
            })?;
        }
        let mut source = CaptureRows {
            alloc,
            capture,
            only,
            found,
            place: 0,
            current: None,
            heard,
        };
        source.begin();
        Ok(source)
    }

    // Begins the reception at the place, if one is there.
    #[tactic(auto, using(crate::proofs::CaptureRows::none_from))]
    fn begin(&mut self)
        requires can { CanHandOut self.old None }
        ensures can { CanHandOut self.new self.new.current }
        ensures left { (rows : List Row) (heard : List ReceptionStats) →
            AreRowsLeft self.new self.new.current rows heard → AreRowsFrom self.old self.old.place rows heard }
        ensures place { self.new.place ≡ self.old.place }
        ensures found { self.new.found.now ≡ self.old.found.now }
    {
        if self.place == self.found.len() {
            self.current = None;
            return;
        }
        let reception = self.found[self.place];
        self.current = Some(Begun {
            mark: PageOrigin {
                is_cut: true,
                transmission: self.place as u64 + 1,
                is_inverted: reception.polarity.is_inverted(),
                bit: reception.bit,
            },
            pages: CapturedPages::new(self.alloc, self.capture, reception),
        });
    }

    // Ends this reception, and begins the next.
    #[tactic(auto, using(crate::proofs::CaptureRows::ended))]
    fn end(&mut self, begun: Begun<'a>)
        requires can { CanHandOut self.old (Some begun) }
        ensures can { CanHandOut self.new self.new.current }
        ensures left { (rows : List Row) (heard : List ReceptionStats) →
            AreRowsLeft self.new self.new.current rows heard →
            (before : List Row) × AreRowsBehind self.old begun.entry before heard }
        ensures over { IsHandedOut begun.entry.pages → (rows : List Row) (heard : List ReceptionStats) →
            AreRowsLeft self.new self.new.current rows heard → AreRowsBehind self.old begun.entry rows heard }
        ensures place { self.new.place ≡ self.old.place + 1 }
        ensures found { self.new.found.now ≡ self.old.found.now }
    {
        let Begun { mark: _, pages } = begun;
        self.heard[self.place] = pages.finish();
        self.place += 1;
        self.begin();
    }

    /// How each reception was received, with the words that are left.
    pub(crate) fn finish(mut self) -> Vec<ReceptionStats>
        requires can { CanHandOut self self.current }
        ensures ends { (rows : List Row) × AreRowsLeft self.entry self.entry.current rows result.items }
    {
        while let Some(begun) = self.current.take() {
            self.end(begun);
        }
        self.heard
    }
}

impl<'a> RowSource for CaptureRows<'a> {
    ghost Told = { List ReceptionStats };

    ghost is_sound = { λ source. CanHandOut source source.current };

    ghost can_list = { λ _. Unit {0} };

    ghost leaves = { λ source. AreRowsLeft source source.current };

    ghost most = { most_rows };

    fn next_row(&mut self) -> Result<Option<Row>, AllocError> {
        while let Some(mut begun) = self.current.take() {
            let next = begun.pages.next_page();
            let Ok(found) = next else {
                self.current = Some(begun);
                return Err(AllocError);
            };
            let Some(captured) = found else {
                self.end(begun);
                continue;
            };
            let mark = PageOrigin {
                is_cut: captured.is_cut,
                ..begun.mark
            };
            self.current = Some(begun);
            if is_picked(self.only, captured.page.address) {
                return Ok(Some(Row {
                    page: captured.page,
                    mark: Some(mark),
                }));
            }
        }
        Ok(None)
    }
}
