ghost use Rattle.std.specs.Prelude.{◌≡◌, ℕ, ◌+◌, ◌^◌, ◌<◌, ◌++◌, ◌∷◌, [], None, Some, not, List, All, IsTrue, is_some, option_to_list, OnErr, OnOk, IfOk};
ghost use Rattle.pocsag_words.specs.declared.codeword.Kind.{Kind};
ghost use Rattle.pocsag_words.specs.Kinds.{IsInRange};
ghost use Rattle.pocsag_pages.specs.Listable.{IsListable};
ghost use Rattle.pocsag_pages.specs.Reading.{frame_at};
ghost use Rattle.pocsag_decode.specs.Places.{is_message, is_idle};
ghost use Rattle.pocsag_decode.specs.OpenPages.{closed, ends_open, resumed, stays_open};

use pocsag_pages::{Page, Payload};
use pocsag_words::Kind;
use std::alloc::{AllocError, Global};
use std::mem;

/// A page whose message may still grow.
#[derive(Drop)]
pub struct OpenPage {
    /// The pager's address.
    pub address: u32,
    /// The function, 0 to 3.
    pub function: u8,
    /// The items of its message so far, of 20 bits each.
    pub items: Vec<u32>,
}

impl OpenPage {
    /// Ends the open page, and returns it.
    pub fn end_page(current: &mut Option<OpenPage>) -> Option<Page>
        ensures page { option_to_list result ≡ closed current.old }
        ensures none { current.new ≡ None }
        ensures some { is_some result ≡ is_some current.old }
    {
        let Some(page) = current.take() else {
            return None;
        };
        let OpenPage {
            address,
            function,
            items,
        } = page;
        Some(Page {
            address,
            function,
            payload: Payload::from_vec(items),
        })
    }

    /// Takes one more codeword, of this frame, and returns the page that ends at it. A message codeword is skipped if no page is
    /// open.
    #[inline(always)]
    pub fn take_kind(
        alloc: Global,
        current: &mut Option<OpenPage>,
        frame: u32,
        kind: Kind,
    ) -> Result<Option<Page>, AllocError>
        requires ranges { IsInRange kind }
        requires frame { frame < 8 }
        ensures listable { All IsListable (closed current.old) → All IsListable (closed current.new) }
        ensures page { All IsListable (closed current.old) →
            IfOk result (λ page. All IsListable (option_to_list page)) }
        ensures some { IfOk result (λ page. is_some page ≡ ends_open (is_some current.old) kind) }
        ensures reads { IfOk result (λ page. (i : ℕ) (ks : List Kind) → frame ≡ frame_at i →
            resumed i current.old (kind ∷ ks) ≡ option_to_list page ++ resumed (i + 1) current.new ks) }
        ensures stays { OnOk result (is_some current.new ≡ stays_open (is_some current.old) (Some kind)) }

        // Where memory is refused, the open page is as it was.
        ensures kept { OnErr result ((i : ℕ) (ks : List Kind) → resumed i current.new ks ≡ resumed i current.old ks) }
        ensures same { OnErr result (is_some current.new ≡ is_some current.old) }

        // Memory is wanted only where a page is open.
        ensures memory { OnErr result (IsTrue (is_some current.old)) }
    {
        match kind {
            Kind::Idle => Ok(OpenPage::end_page(current)),
            Kind::Address { high, function } => {
                let page = OpenPage::end_page(current);
                *current = Some(OpenPage {
                    address: 8 * high + frame,
                    function,
                    items: Vec::new(alloc),
                });
                Ok(page)
            }
            Kind::Message(bits) => {
                if let Some(page) = current {
                    page.items.push(bits)?;
                }
                Ok(None)
            }
        }
    }
}

/// The pages of the codewords that were read.
#[derive(Drop)]
pub struct PageCollector {
    pub alloc: Global,
    /// Those that are finished.
    pub pages: Vec<Page>,
    /// The one that a message codeword would continue.
    pub current: Option<OpenPage>,
}

impl PageCollector {
    /// Takes one more codeword, of this frame.
    pub fn take(&mut self, frame: u32, kind: Kind) -> Result<(), AllocError>
        requires ranges { IsInRange kind }
        requires frame { frame < 8 }
        requires follows { IsTrue (is_message kind) → IsTrue (is_some self.old.current) }
        ensures reads { OnOk result ((i : ℕ) (ks : List Kind) → frame ≡ frame_at i →
            self.old.pages.items ++ resumed i self.old.current (kind ∷ ks)
            ≡ self.new.pages.items ++ resumed (i + 1) self.new.current ks) }
        ensures current { OnOk result (is_some self.new.current ≡ not (is_idle kind)) }

        // Memory is wanted only where a page is open.
        ensures memory { OnErr result (IsTrue (is_some self.old.current)) }
    {
        if let Some(page) = OpenPage::take_kind(self.alloc, &mut self.current, frame, kind)? {
            self.pages.push(page)?;
        }
        Ok(())
    }

    /// Finishes the open page and hands all the pages out.
    pub fn finish(&mut self) -> Result<Vec<Page>, AllocError>
        ensures same { IfOk result (λ v. v.items ≡ self.old.pages.items ++ closed self.old.current) }
        ensures memory { OnErr result (IsTrue (is_some self.old.current)) }
    {
        if let Some(page) = OpenPage::end_page(&mut self.current) {
            self.pages.push(page)?;
        }
        Ok(mem::replace(&mut self.pages, Vec::new(self.alloc)))
    }
}
