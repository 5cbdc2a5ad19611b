ghost use Rattle.std.specs.Prelude.{◌≡◌, ◌+◌, ◌<◌, ◌≤◌, drop, length, take};
ghost use Rattle.std.specs.Int.{from_be_bytes, w32};

use crate::fault::PagerFault;
use crate::turn::{Change, calls, change_at, heard_as, opens};
use pocsag_pages::{LAST_ADDRESS, Page, is_reserved_address};
use pocsag_words::{BATCH_WORDS, numbers_are_repaired};
use std::alloc::Global;
use std::mem;

// Where a pager is.
#[derive(Drop)]
pub(crate) enum State {
    // It hears, and this page is open.
    Listening(Option<Page>),
    // It has run out of memory or has been ended.
    Failed,
}

// The word of the four bytes from an index on.
fn word_from(bytes: &[u8], at: usize) -> u32
    requires { at + 4 ≤ length bytes.now }
    ensures { result ≡ from_be_bytes w32 (take 4 (drop at bytes.now)) }
{
    u32::from_be_bytes([bytes[at], bytes[at + 1], bytes[at + 2], bytes[at + 3]])
}

/// A pager of one address. It is given all words after a preamble in order, synchronisation words
/// included, and returns each page of its address at the word that ends it.
#[derive(Drop)]
pub struct Pager {
    alloc: Global,
    address: u32,
    // The number of words so far, modulo 17: the place of the next one within its batch.
    place: u32,
    state: State,
    ghost turns: { place < 17 },
}

impl Pager {
    ghost use Rattle.std.specs.Prelude.{◌≡◌, ◌⊎◌, ℕ, ◌^◌, ◌%◌, List, [], ◌∷◌, ◌++◌, length, All, None, IfOk, IfErr, OnOk, OnErr, IsOk, option_to_list};
    ghost use Rattle.std.specs.Bool.{OnTrue};
    ghost use Rattle.pocsag_pages.specs.declared.page.Page.{Page};
    ghost use Rattle.pocsag_pages.specs.Bytes.{words_of};
    ghost use Rattle.pocsag_pager.specs.Faults.{address_fault};
    ghost use Rattle.pocsag_pager.specs.Shown.{AreShown};
    ghost use Rattle.pocsag_pager.specs.States.{Continues, HasHeard, HaveEnded, IsElsewhere, IsOver, HasFollowed, pager_address};

    /// A pager that has heard nothing yet, which takes no memory. It refuses an address above
    /// 2,097,151 (`BadAddress`) and then a reserved one (`ReservedAddress`).
    #[tactic(auto, unfolding(crate::specs::Faults::address_fault))]
    pub fn new(alloc: Global, address: u32) -> Result<Pager, PagerFault>
        ensures stands { IfOk result (λ p. HasFollowed p []) }
        ensures address { IfOk result (λ p. pager_address p ≡ address) }
        ensures ok { OnOk result (address_fault address ≡ None) }
        ensures err { IfErr result (λ e. address_fault address ≡ Some e) }
    {
        if address > LAST_ADDRESS {
            return Err(PagerFault::BadAddress);
        }
        if is_reserved_address(address) {
            return Err(PagerFault::ReservedAddress);
        }
        Ok(Pager {
            alloc,
            address,
            place: 0,
            state: State::Listening(None),
        })
    }

    /// Hears the next word. Every seventeenth word, the first among them, is passed over as a synchronisation word,
    /// whatever it holds; any other is repaired. Returns the page that this word ends. After `OutOfMemory` and after
    /// `end` the pager returns `Failed`.
    pub fn hear(&mut self, word: u32) -> Result<Option<Page>, PagerFault>
        ensures stands { (words : List ℕ) → HasFollowed self.old words →
            OnOk result (HasFollowed self.new (words ++ word ∷ [])) }

        // Where these are the pages of *Shown* that had ended, with the answer they are those that
        // have ended now.
        ensures ended { (words : List ℕ) (ps : List Page) → HasFollowed self.old words →
            HaveEnded words (pager_address self.old) ps →
            IfOk result (λ page. HaveEnded (words ++ word ∷ []) (pager_address self.old) (ps ++ option_to_list page)) }
        ensures address { pager_address self.new ≡ pager_address self.old }
        ensures failed { IsOver self.old → result ≡ Err PagerFault.Failed }
        ensures err { IfErr result (λ e. (e ≡ PagerFault.OutOfMemory) ⊎ IsOver self.old) }

        // Memory is wanted only by a message codeword that continues a page.
        ensures memory { (words : List ℕ) → HasFollowed self.old words → result ≡ Err PagerFault.OutOfMemory →
            Continues words (pager_address self.old) word }
        ensures over { OnErr result (IsOver self.new) }
    {
        let place = self.place;
        self.place = (place + 1) % BATCH_WORDS;
        let heard = heard_as(word);
        if self.is_between_pages() && place > 0 && !opens(self.address, place - 1, heard) {
            return Ok(None);
        }
        let State::Listening(kept) = mem::replace(&mut self.state, State::Failed) else {
            return Err(PagerFault::Failed);
        };
        if place == 0 {
            self.state = State::Listening(kept);
            return Ok(None);
        }
        let Change { kept, ended } = change_at(self.alloc, self.address, place - 1, kept, heard)?;
        self.state = State::Listening(kept);
        Ok(ended)
    }

    /// The page that is still open, which takes no memory. From then on the pager returns `Failed`.
    pub fn end(&mut self) -> Result<Option<Page>, PagerFault>
        ensures shown { (words : List ℕ) (ps : List Page) → HasFollowed self.old words →
            HaveEnded words (pager_address self.old) ps →
            IfOk result (λ page. AreShown words (pager_address self.old) (ps ++ option_to_list page)) }
        ensures ok { (words : List ℕ) → HasFollowed self.old words → IsOk result }
        ensures failed { IsOver self.old → result ≡ Err PagerFault.Failed }
        ensures err { IfErr result (λ e. (e ≡ PagerFault.Failed) × IsOver self.old) }
        ensures over { IsOver self.new }
        ensures address { pager_address self.new ≡ pager_address self.old }
    {
        match mem::replace(&mut self.state, State::Failed) {
            State::Listening(kept) => Ok(kept),
            State::Failed => Err(PagerFault::Failed),
        }
    }

    // The frame of the address.
    pub(crate) fn frame(&self) -> usize
        ensures { result ≡ pager_address self.now % 8 }
    {
        self.address as usize % 8
    }

    // Whether no page is open.
    fn is_between_pages(&self) -> bool
        ensures { OnTrue result (self.now.state ≡ State.Listening None) }
    {
        matches!(self.state, State::Listening(None))
    }

    // Whether the next words, so many, change nothing: no page is open, and no codeword of the
    // address can stand among them.
    pub(crate) fn passes(&self, count: usize) -> bool
        ensures open_page { OnTrue result (self.now.state ≡ State.Listening None) }
        ensures places { OnTrue result (IsElsewhere (pager_address self.now) self.now.place count) }
    {
        if !self.is_between_pages() {
            return false;
        }
        let first = self.place as usize;
        let frame = 1 + 2 * self.frame();
        let words = BATCH_WORDS as usize;
        if count > words {
            return false;
        }
        if first + count <= frame {
            return true;
        }
        frame + 2 <= first && first + count <= words
    }

    // Whether the words of the next batch change nothing: no page is open, and neither word of the address's frame is
    // its address codeword once it is mended.
    pub(crate) fn cannot_open_page(&self, batch: &[u8]) -> bool
        requires { length batch.now ≡ 68 }
        ensures { OnTrue result ((words : List ℕ) (ps : List Page) → HasHeard self.now words ps →
            HasHeard self.now (words ++ words_of batch.now) ps) }
    {
        numbers_are_repaired();
        let at = 4 + 8 * self.frame();
        if self.place > 0 {
            return false;
        }
        if !self.is_between_pages() {
            return false;
        }
        if calls(self.address, word_from(batch, at)) {
            return false;
        }
        !calls(self.address, word_from(batch, at + 4))
    }

    // Passes over the next words, so many, unheard.
    pub(crate) fn skip(&mut self, count: usize)
        requires open_page { self.old.state ≡ State.Listening None }
        requires places { IsElsewhere (pager_address self.old) self.old.place count }
        ensures heard { (words more : List ℕ) (ps : List Page) → HasHeard self.old words ps →
            All (λ w. w < 2 ^ 32) more → length more ≡ count → HasHeard self.new (words ++ more) ps }
        ensures address { pager_address self.new ≡ pager_address self.old }
    {
        numbers_are_repaired();
        self.place = (self.place + count as u32) % BATCH_WORDS;
    }
}
