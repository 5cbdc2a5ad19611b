ghost use Rattle.std.specs.Prelude.{◌≡◌, ◌≤◌, ◌⊎◌, ◌==◌, ◌%◌, ℕ, List, [], ◌++◌, length, filter, All, None, IfOk, IfErr, IsSome, OnErr, OnOk, MatchResult, option_to_list};
ghost use Rattle.pocsag_words.specs.declared.ending.End.{End};
ghost use Rattle.pocsag_pages.specs.declared.page.Page.{Page};
ghost use Rattle.pocsag_pages.specs.Bytes.{after_preamble, bytes_of, words_of};
ghost use Rattle.pocsag_pages.specs.Pages.{IsRound};
ghost use Rattle.pocsag_pages.specs.Reading.{IsLegalList};
ghost use Rattle.pocsag_pager.specs.Damage.{IsDamaged};
ghost use Rattle.pocsag_pager.specs.Faults.{address_fault, bytes_fault, hearing_fault};
ghost use Rattle.pocsag_pages.specs.Listable.{IsListable};
ghost use Rattle.pocsag_pager.specs.Shown.{AreShown, ShowsSome};
ghost use Rattle.pocsag_pager.specs.States.{Hears, HasFollowed, WantsForPage, pager_address};

use crate::fault::PagerFault;
use crate::laws::{damage_is_repaired, shown_pages_are_one_list};
use crate::pager::Pager;
use pocsag_pages::{Page, preamble_len};
use pocsag_words::{BATCH_BYTES, PREAMBLE_BYTES};
use std::alloc::{AllocError, Global};

// The bytes after the preamble, which must be whole batches, at least one.
#[tactic(auto, unfolding(crate::specs::Faults::bytes_fault))]
fn whole_batches(bytes: &[u8]) -> Result<&[u8], PagerFault>
    ensures ok { IfOk result (λ rest. rest.now ≡ after_preamble bytes.now) }
    ensures whole { IfOk result (λ rest. length rest.now % 68 ≡ 0) }
    ensures fine { OnOk result (bytes_fault bytes.now ≡ None) }
    ensures err { IfErr result (λ e. bytes_fault bytes.now ≡ Some e) }
{
    let count = preamble_len(bytes);
    let (_, rest) = bytes.split_at(count);
    if count < PREAMBLE_BYTES {
        return Err(PagerFault::ShortPreamble);
    }
    if rest.is_empty() {
        return Err(PagerFault::NoBatch);
    }
    if rest.len() % BATCH_BYTES != 0 {
        return Err(PagerFault::Truncated);
    }
    Ok(rest)
}

// Keeps the page, if there is one.
#[inline(always)]
fn keep(pages: &mut Vec<Page>, page: Option<Page>) -> Result<(), AllocError>
    ensures kept { OnOk result (pages.new.items ≡ pages.old.items ++ option_to_list page) }
    ensures memory { OnErr result (IsSome page) }
{
    if let Some(page) = page {
        pages.push(page)?;
    }
    Ok(())
}

// Hears the words of these bytes, and keeps the pages that end.
fn feed_words(pager: &mut Pager, pages: &mut Vec<Page>, bytes: &[u8]) -> Result<(), PagerFault>
    ensures heard { Hears result pager.old pager.new pages.old.items pages.new.items bytes.now }
    ensures memory { WantsForPage result pager.old pages.old.items bytes.now }
{
    let (words, _) = bytes.as_chunks::<4>();
    for word in words {
        let ended = pager.hear(u32::from_be_bytes(*word))?;
        keep(pages, ended)?;
    }
    Ok(())
}

// The same, where the words are passed over unheard if they change nothing.
fn feed_part(pager: &mut Pager, pages: &mut Vec<Page>, bytes: &[u8]) -> Result<(), PagerFault>
    ensures heard { Hears result pager.old pager.new pages.old.items pages.new.items bytes.now }
    ensures memory { WantsForPage result pager.old pages.old.items bytes.now }
{
    let count = bytes.len() / 4;
    if pager.passes(count) {
        pager.skip(count);
        return Ok(());
    }
    feed_words(pager, pages, bytes)
}

// Hears a batch, unless it changes nothing, in three parts: what is before the address's frame, the frame, and what is
// after it.
#[inline(always)]
fn hear_batch(pager: &mut Pager, pages: &mut Vec<Page>, batch: &[u8]) -> Result<(), PagerFault>
    requires { length batch.now ≡ 68 }
    ensures heard { Hears result pager.old pager.new pages.old.items pages.new.items batch.now }
    ensures memory { WantsForPage result pager.old pages.old.items batch.now }
{
    if pager.cannot_open_page(batch) {
        return Ok(());
    }
    let (before, rest) = batch.split_at(4 + 8 * pager.frame());
    let (frame, after) = rest.split_at(8);
    feed_part(pager, pages, before)?;
    feed_words(pager, pages, frame)?;
    feed_part(pager, pages, after)
}

// What a pager that has heard nothing shows of the words of these whole batches.
fn hear_batches(alloc: Global, mut pager: Pager, bytes: &[u8]) -> Result<Vec<Page>, PagerFault>
    requires pager { HasFollowed pager [] }
    requires whole { length bytes.now % 68 ≡ 0 }
    ensures shown { IfOk result (λ pages. AreShown (words_of bytes.now) (pager_address pager) pages.items) }
    ensures err { IfErr result (λ e. e ≡ PagerFault.OutOfMemory) }
    ensures memory { OnErr result (ShowsSome (words_of bytes.now) (pager_address pager)) }
{
    let mut pages = Vec::new(alloc);
    for i in 0..bytes.len() / BATCH_BYTES {
        let start = BATCH_BYTES * i;
        hear_batch(&mut pager, &mut pages, &bytes[start..start + BATCH_BYTES])?;
    }
    let last = pager.end()?;
    keep(&mut pages, last)?;
    Ok(pages)
}

/// The pages that a pager of the address shows of a transmission, in order. Faults, judged in this order before any
/// word is read: `BadAddress`, `ReservedAddress`, `ShortPreamble` (fewer than 72 bytes AA stand first), `NoBatch`
/// (nothing follows them), `Truncated` (what follows them is not whole batches of 68 bytes); then `OutOfMemory`.
pub fn hear_all(alloc: Global, bytes: &[u8], address: u32) -> Result<Vec<Page>, PagerFault>
    ensures shown { IfOk result (λ pages. AreShown (words_of (after_preamble bytes.now)) address pages.items) }
    ensures ok { OnOk result (hearing_fault address bytes.now ≡ None) }
    ensures err { IfErr result (λ e. (hearing_fault address bytes.now ≡ Some e)
        ⊎ ((hearing_fault address bytes.now ≡ None) × (e ≡ PagerFault.OutOfMemory))) }
    ensures listable { IfOk result (λ pages. All IsListable pages.items) }

    // Memory is wanted only to keep a page that is shown, or its message.
    ensures memory { hearing_fault address bytes.now ≡ None →
        OnErr result (ShowsSome (words_of (after_preamble bytes.now)) address) }

    // *Damage repaired*: of a transmission that is legal for a round, with at most two wrong bits in
    // each word, the pager shows just the round's page for the address, or nothing.
    ensures repaired { (end : End) (T : List ℕ) (batches : ℕ) (R : List Page) →
        IsRound R → IsLegalList end T batches R → IsDamaged (bytes_of T) bytes.now → address_fault address ≡ None →
        MatchResult result (λ pages. pages.items ≡ filter (λ p. p.address == address) R)
        (λ e. e ≡ PagerFault.OutOfMemory) }
{
    damage_is_repaired();
    shown_pages_are_one_list();
    let pager = Pager::new(alloc, address)?;
    let batches = whole_batches(bytes)?;
    hear_batches(alloc, pager, batches)
}
