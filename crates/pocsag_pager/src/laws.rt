//! Laws of what pagers show: a call of one of them costs nothing, and gives a proof its clauses.
ghost use Rattle.std.specs.Prelude.{◌≡◌, ◌==◌, ℕ, List, All, None, filter};
ghost use Rattle.pocsag_words.specs.declared.ending.End.{End};
ghost use Rattle.pocsag_pages.specs.declared.page.Page.{Page};
ghost use Rattle.pocsag_pages.specs.Bytes.{after_preamble, bytes_of, words_of};
ghost use Rattle.pocsag_pages.specs.Pages.{IsRound};
ghost use Rattle.pocsag_pages.specs.Reading.{IsLegalList};
ghost use Rattle.pocsag_pager.specs.Damage.{IsDamaged};
ghost use Rattle.pocsag_pager.specs.Faults.{bytes_fault};
ghost use Rattle.pocsag_pages.specs.Listable.{IsListable};
ghost use Rattle.pocsag_pager.specs.Shown.{AreShown};

use pocsag_pages::{readings_are_plain, rounds_are_apart};

/// *Damage repaired*: the bytes of a legal transmission with at most two wrong bits in each word have
/// no fault, and what is shown of them for an address is just the round's page for it, or nothing.
pub fn damage_is_repaired()
    ensures whole { (end : End) (T : List ℕ) (batches : ℕ) (R : List Page) (Y : List ℕ) →
        IsLegalList end T batches R → IsDamaged (bytes_of T) Y → bytes_fault Y ≡ None }
    ensures shown { (end : End) (T : List ℕ) (batches : ℕ) (R : List Page) (Y : List ℕ) (a : ℕ) (ps : List Page) →
        IsRound R → IsLegalList end T batches R → IsDamaged (bytes_of T) Y →
        AreShown (words_of (after_preamble Y)) a ps →
        ps ≡ filter (λ p. p.address == a) R }
{
    readings_are_plain();
    rounds_are_apart();
}

/// There is at most one list of pages that is shown, and its pages may be listed.
pub fn shown_pages_are_one_list()
    ensures one { (words : List ℕ) (a : ℕ) (ps qs : List Page) → AreShown words a ps → AreShown words a qs → ps ≡ qs }
    ensures listable { (words : List ℕ) (a : ℕ) (ps : List Page) → AreShown words a ps → All IsListable ps }
{}
