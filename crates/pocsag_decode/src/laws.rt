ghost use Rattle.std.specs.Prelude.{◌≡◌, ℕ, ◌≤◌, List, All, None, length};
ghost use Rattle.pocsag_pages.specs.declared.page.Page.{Page};
ghost use Rattle.pocsag_pages.specs.Bytes.{Sent};
ghost use Rattle.pocsag_pages.specs.PageFile.{page_of_fields, verdict};
ghost use Rattle.pocsag_pages.specs.PageList.{unless_empty};
ghost use Rattle.pocsag_pages.specs.Pages.{AreGood, IsRound, page_fault_of, page_limit};
ghost use Rattle.pocsag_pages.specs.Queues.{queue_verdict};
ghost use Rattle.pocsag_pager.specs.Damage.{IsDamaged};
ghost use Rattle.pocsag_decode.specs.PageFiles.{IsSpellable, page_file};
ghost use Rattle.pocsag_decode.specs.Repairs.{IsRepairOf};
ghost use Rattle.pocsag_decode.specs.Faults.{IsFaultless, ReadsAs};

/// Bytes are sent from at most one list of codewords, and so read as one list of pages at most.
pub fn readings_of_bytes_are_one()
    ensures { (X : List ℕ) (ps qs : List Page) → ReadsAs X ps → ReadsAs X qs → ps ≡ qs }
{}

/// What reads as pages has no fault.
pub fn readings_have_no_fault()
    ensures { (X : List ℕ) (ps : List Page) → ReadsAs X ps → IsFaultless X }
{}

/// What was sent comes back: the repair of bytes with at most two wrong bits in each word of a transmission is that
/// transmission, and so is that of its own bytes.
pub fn recall_repair_restores()
    ensures damaged { (X T Y Z : List ℕ) → Sent X T → IsDamaged X Y → IsRepairOf Y Z → Z ≡ X }
    ensures whole { (X T Y : List ℕ) → Sent X T → IsRepairOf X Y → Y ≡ X }
{}

/// The page file of a round's pages is read as that round, where the payload of each page is none, that of a numeric
/// text with function 0, or that of an alphanumeric text with function 3. The same holds of any pages of a round, but
/// that no pages, of which the file has the header alone, give no round; and of pages of a queue, read as one.
pub fn recall_page_files_are_read_back()
    ensures round { (R : List Page) → IsRound R → All IsSpellable R → verdict (page_file R) ≡ Ok R }
    ensures pages { (ps : List Page) → AreGood ps → length ps ≤ page_limit → All IsSpellable ps →
        verdict (page_file ps) ≡ unless_empty ps }
    ensures queues { (ps : List Page) → All (λ p. page_fault_of p ≡ None) ps → length ps ≤ page_limit →
        All IsSpellable ps → queue_verdict (page_file ps) ≡ unless_empty ps }
{}

/// Each page that three fields spell is spellable, and so is each page of a page file's round or queue: this is what the law
/// `recall_page_files_are_read_back` asks of pages.
pub fn recall_pages_of_files_are_spellable()
    ensures fields { (address kind message : List ℕ) (p : Page) →
        page_of_fields address kind message ≡ Ok p → IsSpellable p }
    ensures files { (file : List ℕ) (R : List Page) → verdict file ≡ Ok R → All IsSpellable R }
    ensures queues { (file : List ℕ) (Q : List Page) → queue_verdict file ≡ Ok Q → All IsSpellable Q }
{}
