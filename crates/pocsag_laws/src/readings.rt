ghost use Rattle.std.specs.Fmt.{decimal};
ghost use Rattle.std.specs.Prelude.{◌≡◌, ◌↔◌, ℕ, List, All, false, ◌<◌, ◌≤◌, ◌==◌, ◌++◌, filter};
ghost use Rattle.pocsag_words.specs.declared.codeword.Kind.{Kind};
ghost use Rattle.pocsag_pages.specs.declared.page.Page.{Page};
ghost use Rattle.pocsag_pages.specs.Bytes.{after_preamble, words_of};
ghost use Rattle.pocsag_pages.specs.PageFile.{page_of_fields};
ghost use Rattle.pocsag_pages.specs.Pages.{is_reserved, last_address};
ghost use Rattle.pocsag_pages.specs.Reading.{Reads};
ghost use Rattle.pocsag_decode.specs.declared.fault.DecodeFault.{DecodeFault};
ghost use Rattle.pocsag_decode.specs.Faults.{HasFault, HasFaultThere, IsFaultless, ReadsAs};
ghost use Rattle.pocsag_decode.specs.ListedFields.{IsSpelled};
ghost use Rattle.pocsag_decode.specs.Listing.{kind_field, message_field};
ghost use Rattle.pocsag_decode.specs.Repairs.{IsRepairOf};
ghost use Rattle.pocsag_pager.specs.Shown.{AreShown};

/// A list of codewords has at most one reading, and bytes have at most one fault. One at a byte that is there stays, however
/// the bytes go on.
pub fn readings_are_one()
    ensures reading { (ws : List Kind) (i : ℕ) (ps qs : List Page) → Reads ws i ps → Reads ws i qs → ps ≡ qs }
    ensures fault { (X : List ℕ) (f g : DecodeFault) → HasFault X f → HasFault X g → f ≡ g }
    ensures stays { (X Z : List ℕ) (f : DecodeFault) → HasFaultThere X f → HasFaultThere (X ++ Z) f }
{}

/// Bytes have no fault exactly where they are sent from codewords that have a reading.
pub fn no_fault_is_a_reading()
    ensures { (X : List ℕ) → All (λ b. b < 256) X → IsFaultless X ↔ ((ps : List Page) × ReadsAs X ps) }
{}

/// What the pager of an address shows of bytes are the pages of that address, in order, among those that the repaired
/// bytes read as.
pub fn repaired_pages_are_heard()
    ensures { (X Y : List ℕ) (ps qs : List Page) (a : ℕ) → All (λ b. b < 256) X → IsRepairOf X Y → ReadsAs Y ps →
        AreShown (words_of (after_preamble X)) a qs → qs ≡ filter (λ p. p.address == a) ps }
{}

/// The three fields of a page's record in a listing spell the page, where its address may stand in a round and its
/// payload is none, that of a numeric text that ends in no space, or that of an alphanumeric text.
pub fn listed_fields_are_read_back()
    ensures { (p : Page) → p.address ≤ last_address → is_reserved p.address ≡ false → IsSpelled p.function p.payload →
        page_of_fields (decimal p.address) (kind_field p.function p.payload) (message_field p.function p.payload)
        ≡ Ok p }
{}
