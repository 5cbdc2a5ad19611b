//! Laws of captures.
ghost use Rattle.std.specs.Prelude.{◌≡◌, ◌==◌, ℕ, All, Bool, List, filter, length, map};
ghost use Rattle.pocsag_words.specs.Kinds.{kind_of};
ghost use Rattle.pocsag_pages.specs.declared.page.Page.{Page};
ghost use Rattle.pocsag_pages.specs.Bytes.{after_preamble, unsynced, words_of};
ghost use Rattle.pocsag_pages.specs.Reading.{EndsIdle};
ghost use Rattle.pocsag_decode.specs.Faults.{ReadsAs};
ghost use Rattle.pocsag_pager.specs.Shown.{AreShown};
ghost use Rattle.pocsag_capture.specs.Bits.{capture_bits};
ghost use Rattle.pocsag_capture.specs.CapturedPages.{AreCaptured, HasCaptured};
ghost use Rattle.pocsag_capture.specs.PageEnds.{AreCutsOf, CapturedTransmission, HasTransmissions, IsCapturedTransmission, UncutStandWhole, pages_captured};
ghost use Rattle.pocsag_capture.specs.Receptions.{all_batches};
ghost use Rattle.pocsag_capture.specs.Sent.{HoldsSent, StandAmong};
ghost use Rattle.pocsag_capture.specs.declared.reception.Reception.{Reception};
ghost use Rattle.pocsag_laws.specs.ListedWhole.{AreListedWhole};

/// *A capture that holds a sent transmission shows its pages*, whole and one behind the other, whatever else it holds,
/// whatever the bit and the polarity are at which it begins, and with up to two wrong bits in each word.
pub fn captures_show_what_was_sent()
    ensures { (capture : List ℕ) (receptions : List Reception) (ps qs : List Page) →
        HoldsSent (capture_bits capture) ps → HasCaptured capture receptions qs → StandAmong ps qs }
{}

/// Of the pages of the words of a reception those of an address are what its pager shows of them; and what the bytes of a
/// transmission read as are just the pages of their words.
pub fn captured_pages_are_shown()
    ensures shown { (words : List ℕ) (a : ℕ) (ps qs : List Page) → AreCaptured words ps → AreShown words a qs →
        qs ≡ filter (λ p. p.address == a) ps }
    ensures readings { (X : List ℕ) (ps : List Page) → ReadsAs X ps → AreCaptured (words_of (after_preamble X)) ps }
{}

/// The pages that are listed of a capture with their states are those of its receptions; as many of those of a
/// transmission are cut as its count says, and each that is not cut stands whole in its words that are in step.
pub fn transmissions_are_captured()
    ensures captured { (capture : List ℕ) (cs : List CapturedTransmission) → HasTransmissions capture cs →
        HasCaptured capture (map (λ (c : CapturedTransmission). c.heard.reception) cs) (pages_captured cs) }
    ensures cut { (bits : List ℕ) (c : CapturedTransmission) → IsCapturedTransmission bits c →
        c.heard.cut ≡ length (filter (λ (is_cut : Bool). is_cut) c.cuts) }
    ensures whole { (words : List ℕ) (steady : ℕ) (ps : List Page) (cuts : List Bool) → AreCaptured words ps →
        AreCutsOf words steady cuts → UncutStandWhole (unsynced 0 words) steady ps cuts }
{}

/// *The pages of a sent transmission are listed as whole*, one behind the other, where its last codeword is idle and all batches of
/// each reception are in step: what else the capture holds says nothing of them.
pub fn captures_list_what_was_sent_as_whole()
    ensures { (capture : List ℕ) (cs : List CapturedTransmission) (ps : List Page)
        (sent : HoldsSent (capture_bits capture) ps) →
        EndsIdle (map kind_of sent.received.codewords) → HasTransmissions capture cs →
        All (λ (c : CapturedTransmission). c.heard.steady ≡ all_batches c.heard.reception) cs → AreListedWhole ps cs }
{}
