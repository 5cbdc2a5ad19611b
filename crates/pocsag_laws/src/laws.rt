ghost use Rattle.std.specs.Prelude.{ℕ, ◌+◌, ◌<◌, ◌≤◌, ◌≡◌, List, [], ◌∷◌, ◌++◌, length, replicate, take, All, Bool, filter, Ok};
ghost use Rattle.std.specs.List.{AllZip, flat_map};
ghost use Rattle.pocsag_words.specs.Frame.{airtime, transmission_bits};
ghost use Rattle.pocsag_words.specs.Kinds.{idle_word};
ghost use Rattle.pocsag_words.specs.declared.ending.End.{End};
ghost use Rattle.pocsag_words.specs.declared.ending.End.TheVariants.{Closed, Idle, Open};
ghost use Rattle.pocsag_pages.specs.declared.page.Page.{Page};
ghost use Rattle.pocsag_pages.specs.PageFile.{Row, page_of_fields, verdict};
ghost use Rattle.pocsag_pages.specs.Pages.{IsRound};
ghost use Rattle.pocsag_pages.specs.Reading.{AreApart, IsLegalList};
ghost use Rattle.pocsag_decode.specs.PageFiles.{IsSpellable, page_file};
ghost use Rattle.pocsag_journal.specs.Runs.{IsEdit, IsRun};
ghost use Rattle.pocsag_capture.specs.Bits.{capture_bits};
ghost use Rattle.pocsag_capture.specs.CapturedPages.{AreCaptured, HasCaptured};
ghost use Rattle.pocsag_capture.specs.Receptions.{AreReceptions, HasInFront, IsQuiet, received};
ghost use Rattle.pocsag_capture.specs.declared.polarity.Polarity.{Polarity};
ghost use Rattle.pocsag_capture.specs.declared.reception.Reception.{Reception};
ghost use Rattle.pocsag_laws.specs.FewestBatches.{AreFewest, AreSendable};
ghost use Rattle.pocsag_laws.specs.OnlySent.{IsCaptureOf, IsNoise};
ghost use Rattle.pocsag_laws.specs.OpenRounds.{IsOpenRound};
ghost use Rattle.pocsag_laws.specs.Preambles.{clean_start};

/// Codewords that are legal with the idle end are legal with the closed end, and those with the open end; and with a
/// batch of idle codewords behind them, codewords that are legal with one end are legal with each. So the fewest batches
/// with the open end are at most those with the closed end, these at most those with the idle end, and these at most one
/// more than those with the open end.
pub fn stricter_ends_are_legal()
    ensures idle { (T : List ℕ) (b : ℕ) (R : List Page) → IsLegalList Idle T b R → IsLegalList Closed T b R }
    ensures closed { (T : List ℕ) (b : ℕ) (R : List Page) → IsLegalList Closed T b R → IsLegalList Open T b R }
    ensures longer { (one other : End) (T : List ℕ) (b : ℕ) (R : List Page) → IsLegalList one T b R →
        IsLegalList other (T ++ replicate 16 idle_word) (b + 1) R }
    ensures fewest { (R : List Page) (at_open at_closed at_idle : ℕ) →
        AreFewest Open R at_open → AreFewest Closed R at_closed → AreFewest Idle R at_idle →
        (at_open ≤ at_closed) × (at_closed ≤ at_idle) × (at_idle ≤ at_open + 1) }
{}

/// Pages that are sendable in some number of batches are sendable in each greater number, with the same end. Where they
/// are, it cannot be that no number is their fewest batches, and no two numbers are.
pub fn one_number_is_fewest()
    ensures more { (end : End) (R : List Page) (a b : ℕ) → a ≤ b → AreSendable end R a → AreSendable end R b }
    ensures some { (end : End) (R : List Page) (b : ℕ) → AreSendable end R b →
        ¬ ((n : ℕ) → ¬ AreFewest end R n) }
    ensures one { (end : End) (R : List Page) (a b : ℕ) → AreFewest end R a → AreFewest end R b → a ≡ b }
{}

/// Where a page is taken away, or all pages that fail a test, or all but the first ones, the others are sendable in as
/// many batches, with the same end; so their fewest batches are no more than before, and those of the first `k` pages do not
/// shrink as `k` grows.
pub fn fewer_pages_need_no_more()
    ensures one { (end : End) (before after : List Page) (p : Page) (b : ℕ) →
        AreApart (before ++ p ∷ after) → AreSendable end (before ++ p ∷ after) b →
        AreSendable end (before ++ after) b }
    ensures some { (end : End) (R : List Page) (stays : Page → Bool) (b : ℕ) →
        AreApart R → AreSendable end R b → AreSendable end (filter stays R) b }
    ensures fewest_without_one { (end : End) (before after : List Page) (p : Page) (a b : ℕ) →
        AreApart (before ++ p ∷ after) → AreFewest end (before ++ after) a →
        AreFewest end (before ++ p ∷ after) b → a ≤ b }
    ensures fewest_without_some { (end : End) (R : List Page) (stays : Page → Bool) (a b : ℕ) →
        AreApart R → AreFewest end (filter stays R) a → AreFewest end R b → a ≤ b }
    ensures first { (end : End) (R : List Page) (j k b : ℕ) →
        AreApart R → j ≤ k → AreSendable end (take k R) b → AreSendable end (take j R) b }
    ensures fewest_of_first { (end : End) (R : List Page) (j k a b : ℕ) →
        AreApart R → j ≤ k → AreFewest end (take j R) a → AreFewest end (take k R) b → a ≤ b }
{}

/// At each rate, no legal transmission of the pages for the end takes less time than one with the fewest batches; and
/// at a rate of no more than 544,000 bits a second, at which a batch lasts a millisecond or longer, each with more
/// batches takes more.
pub fn fewest_batches_take_least_time()
    ensures least { (end : End) (R : List Page) (fewest b rate : ℕ) →
        AreFewest end R fewest → AreSendable end R b →
        airtime (transmission_bits fewest) rate ≤ airtime (transmission_bits b) rate }
    ensures more { (a b rate : ℕ) → 0 < rate → rate ≤ 544000 → a < b →
        airtime (transmission_bits a) rate < airtime (transmission_bits b) rate }
{}

/// The verdict of a page file, where it is no fault, is a round; and the page file of that round has the same verdict.
pub fn verdicts_are_rounds()
    ensures round { (file : List ℕ) (R : List Page) → verdict file ≡ Ok R → IsRound R }
    ensures again { (file : List ℕ) (R : List Page) → verdict file ≡ Ok R → verdict (page_file R) ≡ Ok R }
{}

/// An edit, and so a run of edits, leaves spellable pages where those before it are spellable; so all pages of an open round
/// are. Where it has pages they are a round, whose page file, which `list` writes, has this round as its verdict.
pub fn pages_of_open_rounds_are_spellable()
    ensures edit { (row : Row) (before after : List Page) →
        IsEdit row before after → All IsSpellable before → All IsSpellable after }
    ensures run { (rows : List Row) (before after : List Page) →
        IsRun rows before after → All IsSpellable before → All IsSpellable after }
    ensures open_round { (pages : List Page) → IsOpenRound pages → All IsSpellable pages }
    ensures round { (pages : List Page) → IsOpenRound pages → 0 < length pages → IsRound pages }
    ensures again { (pages : List Page) → IsOpenRound pages → 0 < length pages →
        verdict (page_file pages) ≡ Ok pages }
{}

/// A capture has one list of receptions and of pages. Of noise alone both are empty.
pub fn captures_say_one_thing()
    ensures one { (capture : List ℕ) (rs ss : List Reception) (ps qs : List Page) →
        HasCaptured capture rs ps → HasCaptured capture ss qs → (rs ≡ ss) × (ps ≡ qs) }
    ensures noise { (capture : List ℕ) (receptions : List Reception) (ps : List Page) →
        IsNoise (capture_bits capture) 0 (length (capture_bits capture)) → HasCaptured capture receptions ps →
        (receptions ≡ []) × (ps ≡ []) }
{}

/// In the last 544 bits of a preamble of 576 bits that was received as it was sent, before a synchronisation codeword, no
/// synchronisation codeword begins, whatever stands before and after: so `captures_show_what_was_sent` holds of what follows.
/// And no words in front of that codeword are read as those of a batch.
pub fn clean_preambles_are_quiet()
    ensures front { (before rest : List ℕ) (polarity : Polarity) (held : ℕ) → held ≤ length before + 576 →
        HasInFront (before ++ (clean_start polarity ++ rest)) held polarity (length before + 576) 0 }
    ensures quiet { (before rest : List ℕ) (polarity : Polarity) →
        IsQuiet (before ++ (clean_start polarity ++ rest)) (length before + 32) (length before + 576) }
{}

/// A capture of sent transmissions and noise alone holds just these transmissions, in order: it has a reception of each
/// and no others, of which its pages are captured. So it shows their pages *and no others*, whatever the bits and the polarities
/// are at which they begin, and with up to two wrong bits in each word.
pub fn captures_of_transmissions_show_no_others()
    ensures receptions { (capture : List ℕ) (receptions : List Reception) (pss : List (List Page)) →
        IsCaptureOf (capture_bits capture) pss → AreReceptions (capture_bits capture) receptions →
        AllZip (λ r ps. AreCaptured (received (capture_bits capture) r) ps) receptions pss }
    ensures pages { (capture : List ℕ) (receptions : List Reception) (pss : List (List Page)) (qs : List Page) →
        IsCaptureOf (capture_bits capture) pss → HasCaptured capture receptions qs → qs ≡ flat_map (λ ps. ps) pss }
{}
