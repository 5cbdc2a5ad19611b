ghost use Rattle.std.specs.Prelude.{◌≡◌, ◌↔◌, ℕ, List, false};
ghost use Rattle.pocsag_words.specs.declared.codeword.Kind.{Kind};
ghost use Rattle.pocsag_pages.specs.declared.page.Page.{Page};
ghost use Rattle.pocsag_pages.specs.Pages.{IsRound};
ghost use Rattle.pocsag_pages.specs.Reading.{AreApart, Reads};
ghost use Rattle.pocsag_pages.specs.Plain.{HasNoOrphan, pages_from};

/// A list of codewords has a reading exactly where no message codeword is an orphan, and then it
/// reads as the pages of its address codewords in order.
pub fn readings_are_plain()
    ensures { (ws : List Kind) (i : ℕ) (ps : List Page) →
        Reads ws i ps ↔ (HasNoOrphan false ws × (ps ≡ pages_from i ws)) }
{}

/// The addresses of a round are distinct.
pub fn rounds_are_apart()
    ensures { (R : List Page) → IsRound R → AreApart R }
{}
