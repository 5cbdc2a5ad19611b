ghost use Rattle.std.specs.List.{AllByRecursion};
ghost use Rattle.std.specs.Prelude.{List, [], length, ℕ, ◌++◌, ◌∷◌, ◌≡◌, ◌≢◌, ◌≤◌, ◌⊎◌};
ghost use Rattle.csv.specs.Writing.{default_writer, row_text};
ghost use Rattle.pocsag_pages.specs.declared.page.Page.{Page};
ghost use Rattle.pocsag_pages.specs.PageFile.{Row};
ghost use Rattle.pocsag_plan.specs.declared.search.OnLimit.{OnLimit};
ghost use Rattle.pocsag_journal.specs.declared.refusal.Refusal.{Refusal};
ghost use Rattle.pocsag_journal.specs.Growth.{kept_line_limit};
ghost use Rattle.pocsag_journal.specs.Journals.{IsBadLine, IsBegun, IsLine, IsRead, ReadsFirst, journal_text};
ghost use Rattle.pocsag_journal.specs.Runs.{IsEdit, IsRun};
ghost use Rattle.pocsag_open.specs.Plans.{HasFailedOutput, PlacementResult};
ghost use Rattle.pocsag_open.specs.Replies.{IsSession};
ghost use Rattle.pocsag_laws.specs.Reopened.{NamesNoMemory};
ghost use Rattle.pocsag_journal.specs.Faults.{HasNoLine};
ghost use Rattle.pocsag_pages.specs.RecordTexts.{IsRowText};
ghost use Rattle.pocsag_journal.specs.LineTexts.{HasNoLineFeed, IsUnread};
ghost use Rattle.pocsag_journal.specs.PageLines.{HaveLines};

use pocsag_journal::{Refusal, UndoneFault};
use pocsag_open::OutputStore;

/// Bytes read as one list of records at most, with one torn end, and only where they begin with the first line or are a part of
/// it; and where the records are a run, no line is bad.
pub fn journals_read_as_one()
    ensures one { (bytes : List ℕ) (rows others : List Row) (torn rest : List ℕ) →
        IsRead bytes rows torn → IsRead bytes others rest → (others ≡ rows) × (rest ≡ torn) }
    ensures begun { (bytes : List ℕ) (rows : List Row) (torn : List ℕ) → IsRead bytes rows torn → IsBegun bytes }
    ensures good { (bytes : List ℕ) (rows : List Row) (torn : List ℕ) (pages : List Page) (line : ℕ) →
        IsRead bytes rows torn → IsRun rows [] pages → ¬ IsBadLine bytes line }
    ensures list { (rows : List Row) (before after other : List Page) →
        IsRun rows before after → IsRun rows before other → after ≡ other }
{}

/// Whatever a crash leaves of a journal's text: any prefix of it reads as the first of its records. Where it has the
/// text of some of them whole, and part of that of one more, it reads as these, or as these and the one.
pub fn a_prefix_is_read()
    ensures firsts { (rows : List Row) → AllByRecursion IsLine rows → (bytes rest : List ℕ) →
        bytes ++ rest ≡ journal_text rows → ReadsFirst bytes rows }
    ensures acknowledged { (kept rows : List Row) (part torn : List ℕ) → AllByRecursion IsLine kept →
        IsRead (journal_text kept ++ part) rows torn → (more : List Row) × (rows ≡ kept ++ more) }
    ensures one_more { (kept rows : List Row) (row : Row) (part rest torn : List ℕ) →
        AllByRecursion IsLine kept → IsLine row → part ++ rest ≡ row_text default_writer row →
        IsRead (journal_text kept ++ part) rows torn → (rows ≡ kept) ⊎ (rows ≡ kept ++ row ∷ []) }
{}

/// A line of a journal, the text of an edit that some pages accept, has at most 8,192 bytes with its line feed.
pub fn lines_are_short()
    ensures { (row : Row) (before after : List Page) →
        IsEdit row before after → length (row_text default_writer row) ≤ kept_line_limit }
{}

/// A record that is read from a text without a line feed is one line, and an edit by one line leaves pages that have lines
/// where those before it have lines. So have the pages of a journal, and all pages to which further edits by lines lead from
/// these; of pages that have lines none is without a line.
pub fn pages_of_lines_have_lines()
    ensures read { (row : Row) (text : List ℕ) → IsRowText row text → HasNoLineFeed text → IsLine row }
    ensures edit { (row : Row) (before after : List Page) →
        IsLine row → IsEdit row before after → HaveLines before → HaveLines after }
    ensures run { (rows : List Row) (before after : List Page) →
        AllByRecursion IsLine rows → IsRun rows before after → HaveLines before → HaveLines after }
    ensures journal { (bytes : List ℕ) (rows : List Row) (torn : List ℕ) (pages : List Page) →
        IsRead bytes rows torn → IsRun rows [] pages → HaveLines pages }
    ensures each { (pages : List Page) (number : ℕ) → HaveLines pages → ¬ HasNoLine pages number }
{}

/// There is at most one reason why a text is no record, refused memory aside.
#[tactic(auto, using(crate::proofs::Reasons::one_reason))]
pub fn texts_have_one_reason()
    ensures { (text : List ℕ) (why other : Refusal) → IsUnread text why → IsUnread text other →
        why ≢ Refusal.Undone UndoneFault.OutOfMemory → other ≢ Refusal.Undone UndoneFault.OutOfMemory → why ≡ other }
{}

/// `open` over the text of a journal: the session leaves the pages of the journal, unless it printed that memory was
/// refused.
pub fn a_journal_opens_as_its_pages<P: OutputStore>()
    ensures { (on_limit : OnLimit) (rows : List Row) (pages after : List Page) (told : List ℕ)
        (placed : List PlacementResult) → AllByRecursion IsLine rows → IsRun rows [] pages →
        IsSession P.is_known (HasFailedOutput P.Output.failures)
        on_limit (journal_text rows) [] after told placed → (after ≡ pages) ⊎ NamesNoMemory told }
{}

/// A session is a run of edits whose records are lines. So where all pages before it have lines in a journal, as no pages
/// and those of a journal have, all pages after it have.
pub fn sessions_are_runs<P: OutputStore>()
    ensures run { (on_limit : OnLimit) (input told : List ℕ) (before after : List Page)
        (placed : List PlacementResult) →
        IsSession P.is_known (HasFailedOutput P.Output.failures) on_limit input before after told placed →
        (rows : List Row) × AllByRecursion IsLine rows × IsRun rows before after }
    ensures lined { (on_limit : OnLimit) (input told : List ℕ) (before after : List Page)
        (placed : List PlacementResult) → IsSession P.is_known (HasFailedOutput P.Output.failures)
        on_limit input before after told placed →
        HaveLines before → HaveLines after }
{}
