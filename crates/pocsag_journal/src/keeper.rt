ghost use Rattle.std.specs.Prelude.{◌≡◌, ◌≤◌, ◌++◌, ℕ, Bool, List, IfErr, IfOk, OnErr, OnOk};
ghost use Rattle.csv.specs.Records.{fields_of};
ghost use Rattle.csv.specs.Writing.{default_writer, row_text};
ghost use Rattle.pocsag_pages.specs.declared.page.Page.{Page};
ghost use Rattle.pocsag_words.specs.Devices.{CountsFailures, TookPrefix};
ghost use Rattle.pocsag_shell.specs.Faults.{file_status};
ghost use Rattle.pocsag_journal.specs.Keepers.{ExplainsKeeping, ReadsAsEither};
ghost use Rattle.pocsag_journal.specs.Moments.{IsSafe, LeavesOnly};
ghost use Rattle.pocsag_journal.specs.Runs.{IsEdit};

use csv::ByteRecord;
use pocsag_plan::Book;
use pocsag_shell::FileFault;
use std::alloc::Global;

/// What keeps the edits of an open round, each before it is answered.
pub trait Keeper {
    // Whether contracts know what it keeps.
    ghost is_known: { Type 0 };

    // The bytes that it took, and the most that it may take.
    ghost taken: { Self → List ℕ };

    ghost most: { ℕ };

    // Whether its failures are counted, and how often it failed.
    ghost counts: { Type 0 };

    ghost failures: { Self → ℕ };

    // What a crash at this moment may leave.
    ghost may_leave: { Self → List ℕ → Type 0 };

    // This moment, as a number that does not fall.
    ghost moment: { Self → ℕ };

    // What a crash at some moment from that one on might have left, during a call or between two.
    ghost left_since: { Self → ℕ → List ℕ → Type 0 };

    // The next start reads these bytes as these pages.
    ghost reads_as: { List ℕ → List Page → Type 0 };

    // What it took stands for these pages, and no crash takes any of it away.
    ghost represents: { Self → List Page → Type 0 };

    // What it took between two edits of these pages is put shorter where that is due, or that is put off.
    ghost compacts: { Bool → List Page → Self → Self → Type 0 };

    // How many bytes it had when what its pages need was counted last.
    ghost compacted_at: { Self → ℕ };

    ghost restarts: { (keeper : Self) (pages : List Page) (left : List ℕ) → is_known → represents keeper pages →
        may_leave keeper left → reads_as left pages };

    ghost counts_now: { (keeper : Self) (t : ℕ) (left : List ℕ) → is_known → t ≤ moment keeper →
        may_leave keeper left → left_since keeper t left };

    ghost only_now: { (keeper : Self) (left : List ℕ) → is_known → left_since keeper (moment keeper) left →
        may_leave keeper left };

    /// Keeps an edit that was made, by the text of its record. Where it cannot, it took a prefix of that text.
    fn keep(&mut self, alloc: Global, row: &ByteRecord) -> Result<(), FileFault>
        ensures taken { is_known → OnOk result
            (taken self.new ≡ taken self.old ++ row_text default_writer (fields_of row.now)) }
        ensures safe { is_known → (before : List Page) → represents self.old before →
            OnOk result (IsSafe (taken self.new) (may_leave self.new)) }
        ensures part { is_known → OnErr result
            (TookPrefix (taken self.old) (taken self.new) (row_text default_writer (fields_of row.now))) }
        ensures stands { (before after : List Page) → represents self.old before →
            IsEdit (fields_of row.now) before after → OnOk result (represents self.new after) }

        // A crash at any moment of it leaves what is read as the pages before the edit, or as those after it.
        ensures any_moment { is_known → (before after : List Page) → represents self.old before →
            IsEdit (fields_of row.now) before after →
            LeavesOnly moment left_since self.old self.new (ReadsAsEither reads_as before after) }
        ensures same { compacted_at self.new ≡ compacted_at self.old }
        ensures explained { counts → (before : List Page) → represents self.old before → IfErr result
            (ExplainsKeeping most (taken self.old) (taken self.new) (row_text default_writer (fields_of row.now))
            (failures self.old) (failures self.new)) }
        ensures succeeded { counts → OnOk result (failures self.new ≡ failures self.old) }
        ensures lost { IfErr result (λ e. file_status e ≡ 3) };

    /// Called between two lines. If it is due, what it took is made shorter, for the same pages. Refused memory puts
    /// that off.
    fn compact_if_due(&mut self, alloc: Global, book: &Book) -> Result<bool, FileFault>
        ensures stands { represents self.old book.now → OnOk result (represents self.new book.now) }
        ensures compacted { is_known → represents self.old book.now →
            IfOk result (λ done. compacts done book.now self.old self.new) }

        // A crash at any moment of it leaves what is read as these pages.
        ensures any_moment { is_known → represents self.old book.now →
            LeavesOnly moment left_since self.old self.new (λ left. reads_as left book.now) }
        ensures failures { counts → CountsFailures result (failures self.old) (failures self.new) }
        ensures lost { IfErr result (λ e. e ≡ FileFault.Write) };
}

/// Keeps nothing.
#[derive(Drop)]
pub struct NoKeeper;

impl Keeper for NoKeeper {
    ghost use Rattle.std.specs.Prelude.{[]};
    ghost use Rattle.pocsag_journal.specs.Growth.{kept_line_limit};

    ghost is_known = { ⊥ };

    ghost taken = { λ _. [] };

    ghost most = { kept_line_limit };

    ghost counts = { Unit {0} };

    ghost failures = { λ _. 0 };

    ghost may_leave = { λ _ _. ⊥ };

    ghost moment = { λ _. 0 };

    ghost left_since = { λ _ _ _. ⊥ };

    ghost reads_as = { λ _ _. ⊥ };

    ghost represents = { λ _ _. Unit {0} };

    ghost compacts = { λ _ _ _ _. Unit {0} };

    ghost compacted_at = { λ _. 0 };

    ghost restarts = { λ keeper pages left is_known stands now. absurd is_known };

    ghost counts_now = { λ keeper t left is_known le now. absurd is_known };

    ghost only_now = { λ keeper left is_known since. absurd is_known };

    fn keep(&mut self, _alloc: Global, _row: &ByteRecord) -> Result<(), FileFault> {
        Ok(())
    }

    fn compact_if_due(&mut self, _alloc: Global, _book: &Book) -> Result<bool, FileFault> {
        Ok(true)
    }
}
