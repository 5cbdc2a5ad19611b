ghost use Rattle.std.specs.Prelude.{◌≡◌, ◌≤◌, ◌⊎◌, length, IfErr, IfOk, OnOk};
ghost use Rattle.pocsag_journal.specs.Moments.{IsSafe, LeavesOnly};
ghost use Rattle.pocsag_journal.specs.Crashes.{RestartsAs};
ghost use Rattle.pocsag_journal.specs.Faults.{ExplainsAnew, ExplainsReplay};
ghost use Rattle.pocsag_journal.specs.Journals.{ListsPages, Replays, journal_limit};
ghost use Rattle.pocsag_journal.specs.Views.{IsMeasured, counted_of, disk_of, journal_length};

use crate::compaction::text_of_pages;
use crate::disk::Disk;
use crate::fault::JournalFault;
use crate::keeper::Keeper;
use crate::lines::is_one_line;
use crate::replay::{JOURNAL_LIMIT, Replayed, replay};
use crate::sizes::Sizes;
use crate::text::row_line;
use csv::ByteRecord;
use pocsag_pages::WholeFault;
use pocsag_plan::Book;
use pocsag_shell::FileFault;
use std::alloc::Global;

// A journal that is due is written anew where it has more than so many times the bytes that its pages need.
const TIMES_NEEDED: usize = 4;

/// The journal of an open round, on a disk that holds it.
#[derive(Drop)]
pub struct Journal<D: Disk + Drop> {
    pub disk: D,
    sizes: Sizes,
}

impl<D: Disk + Drop> Journal<D> {
    /// A journal on a disk, of which nothing is read yet.
    pub fn on(disk: D) -> Journal<D>
        ensures { disk_of result ≡ disk }
    {
        Journal {
            disk,
            sizes: Sizes { len: 0, counted: 0 },
        }
    }

    /// Reads what the disk holds, as `read_journal` reads a source. Nothing is changed.
    pub fn read(&mut self, alloc: Global) -> Result<Replayed, JournalFault>
        ensures read { D.is_known → IfOk result
            (λ replayed. Replays (D.held (disk_of self.old)) replayed.edits replayed.torn replayed.book) }
        ensures few { D.is_known → OnOk result (length (D.held (disk_of self.old)) ≤ journal_limit) }
        ensures told { D.is_known → IfErr result (ExplainsReplay (D.held (disk_of self.old))
            (D.failures (disk_of self.old)) (D.failures (disk_of self.new))) }
        ensures succeeded { D.is_known → OnOk result (D.failures (disk_of self.new) ≡ D.failures (disk_of self.old)) }
        ensures same { D.is_known → D.held (disk_of self.new) ≡ D.held (disk_of self.old) }

        // A crash at any moment of it leaves what one before might have left.
        ensures any_moment { D.is_known → LeavesOnly D.moment D.left_since (disk_of self.old) (disk_of self.new)
            (D.may_leave (disk_of self.old)) }
    {
        match self.disk.read(alloc, JOURNAL_LIMIT) {
            Ok(bytes) => replay(alloc, bytes.as_slice()),
            Err(WholeFault::ReadFault) => Err(JournalFault::ReadFault),
            Err(WholeFault::TooLarge) => Err(JournalFault::TooLarge),
            Err(WholeFault::OutOfMemory) => Err(JournalFault::OutOfMemory),
        }
    }

    /// Writes the journal of a round anew, in the place of all that the disk holds.
    pub fn compact(&mut self, alloc: Global, book: &Book) -> Result<(), JournalFault>
        ensures adds { D.is_known → OnOk result (ListsPages (D.held (disk_of self.new)) book.now) }
        ensures safe { D.is_known → OnOk result (IsSafe (D.held (disk_of self.new)) (D.may_leave (disk_of self.new))) }
        ensures sound { D.is_known → OnOk result (D.is_sound (disk_of self.new)) }
        ensures measured { D.is_known → OnOk result (IsMeasured self.new (D.held (disk_of self.new))) }
        ensures counted { OnOk result (counted_of self.new ≡ journal_length self.new) }

        // A crash at any moment of it leaves what one before might have left, or what is read as the pages of the round.
        ensures any_moment { D.is_known → LeavesOnly D.moment D.left_since (disk_of self.old) (disk_of self.new)
            (λ left. D.may_leave (disk_of self.old) left ⊎ RestartsAs left book.now) }
        ensures explained { D.is_known → IfErr result
            (ExplainsAnew book.now (D.failures (disk_of self.old)) (D.failures (disk_of self.new))) }
        ensures succeeded { D.is_known → OnOk result (D.failures (disk_of self.new) ≡ D.failures (disk_of self.old)) }
    {
        let text = text_of_pages(alloc, book.pages())?;
        let Ok(()) = self.disk.replace(text.as_slice()) else {
            return Err(JournalFault::WriteFault);
        };
        let len = text.len();
        self.sizes = Sizes { len, counted: len };
        Ok(())
    }
}

impl<D: Disk + Drop> Keeper for Journal<D> {
    ghost use Rattle.std.specs.Prelude.{ℕ, List};
    ghost use Rattle.pocsag_journal.specs.Growth.{CompactsAs};
    ghost use Rattle.pocsag_journal.specs.Views.{IsHeld};
    ghost use Rattle.pocsag_journal.specs.Restarts.{held_restarts};

    ghost is_known = { D.is_known };

    ghost taken = { λ journal. D.held (disk_of journal) };

    ghost most = { journal_limit };

    ghost counts = { D.is_known };

    ghost failures = { λ journal. D.failures (disk_of journal) };

    ghost may_leave = { λ journal. D.may_leave (disk_of journal) };

    ghost moment = { λ journal. D.moment (disk_of journal) };

    ghost left_since = { λ journal. D.left_since (disk_of journal) };

    ghost reads_as = { RestartsAs };

    ghost represents = { λ journal pages. D.is_known →
        IsHeld journal (D.held (disk_of journal)) (D.may_leave (disk_of journal)) pages × D.is_sound (disk_of journal) };

    ghost compacts = { λ done pages old new. CompactsAs done pages (counted_of old) (counted_of new)
        (D.held (disk_of old)) (D.held (disk_of new)) };

    ghost compacted_at = { counted_of };

    ghost restarts = { λ journal pages left is_known stands now.
        held_restarts journal (D.held (disk_of journal)) (D.may_leave (disk_of journal)) pages left (stands is_known).0 now };

    ghost counts_now = { λ journal t left is_known le now. D.counts_now (disk_of journal) t left is_known le now };

    ghost only_now = { λ journal left is_known since. D.only_now (disk_of journal) left is_known since };

    fn keep(&mut self, alloc: Global, row: &ByteRecord) -> Result<(), FileFault> {
        let line = row_line(alloc, row)?;
        let len = self.sizes.len.saturating_add(line.len());
        // No line of `open` has a field with a line feed.
        if !is_one_line(line.as_slice()) || len > JOURNAL_LIMIT {
            return Err(FileFault::Write);
        }
        let Ok(()) = self.disk.append(line.as_slice()) else {
            return Err(FileFault::Write);
        };
        let Ok(()) = self.disk.sync() else {
            return Err(FileFault::Write);
        };
        let counted = self.sizes.counted;
        self.sizes = Sizes { len, counted };
        Ok(())
    }

    fn compact_if_due(&mut self, alloc: Global, book: &Book) -> Result<bool, FileFault> {
        if !self.sizes.is_due() {
            return Ok(true);
        }
        let len = self.sizes.len;
        self.sizes = Sizes { len, counted: len };
        let Ok(text) = text_of_pages(alloc, book.pages()) else {
            return Ok(false);
        };
        if len <= text.len().saturating_mul(TIMES_NEEDED) {
            return Ok(true);
        }
        let Ok(()) = self.disk.replace(text.as_slice()) else {
            return Err(FileFault::Write);
        };
        let len = text.len();
        self.sizes = Sizes { len, counted: len };
        Ok(true)
    }
}
