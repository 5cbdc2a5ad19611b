//! A round that a journal keeps, from its start on.
ghost use Rattle.std.specs.Prelude.{◌≡◌, ◌≤◌, ◌⊎◌, ◌++◌, ℕ, List, length, IfErr, IfOk, None, OnErr, OnOk, option_map};
ghost use Rattle.pocsag_words.specs.Devices.{CountsFailures, HasFailed};
ghost use Rattle.pocsag_pages.specs.declared.page.Page.{Page};
ghost use Rattle.pocsag_journal.specs.Journals.{Replays, journal_limit};
ghost use Rattle.pocsag_journal.specs.Moments.{LeavesOnly};
ghost use Rattle.pocsag_journal.specs.Views.{disk_of};
ghost use Rattle.pocsag_open.specs.Ends.{AreCountless, ExplainsEnd, HasGivenUp};
ghost use Rattle.pocsag_open.specs.KeptRounds.{ExplainsKept, HasFileFailed, HasPrintedRead, IsBeginning, IsKeptRound, ReadsKept, for_count, read_text, torn_end, torn_text};
ghost use Rattle.pocsag_open.specs.Plans.{HasFailedOutput};
ghost use Rattle.pocsag_open.specs.Replies.{IsSession, PrintsAndPlaces};

use crate::answer::KeptRound;
use crate::fault::OpenFault;
use crate::outputs::OutputStore;
use crate::session::{PlanSettings, book_of, run_open_kept};
use pocsag_journal::{Disk, Journal, Replayed};
use pocsag_plan::Book;
use pocsag_shell::{FileFault, print_numbers};
use pocsag_words::{Sink, Source};
use std::alloc::Global;

/// What a kept round reads and writes beside its journal.
#[derive(Drop)]
pub struct KeptStreams<F: Source + Drop, I: Source + Drop, O: Sink + Drop, E: Sink + Drop> {
    /// The page file that it begins with, if there is one.
    pub pages: Option<F>,
    /// Its lines.
    pub input: I,
    /// The answers to these.
    pub out: O,
    /// Where it reports what was read of the journal.
    pub err: E,
}

/// `open --journal`: reads the journal of a round, or its page file where the journal holds no edit, writes the journal anew,
/// and answers the lines of the input up to its end, each edit once it is kept. The book of the round is not read.
pub fn open_kept<
    P: OutputStore + Drop,
    D: Disk + Drop,
    F: Source + Drop,
    I: Source + Drop,
    O: Sink + Drop,
    E: Sink + Drop,
>(
    alloc: Global,
    settings: &mut PlanSettings<P>,
    round: &mut KeptRound<Journal<D>>,
    streams: &mut KeptStreams<F, I, O, E>,
) -> Result<(), OpenFault>
    // What is reported are the replies to the lines of the input, one by one, from the beginning on; and what is placed are the
    // outputs of the plans that they report.
    ensures session { D.is_known → F.is_known → I.is_known → O.is_known → OnOk result ((before : List Page) ×
        IsBeginning (D.held (disk_of round.old.keeper)) (option_map F.held streams.old.pages) before ×
        PrintsAndPlaces P.is_known (O.taken streams.old.out) (O.taken streams.new.out)
        (P.placed settings.old.store) (P.placed settings.new.store)
        (IsSession P.is_known (HasFailedOutput P.Output.failures)
        settings.old.on_limit (I.held streams.old.input) before round.new.book)) }

    // However it ends, whatever a crash leaves then is read as the pages after the lines that were answered, or as those after
    // one line more; or no line was answered, and it might have been left before, or is read as the beginning.
    ensures survives { D.is_known → F.is_known → I.is_known → O.is_known →
        IsKeptRound P.is_known (HasFailedOutput P.Output.failures) settings.old.on_limit (I.held streams.old.input)
        (D.held (disk_of round.old.keeper)) (option_map F.held streams.old.pages)
        (O.taken streams.old.out) (O.taken streams.new.out) (P.placed settings.old.store) (P.placed settings.new.store)
        (D.may_leave (disk_of round.old.keeper)) (D.may_leave (disk_of round.new.keeper)) }

    // What a crash leaves at any moment of it, while it starts and while the journal is written anew too, might have been left
    // before, or is read as the pages after some of the first lines.
    ensures any_moment { D.is_known → F.is_known → I.is_known → O.is_known →
        LeavesOnly D.moment D.left_since (disk_of round.old.keeper) (disk_of round.new.keeper)
        (ReadsKept P.is_known (HasFailedOutput P.Output.failures) settings.old.on_limit (I.held streams.old.input)
        (D.held (disk_of round.old.keeper)) (option_map F.held streams.old.pages)
        (D.may_leave (disk_of round.old.keeper))) }

    // Why it does not begin, or ends before its input.
    ensures explained { D.is_known → F.is_known → I.is_known → IfErr result (ExplainsKept
        (D.held (disk_of round.old.keeper)) (option_map F.held streams.old.pages)
        (HasFileFailed (option_map F.failures streams.old.pages) (option_map F.failures streams.new.pages))
        (ExplainsEnd
        (HasFailed (D.failures (disk_of round.old.keeper)) (D.failures (disk_of round.new.keeper))
        ⊎ HasFailed (I.failures streams.old.input) (I.failures streams.new.input)
        ⊎ AreCountless (I.held streams.old.input))
        (HasFailed (O.failures streams.old.out) (O.failures streams.new.out))
        (HasGivenUp journal_limit (D.held (disk_of round.new.keeper))
        (D.failures (disk_of round.old.keeper)) (D.failures (disk_of round.new.keeper))))) }

    // What was read of the journal is printed to standard error before the first line is read, or nothing is.
    ensures told { D.is_known → F.is_known → OnOk result (HasPrintedRead E.Sink (D.held (disk_of round.old.keeper))
        (option_map F.held streams.old.pages) streams.old.err streams.new.err) }
    ensures untold { D.is_known → F.is_known → OnErr result ((streams.new.err ≡ streams.old.err)
        ⊎ HasPrintedRead E.Sink (D.held (disk_of round.old.keeper))
        (option_map F.held streams.old.pages) streams.old.err streams.new.err) }

    // No output that a plan made is left over, whatever is answered.
    ensures none_left { P.is_known → P.made_for settings.old.store ≡ None → P.made_for settings.new.store ≡ None }
{
    let replayed = round.keeper.read(alloc)?;
    let (edits, torn) = (replayed.edits, replayed.torn);
    round.book = first_book(alloc, replayed, &mut streams.pages)?;
    round.keeper.compact(alloc, &round.book)?;
    let _ = print_read(
        &mut streams.err,
        TornLine::CutOff,
        torn,
        edits,
        round.book.len(),
    );
    Ok(run_open_kept(alloc, settings, round, &mut streams.input, &mut streams.out)?)
}

// The pages with which a round begins: those of its journal, or of its page file.
fn first_book<F: Source>(
    alloc: Global,
    replayed: Replayed,
    pages: &mut Option<F>,
) -> Result<Book, OpenFault>
    ensures begins { F.is_known → IfOk result (λ book. (bytes : List ℕ) →
        Replays bytes replayed.edits replayed.torn replayed.book → length bytes ≤ journal_limit →
        IsBeginning bytes (option_map F.held pages.old) book) }
    ensures explained { F.is_known → IfErr result (λ e. (bytes : List ℕ) →
        Replays bytes replayed.edits replayed.torn replayed.book →
        ExplainsKept bytes (option_map F.held pages.old)
        (HasFileFailed (option_map F.failures pages.old) (option_map F.failures pages.new)) (ExplainsEnd ⊥ ⊥ ⊥) e) }
{
    match pages {
        None => Ok(replayed.book),
        Some(_) if replayed.edits > 0 => Err(OpenFault::HoldsEdits),
        Some(pages) => book_of(alloc, pages),
    }
}

/// What becomes of a torn line.
#[derive(Clone, Copy)]
pub(crate) enum TornLine {
    CutOff,
    PassedOver,
}

impl TornLine {
    // The end of what is printed of one of so many bytes.
    #[tactic(auto, unfolding(crate::specs::KeptRounds::torn_end))]
    fn end(self, bytes: usize) -> &'static str
        ensures { result.now ≡ torn_end self bytes }
    {
        match self {
            TornLine::CutOff => by_count(bytes, " byte is cut off\n", " bytes is cut off\n"),
            TornLine::PassedOver => {
                by_count(bytes, " byte is passed over\n", " bytes is passed over\n")
            }
        }
    }
}

/// Prints what was read of a journal, and what becomes of a torn line. After a fault a prefix was taken.
#[tactic(auto, unfolding(crate::specs::KeptRounds::read_text))]
pub(crate) fn print_read<E: Sink>(
    err: &mut E,
    line: TornLine,
    torn: usize,
    edits: usize,
    pages: usize,
) -> Result<(), FileFault>
    ensures printed { E.is_known → OnOk result (E.taken err.new ≡ E.taken err.old ++ read_text line torn edits pages) }
    ensures failures { CountsFailures result (E.failures err.old) (E.failures err.new) }
{
    print_torn(err, line, torn)?;
    let of_edits = by_count(edits, " edit read, ", " edits read, ");
    let of_pages = by_count(pages, " page\n", " pages\n");
    print_numbers(
        err,
        &[("pocsag: ", edits as u64), (of_edits, pages as u64)],
        of_pages,
    )
}

// Prints what becomes of a torn line, if there is one.
#[tactic(auto, unfolding(crate::specs::KeptRounds::torn_text))]
fn print_torn<E: Sink>(err: &mut E, line: TornLine, torn: usize) -> Result<(), FileFault>
    ensures printed { E.is_known → OnOk result (E.taken err.new ≡ E.taken err.old ++ torn_text line torn) }
    ensures failures { CountsFailures result (E.failures err.old) (E.failures err.new) }
{
    if torn == 0 {
        return Ok(());
    }
    print_numbers(
        err,
        &[("pocsag: a torn line of ", torn as u64)],
        line.end(torn),
    )
}

// The text for one of something, or for none or more.
fn by_count(count: usize, one: &'static str, other: &'static str) -> &'static str
    ensures { result.now ≡ for_count count one.now other.now }
{
    if count == 1 { one } else { other }
}
