ghost use Rattle.std.specs.Prelude.{◌≡◌, ◌≤◌, ◌⊎◌, List, [], length, IfErr, IfOk, None, Ok, OnErr, OnOk};
ghost use Rattle.pocsag_words.specs.Devices.{HasFailed};
ghost use Rattle.pocsag_pages.specs.PageFile.{verdict};
ghost use Rattle.pocsag_pages.specs.declared.page.Page.{Page};
ghost use Rattle.pocsag_shell.specs.Faults.{file_status};
ghost use Rattle.pocsag_journal.specs.LineTexts.{HasNoLineFeed};
ghost use Rattle.pocsag_journal.specs.Moments.{LeavesOnly};
ghost use Rattle.pocsag_open.specs.Ends.{AreCountless, ExplainsEnd, HasGivenUp};
ghost use Rattle.pocsag_open.specs.Faults.{ExplainsOpening, open_status};
ghost use Rattle.pocsag_open.specs.Lines.{line_limit};
ghost use Rattle.pocsag_open.specs.Plans.{HasFailedOutput};
ghost use Rattle.pocsag_open.specs.Replies.{IsLineReply, IsSession, PrintsAndPlaces};
ghost use Rattle.pocsag_open.specs.Survival.{IsCutShort, ReadsAfterLines, ReadsOrReplied, RepliesAndPlaces, RepliesTo, Survives};

use crate::answer::{KeptRound, answer_edit, print_pages};
use crate::fault::OpenFault;
use crate::lines::{LineRead, Lines};
use crate::outputs::OutputStore;
use crate::refused::refuse;
use crate::round_plan::{PlanRequest, answer_plan};
use pocsag_decode::{ListFault, write_page_file};
use pocsag_journal::{Keeper, Line, NoKeeper, Refusal, UndoneFault, line_of, record_of};
use pocsag_pages::read_round;
use pocsag_plan::{Book, OnLimit};
use pocsag_shell::FileFault;
use pocsag_words::{Sink, Source};
use std::alloc::Global;

/// How the plans of an open round are made.
#[derive(Drop)]
pub struct PlanSettings<P: OutputStore + Drop> {
    /// What makes their outputs.
    pub store: P,
    /// Whether a plan that reaches the limit is refused, or has one batch more than is shown to be needed.
    pub on_limit: OnLimit,
}

/// `open` without PAGES: answers the lines of the input, one by one, up to its end. A round of no pages is
/// open at first.
pub fn run_open<P: OutputStore + Drop, I: Source, O: Sink>(
    alloc: Global,
    settings: &mut PlanSettings<P>,
    input: &mut I,
    out: &mut O,
) -> Result<(), FileFault>
    // What is reported are the replies to the lines of the input, one by one, from no pages on; and what is placed are the
    // outputs of the plans that they report.
    ensures session { I.is_known → O.is_known → OnOk result ((after : List Page) × PrintsAndPlaces P.is_known
        (O.taken out.old) (O.taken out.new) (P.placed settings.old.store) (P.placed settings.new.store)
        (IsSession P.is_known (HasFailedOutput P.Output.failures)
        settings.old.on_limit (I.held input.old) [] after)) }

    // No output that a plan made is left over, whatever is answered.
    ensures none_left { P.is_known → P.made_for settings.old.store ≡ None → P.made_for settings.new.store ≡ None }

    // It is done only at the end of the input, which did not fail.
    ensures input { OnOk result (I.failures input.new ≡ I.failures input.old) }

    // It ends before its input for want of memory, or where the input or the output failed.
    ensures explained { I.is_known → IfErr result (ExplainsEnd
        (HasFailed (I.failures input.old) (I.failures input.new) ⊎ AreCountless (I.held input.old))
        (HasFailed (O.failures out.old) (O.failures out.new)) ⊥) }
    ensures lost { IfErr result (λ e. file_status e ≡ 3) }
{
    let mut round = KeptRound {
        book: Book::new(alloc),
        keeper: NoKeeper,
    };
    run_open_kept(alloc, settings, &mut round, input, out)
}

/// `open PAGES`: the same, where the pages of the page file are open at first.
pub fn run_open_pages<P: OutputStore + Drop, F: Source, I: Source, O: Sink>(
    alloc: Global,
    settings: &mut PlanSettings<P>,
    pages: &mut F,
    input: &mut I,
    out: &mut O,
) -> Result<(), OpenFault>
    // What is reported are the replies to the lines of the input, one by one, from the pages of the page file on; and what is
    // placed are the outputs of the plans that they report.
    ensures session { F.is_known → I.is_known → O.is_known → OnOk result ((before after : List Page) ×
        (verdict (F.held pages.old) ≡ Ok before) × PrintsAndPlaces P.is_known
        (O.taken out.old) (O.taken out.new) (P.placed settings.old.store) (P.placed settings.new.store)
        (IsSession P.is_known (HasFailedOutput P.Output.failures)
        settings.old.on_limit (I.held input.old) before after)) }

    // No output that a plan made is left over, whatever is answered.
    ensures none_left { P.is_known → P.made_for settings.old.store ≡ None → P.made_for settings.new.store ≡ None }

    // It is done only at the end of the input, and neither it nor the page file failed.
    ensures input { OnOk result (I.failures input.new ≡ I.failures input.old) }
    ensures pages { OnOk result (F.failures pages.new ≡ F.failures pages.old) }

    // Only a fault of the page file is refused, and then no line is read or answered; and the round ends before its input for
    // want of memory, or where the input or the output failed.
    ensures explained { F.is_known → I.is_known → IfErr result
        (ExplainsOpening (F.held pages.old) (F.failures pages.old) (F.failures pages.new) (ExplainsEnd
        (HasFailed (I.failures input.old) (I.failures input.new) ⊎ AreCountless (I.held input.old))
        (HasFailed (O.failures out.old) (O.failures out.new)) ⊥)) }
    ensures refused { IfErr result (λ e. open_status e ≡ 1 → (input.new ≡ input.old) × (out.new ≡ out.old)) }
{
    let mut round = KeptRound {
        book: book_of(alloc, pages)?,
        keeper: NoKeeper,
    };
    Ok(run_open_kept(alloc, settings, &mut round, input, out)?)
}

/// A book of the pages of a page file.
pub(crate) fn book_of<F: Source>(alloc: Global, pages: &mut F) -> Result<Book, OpenFault>
    ensures pages { F.is_known → IfOk result (λ book. verdict (F.held pages.old) ≡ Ok book) }
    ensures read { OnOk result (F.failures pages.new ≡ F.failures pages.old) }
    ensures explained { F.is_known → IfErr result
        (ExplainsOpening (F.held pages.old) (F.failures pages.old) (F.failures pages.new) (ExplainsEnd ⊥ ⊥ ⊥)) }
{
    let round = match read_round(alloc, pages) {
        Ok(round) => round,
        Err(fault) => return Err(OpenFault::Round(fault)),
    };
    match Book::of_round(alloc, &round) {
        Ok(book) => Ok(book),
        Err(_) => Err(OpenFault::File(FileFault::OutOfMemory)),
    }
}

/// The same of a round whose edits are kept, each before it is answered. Answers the lines of the input, one by one,
/// up to its end.
pub fn run_open_kept<P: OutputStore + Drop, K: Keeper + Drop, I: Source, O: Sink>(
    alloc: Global,
    settings: &mut PlanSettings<P>,
    round: &mut KeptRound<K>,
    input: &mut I,
    out: &mut O,
) -> Result<(), FileFault>
    // What is reported are the replies to the lines of the input, one by one, from the pages of the round on; and what is placed
    // are the outputs of the plans that they report.
    ensures session { I.is_known → O.is_known → OnOk result (PrintsAndPlaces P.is_known
        (O.taken out.old) (O.taken out.new) (P.placed settings.old.store) (P.placed settings.new.store)
        (IsSession P.is_known (HasFailedOutput P.Output.failures)
        settings.old.on_limit (I.held input.old) round.old.book round.new.book)) }

    // No output that a plan made is left over, whatever is answered.
    ensures none_left { P.is_known → P.made_for settings.old.store ≡ None → P.made_for settings.new.store ≡ None }

    // It is done only at the end of the input, which did not fail; then what is kept stands for the pages.
    ensures input { OnOk result (I.failures input.new ≡ I.failures input.old) }
    ensures stands { K.represents round.old.keeper round.old.book →
        OnOk result (K.represents round.new.keeper round.new.book) }

    // However it ends, whatever a crash leaves then is read as the pages after the lines that were answered, or as those
    // after one line more; and after a crash at any moment before, as the pages after some of the first lines.
    ensures survives { K.is_known → I.is_known → O.is_known → K.represents round.old.keeper round.old.book →
        Survives P.is_known (HasFailedOutput P.Output.failures)
        settings.old.on_limit (I.held input.old) round.old.book (O.taken out.old) (O.taken out.new)
        (P.placed settings.old.store) (P.placed settings.new.store) K.reads_as (K.may_leave round.new.keeper) }
    ensures any_moment { K.is_known → I.is_known → O.is_known → K.represents round.old.keeper round.old.book →
        LeavesOnly K.moment K.left_since round.old.keeper round.new.keeper
        (ReadsAfterLines P.is_known (HasFailedOutput P.Output.failures)
        settings.old.on_limit (I.held input.old) round.old.book K.reads_as) }

    // It ends before its input for want of memory, or where the input, the output or what keeps the edits failed.
    ensures explained { I.is_known → K.counts → K.represents round.old.keeper round.old.book → IfErr result (ExplainsEnd
        (HasFailed (I.failures input.old) (I.failures input.new) ⊎ AreCountless (I.held input.old))
        (HasFailed (O.failures out.old) (O.failures out.new))
        (HasGivenUp K.most (K.taken round.new.keeper) (K.failures round.old.keeper) (K.failures round.new.keeper))) }
    ensures lost { IfErr result (λ e. file_status e ≡ 3) }
{
    let mut lines = Lines::new(alloc)?;
    for _answered in 0..u64::MAX {
        match lines.read_line(input)? {
            LineRead::End => return Ok(()),
            LineRead::TooLong => refuse(Refusal::Unknown, out)?,
            LineRead::Kept => answer_line(alloc, settings, round, lines.line.as_slice(), out)?,
        }
        // Where memory is wanting for it, that is put off.
        let _ = round.keeper.compact_if_due(alloc, &round.book)?;
    }
    Err(FileFault::Device)
}

// Returns one line.
fn answer_line<P: OutputStore + Drop, K: Keeper + Drop, O: Sink>(
    alloc: Global,
    settings: &mut PlanSettings<P>,
    round: &mut KeptRound<K>,
    line: &[u8],
    out: &mut O,
) -> Result<(), FileFault>
    requires { length line.now ≤ line_limit }
    ensures replied { O.is_known → OnOk result (PrintsAndPlaces P.is_known
        (O.taken out.old) (O.taken out.new) (P.placed settings.old.store) (P.placed settings.new.store)
        (IsLineReply P.is_known (HasFailedOutput P.Output.failures)
        settings.old.on_limit line.now round.old.book round.new.book)) }
    ensures on_limit { settings.new.on_limit ≡ settings.old.on_limit }
    ensures none_left { P.is_known → P.made_for settings.old.store ≡ None → P.made_for settings.new.store ≡ None }
    ensures stands { K.represents round.old.keeper round.old.book →
        OnOk result (K.represents round.new.keeper round.new.book) }
    ensures cut { K.is_known → O.is_known → K.represents round.old.keeper round.old.book → OnErr result
        (IsCutShort (RepliesAndPlaces P.is_known (HasFailedOutput P.Output.failures) settings.old.on_limit line.now
        (P.placed settings.old.store) (P.placed settings.new.store)) round.old.book
        (O.taken out.old) (O.taken out.new) K.reads_as (K.may_leave round.new.keeper)) }
    ensures any_moment { K.is_known → K.represents round.old.keeper round.old.book →
        LeavesOnly K.moment K.left_since round.old.keeper round.new.keeper
        (ReadsOrReplied K.reads_as (RepliesTo P.is_known (HasFailedOutput P.Output.failures)
        settings.old.on_limit line.now) round.old.book) }
    ensures explained { K.counts → K.represents round.old.keeper round.old.book → HasNoLineFeed line.now → IfErr result
        (ExplainsEnd ⊥ (HasFailed (O.failures out.old) (O.failures out.new))
        (HasGivenUp K.most (K.taken round.new.keeper) (K.failures round.old.keeper) (K.failures round.new.keeper))) }
    ensures output { OnOk result (O.failures out.new ≡ O.failures out.old) }
    ensures keeper { K.counts → OnOk result (K.failures round.new.keeper ≡ K.failures round.old.keeper) }
    ensures lost { IfErr result (λ e. file_status e ≡ 3) }
{
    let row = match record_of(alloc, line) {
        Ok(row) => row,
        Err(refusal) => {
            settings.store.note_line(line, false);
            return refuse(refusal, out);
        }
    };
    match line_of(&row) {
        Line::Plan {
            tx,
            cert,
            end,
            at_most,
        } => {
            let asked = PlanRequest {
                tx,
                cert,
                end,
                at_most,
            };
            answer_plan(alloc, settings, round, asked, out)
        }
        Line::List => match write_page_file(alloc, round.book.pages(), out) {
            Ok(()) => print_pages(&round.book, out),
            Err(ListFault::OutOfMemory) => refuse(Refusal::Undone(UndoneFault::OutOfMemory), out),
            Err(ListFault::WriteFault) => Err(FileFault::Write),
        },
        Line::Journal => print_pages(&round.book, out),
        _ => {
            let count = round.book.len();
            let done = answer_edit(alloc, round, &row, out);
            settings.store.note_line(line, round.book.len() != count);
            done
        }
    }
}
