ghost use Rattle.std.specs.Prelude.{◌≡◌, length, IfErr, OnErr, OnOk};
ghost use Rattle.csv.specs.Records.{fields_of};
ghost use Rattle.csv.specs.Writing.{default_writer, row_text};
ghost use Rattle.pocsag_words.specs.Devices.{CountsFailures, Delivers, HasFailed};
ghost use Rattle.pocsag_shell.specs.Faults.{file_status};
ghost use Rattle.pocsag_journal.specs.Keepers.{ExplainsKeeping};
ghost use Rattle.pocsag_journal.specs.Moments.{LeavesOnly};
ghost use Rattle.pocsag_journal.specs.Runs.{IsEdit};
ghost use Rattle.pocsag_open.specs.Answers.{pages_answer, plan_answer};
ghost use Rattle.pocsag_open.specs.KeptAnswers.{ExplainsUnanswered, IsAnswered, IsLost};
ghost use Rattle.pocsag_open.specs.Replies.{IsEditReply, TookMore};
ghost use Rattle.pocsag_open.specs.Survival.{IsCutShort, ReadsOrReplied};

use crate::refused::refuse;
use crate::round_plan::Planned;
use csv::ByteRecord;
use pocsag_journal::{Keeper, edit_row};
use pocsag_plan::Book;
use pocsag_shell::{FileFault, print_numbers};
use pocsag_words::Sink;
use std::alloc::Global;

/// An open round: its pages, and what keeps its edits.
#[derive(Drop)]
pub struct KeptRound<K: Keeper + Drop> {
    pub book: Book,
    pub keeper: K,
}

/// Makes the edit that a record is, has it kept, and answers it; or answers why it is refused. No byte of it is kept
/// before it is judged, and it is not answered before it is kept.
pub fn answer_edit<K: Keeper + Drop, O: Sink>(
    alloc: Global,
    round: &mut KeptRound<K>,
    row: &ByteRecord,
    out: &mut O,
) -> Result<(), FileFault>
    ensures answered { K.is_known → O.is_known → K.represents round.old.keeper round.old.book →
        OnOk result (IsAnswered (fields_of row.now) round.old.book round.new.book
        (K.taken round.old.keeper) (K.taken round.new.keeper) (K.may_leave round.new.keeper)
        (O.taken out.old) (O.taken out.new)) }
    ensures unanswered { K.is_known → O.is_known → K.represents round.old.keeper round.old.book →
        OnErr result (IsLost (fields_of row.now) round.old.book round.new.book
        (K.taken round.old.keeper) (K.taken round.new.keeper) (K.may_leave round.new.keeper)
        (O.taken out.old) (O.taken out.new)) }
    ensures replied { O.is_known → OnOk result (TookMore (O.taken out.old) (O.taken out.new)
        (IsEditReply (fields_of row.now) round.old.book round.new.book)) }
    ensures stands { K.represents round.old.keeper round.old.book →
        OnOk result (K.represents round.new.keeper round.new.book) }

    // Where the answer is cut short, a crash leaves what is read as the pages before the edit, or as those after it; and those
    // after it where any of the answer was reported. So it is at any moment.
    ensures cut { K.is_known → O.is_known → K.represents round.old.keeper round.old.book → OnErr result
        (IsCutShort (IsEditReply (fields_of row.now)) round.old.book
        (O.taken out.old) (O.taken out.new) K.reads_as (K.may_leave round.new.keeper)) }
    ensures any_moment { K.is_known → K.represents round.old.keeper round.old.book →
        LeavesOnly K.moment K.left_since round.old.keeper round.new.keeper
        (ReadsOrReplied K.reads_as (IsEditReply (fields_of row.now)) round.old.book) }

    // It fails for want of memory, or where the output or what keeps the edits failed or takes no more.
    ensures explained { K.counts → K.represents round.old.keeper round.old.book → IfErr result
        (ExplainsUnanswered (HasFailed (O.failures out.old) (O.failures out.new))
        (IsEdit (fields_of row.now) round.old.book round.new.book)
        (ExplainsKeeping K.most (K.taken round.old.keeper) (K.taken round.new.keeper)
        (row_text default_writer (fields_of row.now)) (K.failures round.old.keeper) (K.failures round.new.keeper))) }
    ensures output { OnOk result (O.failures out.new ≡ O.failures out.old) }
    ensures keeper { K.counts → OnOk result (K.failures round.new.keeper ≡ K.failures round.old.keeper) }
    ensures lost { IfErr result (λ e. file_status e ≡ 3) }
{
    match edit_row(alloc, &mut round.book, row) {
        Ok(()) => {}
        Err(refusal) => return refuse(refusal, out),
    }
    round.keeper.keep(alloc, row)?;
    print_pages(&round.book, out)
}

/// How many pages there are now.
#[tactic(auto, unfolding(crate::specs::Answers::pages_answer))]
pub(crate) fn print_pages<O: Sink>(book: &Book, out: &mut O) -> Result<(), FileFault>
    ensures printed { O.is_known →
        Delivers result (O.taken out.old) (O.taken out.new) (pages_answer (length book.now)) }
    ensures lost { IfErr result (λ e. e ≡ FileFault.Write) }
    ensures failures { CountsFailures result (O.failures out.old) (O.failures out.new) }
{
    print_numbers(out, &[("ok ", book.len() as u64)], "\n")
}

/// The batches of a plan, how many first pages it sends if it is that of a front, and the bound where it is below the batches.
#[tactic(auto, unfolding(crate::specs::Answers::plan_answer))]
pub(crate) fn print_planned<O: Sink>(
    planned: Planned,
    sent: Option<u32>,
    out: &mut O,
) -> Result<(), FileFault>
    ensures printed { O.is_known → Delivers result (O.taken out.old) (O.taken out.new)
        (plan_answer planned.batches sent planned.bound) }
    ensures lost { IfErr result (λ e. e ≡ FileFault.Write) }
    ensures failures { CountsFailures result (O.failures out.old) (O.failures out.new) }
{
    let batches = ("batches ", planned.batches as u64);
    let bound = (", at least ", planned.bound as u64);
    let is_lower = planned.bound < planned.batches;
    let Some(pages) = sent else {
        if is_lower {
            return print_numbers(out, &[batches, bound], "\n");
        }
        return print_numbers(out, &[batches], "\n");
    };
    let sent = (", sent ", pages as u64);
    if is_lower {
        return print_numbers(out, &[batches, sent, bound], "\n");
    }
    print_numbers(out, &[batches, sent], "\n")
}
