//! Plans of an open round: of all its pages, or of the longest front, whose pages are taken out.
ghost use Rattle.std.specs.Prelude.{◌≡◌, ◌≢◌, ℕ, List, None, Some, IfErr, IfOk, IfSome, OnErr, OnOk, option_map};
ghost use Rattle.csv.specs.Records.{fields_of};
ghost use Rattle.pocsag_words.specs.Devices.{HasFailed};
ghost use Rattle.pocsag_shell.specs.Faults.{file_status};
ghost use Rattle.pocsag_journal.specs.Moments.{LeavesOnly};
ghost use Rattle.pocsag_journal.specs.Runs.{sent_record};
ghost use Rattle.pocsag_open.specs.Ends.{ExplainsEnd, HasGivenUp};
ghost use Rattle.pocsag_open.specs.Plans.{ExplainsPlanUndone, HasFailedOutput, IsAskedPlanned, IsPlanPlaced, IsUnplaced, undone_of};
ghost use Rattle.pocsag_open.specs.Replies.{AsksForPlan, IsLineReply, PrintsAndPlaces};
ghost use Rattle.pocsag_open.specs.Survival.{IsCutShort, ReadsOrReplied, RepliesAndPlaces, RepliesTo};

use crate::answer::{KeptRound, print_planned};
use crate::outputs::OutputStore;
use crate::refused::refuse;
use crate::session::PlanSettings;
use csv::ByteRecord;
use pocsag_journal::{Keeper, Refusal, UndoneFault, sent_row};
use pocsag_plan::{Book, DEFAULT_LIMIT, PlanFault, Search, StreamFault, UnsentFront};
use pocsag_shell::{FileFault, Outputs};
use pocsag_words::{End, OutOfMemory, Sink};
use std::alloc::Global;

/// What a line that plans asks for.
#[derive(Clone, Copy)]
pub(crate) struct PlanRequest<'a> {
    pub tx: &'a str,
    pub cert: &'a str,
    pub end: End,
    /// How many batches a front may have, where one is asked for.
    pub at_most: Option<u32>,
}

/// The batches of a plan, and the bound that its certificate shows.
#[derive(Clone, Copy)]
pub(crate) struct Planned {
    pub batches: u32,
    pub bound: u32,
}

/// How many first pages the plan of a front sends, and the record of the edit that takes them out.
#[derive(Drop)]
pub(crate) struct SentFront {
    pub pages: u32,
    pub row: ByteRecord,
}

/// Puts a plan in its places, and answers it; or answers why it is refused. The pages of a front are taken out, and that is not
/// answered before it is kept.
pub(crate) fn answer_plan<P: OutputStore + Drop, K: Keeper + Drop, O: Sink>(
    alloc: Global,
    settings: &mut PlanSettings<P>,
    round: &mut KeptRound<K>,
    asked: PlanRequest<'_>,
    out: &mut O,
) -> Result<(), FileFault>
    ensures replied { O.is_known → (line : List ℕ) →
        AsksForPlan asked.entry.end asked.entry.at_most asked.entry.tx.now asked.entry.cert.now line →
        OnOk result (PrintsAndPlaces P.is_known
        (O.taken out.old) (O.taken out.new) (P.placed settings.old.store) (P.placed settings.new.store)
        (IsLineReply P.is_known (HasFailedOutput P.Output.failures)
        settings.old.on_limit line round.old.book round.new.book)) }
    ensures on_limit { settings.new.on_limit ≡ settings.old.on_limit }
    ensures none_left { P.is_known → P.made_for settings.new.store ≡ None }
    ensures stands { K.represents round.old.keeper round.old.book →
        OnOk result (K.represents round.new.keeper round.new.book) }
    ensures cut { K.is_known → O.is_known → K.represents round.old.keeper round.old.book → (line : List ℕ) →
        AsksForPlan asked.entry.end asked.entry.at_most asked.entry.tx.now asked.entry.cert.now line →
        OnErr result (IsCutShort (RepliesAndPlaces P.is_known (HasFailedOutput P.Output.failures)
        settings.old.on_limit line (P.placed settings.old.store) (P.placed settings.new.store)) round.old.book
        (O.taken out.old) (O.taken out.new) K.reads_as (K.may_leave round.new.keeper)) }
    ensures any_moment { K.is_known → K.represents round.old.keeper round.old.book → (line : List ℕ) →
        AsksForPlan asked.entry.end asked.entry.at_most asked.entry.tx.now asked.entry.cert.now line →
        LeavesOnly K.moment K.left_since round.old.keeper round.new.keeper
        (ReadsOrReplied K.reads_as (RepliesTo P.is_known (HasFailedOutput P.Output.failures)
        settings.old.on_limit line) round.old.book) }
    ensures explained { K.counts → K.represents round.old.keeper round.old.book → IfErr result
        (ExplainsEnd ⊥ (HasFailed (O.failures out.old) (O.failures out.new))
        (HasGivenUp K.most (K.taken round.new.keeper) (K.failures round.old.keeper) (K.failures round.new.keeper))) }
    ensures output { OnOk result (O.failures out.new ≡ O.failures out.old) }
    ensures keeper { K.counts → OnOk result (K.failures round.new.keeper ≡ K.failures round.old.keeper) }
    ensures lost { IfErr result (λ e. file_status e ≡ 3) }
{
    let (planned, sent) = match place_plan(alloc, settings, &round.book, asked) {
        Ok(placed) => placed,
        Err(fault) => return refuse(Refusal::Undone(fault), out),
    };
    let Some(front) = sent else {
        return print_planned(planned, None, out);
    };
    round.book.drop_first(front.pages as usize);
    round.keeper.keep(alloc, &front.row)?;
    print_planned(planned, Some(front.pages), out)
}

// Plans the pages for the end, writes the two outputs that a line names, and puts them in their places once both are whole.
fn place_plan<P: OutputStore + Drop>(
    alloc: Global,
    settings: &mut PlanSettings<P>,
    book: &Book,
    asked: PlanRequest<'_>,
) -> Result<(Planned, Option<SentFront>), UndoneFault>
    ensures planned { IfOk result (λ both. IsPlanPlaced P.is_known settings.old.on_limit asked.entry.end
        asked.entry.at_most asked.entry.tx.now asked.entry.cert.now book.now
        (option_map (λ front. front.pages) both.1) both.0.batches both.0.bound
        (P.placed settings.old.store) (P.placed settings.new.store)) }
    ensures edit { IfOk result (λ both. IfSome both.1 (λ front. fields_of front.row ≡ sent_record front.pages)) }
    ensures explained { IfErr result
        (ExplainsPlanUndone settings.old.on_limit asked.entry.end asked.entry.at_most book.now) }
    ensures unplaced { IfErr result (IsUnplaced P.is_known (HasFailedOutput P.Output.failures)
        asked.entry.tx.now asked.entry.cert.now (P.placed settings.old.store) (P.placed settings.new.store)) }
    ensures none_left { P.is_known → P.made_for settings.new.store ≡ None }
    ensures on_limit { settings.new.on_limit ≡ settings.old.on_limit }
{
    let (planned, pages, outputs) = match send_plan(settings, book, asked) {
        Ok(sent) => sent,
        Err(fault) => {
            settings.store.leave(asked.tx, asked.cert);
            return Err(fault);
        }
    };
    let Ok(sent) = front_of(alloc, pages) else {
        settings.store.leave(asked.tx, asked.cert);
        return Err(UndoneFault::OutOfMemory);
    };
    match settings.store.put(asked.tx, asked.cert, outputs) {
        Ok(()) => Ok((planned, sent)),
        Err(fault) => Err(UndoneFault::File(fault)),
    }
}

// The front of so many pages, if one is sent.
fn front_of(alloc: Global, pages: Option<u32>) -> Result<Option<SentFront>, OutOfMemory>
    ensures same { IfOk result (λ sent. option_map (λ front. front.pages) sent ≡ pages) }
    ensures edit { IfOk result (λ sent. IfSome sent (λ front. fields_of front.row ≡ sent_record front.pages)) }
    ensures some { OnErr result (pages ≢ None) }
{
    let Some(pages) = pages else {
        return Ok(None);
    };
    let row = sent_row(alloc, pages)?;
    Ok(Some(SentFront { pages, row }))
}

// Makes both outputs, and writes them whole. Returns too how many first pages are sent, where a front is asked for.
fn send_plan<P: OutputStore + Drop>(
    settings: &mut PlanSettings<P>,
    book: &Book,
    asked: PlanRequest<'_>,
) -> Result<(Planned, Option<u32>, Outputs<P::Output>), UndoneFault>
    ensures planned { IfOk result (λ all. IsAskedPlanned P.is_known settings.old.on_limit asked.entry.end
        asked.entry.at_most book.now all.1 all.0.batches all.0.bound
        (P.Output.taken all.2.tx, P.Output.taken all.2.cert)) }
    ensures explained { IfErr result
        (ExplainsPlanUndone settings.old.on_limit asked.entry.end asked.entry.at_most book.now) }
    ensures unplaced { IfErr result (IsUnplaced P.is_known (HasFailedOutput P.Output.failures)
        asked.entry.tx.now asked.entry.cert.now (P.placed settings.old.store) (P.placed settings.new.store)) }
    ensures made { P.is_known → P.made_for settings.new.store ≡ Some (asked.entry.tx.now, asked.entry.cert.now) }
    ensures same { P.is_known → OnOk result (P.placed settings.new.store ≡ P.placed settings.old.store) }
    ensures on_limit { settings.new.on_limit ≡ settings.old.on_limit }
{
    let search = Search {
        limit: DEFAULT_LIMIT,
        end: asked.end,
        on_limit: settings.on_limit,
    };
    let mut outputs = match settings.store.make(asked.tx, asked.cert) {
        Ok(outputs) => outputs,
        Err(fault) => return Err(UndoneFault::File(fault)),
    };
    let Some(most) = asked.at_most else {
        return match book.bounded_stream(&mut outputs.tx, &mut outputs.cert, search) {
            Ok(bounded) => {
                let (batches, bound) = (bounded.plan.batches, bounded.bound);
                Ok((Planned { batches, bound }, None, outputs))
            }
            Err(fault) => Err(undone(fault)),
        };
    };
    match book.front_stream(&mut outputs.tx, &mut outputs.cert, most, search) {
        Ok(bounded) => {
            let (batches, bound) = (bounded.plan.batches, bounded.bound);
            let pages = bounded.plan.pages;
            Ok((Planned { batches, bound }, Some(pages), outputs))
        }
        Err(UnsentFront::FirstPage(needed)) => Err(UndoneFault::FirstPage(needed)),
        Err(UnsentFront::Stream(fault)) => Err(undone(fault)),
    }
}

// Why a plan was not written.
fn undone(fault: StreamFault) -> UndoneFault
    requires { fault ≢ StreamFault.Plan PlanFault.BadLimit }
    ensures { result ≡ undone_of fault }
{
    match fault {
        StreamFault::Plan(PlanFault::SearchLimit(stop)) => UndoneFault::SearchLimit {
            least: stop.least,
            found: stop.found,
        },
        StreamFault::Plan(PlanFault::OutOfMemory) => UndoneFault::OutOfMemory,
        StreamFault::Plan(PlanFault::BadLimit) => unreachable!(),
        StreamFault::Round(_) => UndoneFault::NoPages,
        StreamFault::Transmission(_) | StreamFault::Certificate(_) => {
            UndoneFault::File(FileFault::Write)
        }
    }
}
