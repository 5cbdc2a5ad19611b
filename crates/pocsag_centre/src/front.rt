ghost use Rattle.std.specs.Prelude.{◌≡◌, ◌++◌, All, IfErr, IfOk, IsFalse, OnErr, OnOk};
ghost use Rattle.pocsag_words.specs.Devices.{CountsFailures, Delivers};
ghost use Rattle.pocsag_pages.specs.Listable.{IsListable};
ghost use Rattle.pocsag_pages.specs.Pages.{AreGood};
ghost use Rattle.pocsag_pages.specs.Queues.{IsQueue, firsts};
ghost use Rattle.pocsag_decode.specs.PageFiles.{page_file};
ghost use Rattle.pocsag_branch.specs.Found.{IsNodeLimit};
ghost use Rattle.pocsag_plan.specs.Fronts.{ExplainsFront};
ghost use Rattle.pocsag_plan.specs.Plans.{IsBounded};
ghost use Rattle.pocsag_centre.specs.FrontFiles.{aside_file, certificate_text, front_text, HasCertificateText, IsFrontOfPages, IsFrontRead, others_text, why_text};
ghost use Rattle.pocsag_centre.specs.FrontWorks.{ExplainsOthers, ExplainsUnplanned, fronts, TookAll};
ghost use Rattle.pocsag_centre.specs.Works.{MayBeToldOfCut};
ghost use Rattle.pocsag_shell.specs.Readers.{IsUncut};
ghost use Rattle.pocsag_shell.specs.Runs.{IsAnswerOf, Ran};
ghost use Rattle.pocsag_shell.specs.declared.fault.FileFault.TheVariants as file_fault;

use crate::checks::{refuse_bad_limit, refuse_other_count};
use crate::fault::CentreFault;
use crate::oversized::{PageParts, part_pages};
use crate::plan::print_bounded;
use pocsag_decode::{
    recall_page_files_are_read_back, recall_pages_of_files_are_spellable, write_page_file,
};
use pocsag_pages::{Page, Round, first_pages, left_pages, read_pages};
use pocsag_plan::{FrontPlan, NoFront, PlanFault, Search, longest_front, send};
use pocsag_shell::{CommandAnswer, ErrorStream, FileFault, print_answer, print_numbers, put_whole};
use pocsag_tree::{Certificate, write_text};
use pocsag_words::{GrowingSink, Sink, Source};
use std::alloc::Global;

/// What a front is asked for.
#[derive(Clone, Copy)]
pub struct FrontAsked {
    /// The most batches that it may have.
    pub batches: u32,
    /// Whether a page may wait for an earlier one of its address: the round is the first page of each address.
    pub may_wait: bool,
    /// Whether the pages that alone need more batches are set aside, unless all do.
    pub sets_aside: bool,
    /// How many pages the page file must hold, if that is given.
    pub expect: Option<u32>,
    pub search: Search,
}

/// The files of a front: the first is read, and the others are written.
#[derive(Drop)]
pub struct FrontFiles<P: Drop, S: Drop> {
    /// The page file.
    pub pages: P,
    /// The transmission of its first pages.
    pub tx: S,
    /// The certificate of their bound.
    pub cert: S,
    /// The page file of the pages that are left, in the order of the page file; without a page it is the header alone.
    pub rest: S,
    /// Where pages are set aside, that of these; nothing, where that is not asked for.
    pub aside: S,
    /// Where pages are left, the certificate of the first pages and one more.
    pub why: S,
    /// How many first pages were planned.
    pub count: u32,
}

// The front of a page file, and the pages of it that are set aside.
#[derive(Drop)]
pub(crate) struct FrontRead {
    pub(crate) front: FrontPlan,
    pub(crate) aside: Vec<Page>,
}

// The lines on a front, and the page files of the pages that are left and of those that are set aside.
#[derive(Drop)]
struct FrontOutput {
    lines: Vec<u8>,
    rest: Vec<u8>,
    aside: Vec<u8>,
}

/// `plan PAGES TX CERT --at-most B`: plans the longest front of a page file's round that so many batches carry, as is asked: its
/// transmission, the certificate of its bound, the page files of the others and of those that are set aside, and why there is not
/// one page more; and reports the counts. Faults in order: `BadLimit`, before the file is read; `Round`; `Unexpected`, where the
/// file holds another number of pages than is expected; `FirstPage`, where not even the first page fits; `SearchLimit`; or
/// refused memory. Returns the exit status.
pub fn run_front<P: Source + Drop, S: Sink + Drop, O: Sink, E: Sink + Drop>(
    alloc: Global,
    asked: FrontAsked,
    files: &mut FrontFiles<P, S>,
    out: &mut O,
    err: &mut ErrorStream<CentreFault, E>,
) -> u8
    ensures ran { Ran (fronts P.Source S.Sink asked files.old files.new) O.Sink E.Sink
        result out.old out.new err.old err.new }
{
    print_answer(answer_of_front(alloc, asked, files), out, err)
}

// What `plan --at-most` answers, once its files have all that is due. Its texts are made before the first file is written.
fn answer_of_front<P: Source + Drop, S: Sink + Drop>(
    alloc: Global,
    asked: FrontAsked,
    files: &mut FrontFiles<P, S>,
) -> Result<CommandAnswer, CentreFault>
    ensures answers { IsAnswerOf (fronts P.Source S.Sink asked files.old files.new) result }
{
    let read = read_front(alloc, asked, &mut files.pages)?;
    let texts = texts_of_front(alloc, asked, &read)?;
    let front = &read.front;
    files.count = front.bounded.plan.pages;
    put_others(
        &texts,
        &front.why,
        &mut files.rest,
        &mut files.aside,
        &mut files.why,
    )?;
    match send(&front.round, &front.bounded, &mut files.tx, &mut files.cert) {
        Ok(()) => Ok(CommandAnswer {
            status: 0,
            text: texts.lines,
        }),
        Err(_) => Err(CentreFault::File(FileFault::Write)),
    }
}

// The front of a page file, which is read once.
pub(crate) fn read_front<P: Source>(
    alloc: Global,
    asked: FrontAsked,
    pages: &mut P,
) -> Result<FrontRead, CentreFault>
    ensures front { P.is_known →
        IfOk result (λ read. IsFrontRead (P.held pages.old) asked read.front read.aside.items) }
    ensures planned { IfOk result (λ read. IsBounded read.front.bounded.plan.end read.front.round
        read.front.bounded.plan read.front.bounded.bound) }
    ensures listable { IfOk result (λ read. All IsListable read.front.rest.items) }
    ensures listable_aside { IfOk result (λ read. All IsListable read.aside.items) }
    ensures texts { IfOk result (λ read. HasCertificateText read.front.why) }
    ensures limited { OnOk result
        (ExplainsUnplanned P.Source asked pages.old pages.new (CentreFault.File file_fault.OutOfMemory)) }
    ensures whole { OnOk result (IsUncut P.Source pages.old) }
    ensures cut { IfErr result (MayBeToldOfCut P.Source pages.old) }
    ensures explained { IfErr result (ExplainsUnplanned P.Source asked pages.old pages.new) }
{
    recall_page_files_are_read_back();
    recall_pages_of_files_are_spellable();
    refuse_bad_limit(asked.search)?;
    let queue = read_pages(alloc, asked.may_wait, pages)?;
    refuse_other_count(queue.len() as u32, asked.expect)?;
    let Ok(PageParts { planned, aside }) = part_pages(alloc, asked, queue) else {
        return Err(CentreFault::File(FileFault::OutOfMemory));
    };
    let front = queue_front(alloc, asked, planned)?;
    Ok(FrontRead { front, aside })
}

// The front of pages that are a round, or a queue where pages may wait for earlier ones of their address.
fn queue_front(alloc: Global, asked: FrontAsked, queue: Vec<Page>) -> Result<FrontPlan, NoFront>
    requires limited { IsNodeLimit asked.search.limit }
    requires queue { IsQueue queue.items }
    requires apart { IsFalse asked.may_wait → AreGood queue.items }
    ensures front { IfOk result (IsFrontOfPages asked queue.items) }
    ensures planned { IfOk result (λ front.
        IsBounded front.bounded.plan.end front.round front.bounded.plan front.bounded.bound) }
    ensures texts { IfOk result (λ front. HasCertificateText front.why) }
    ensures fault { IfErr result (ExplainsFront asked.search (firsts queue.items) asked.batches) }
{
    if !asked.may_wait {
        let whole = longest_front(alloc, Round::of(queue), asked.batches, asked.search)?;
        return Ok(whole);
    }
    let Ok(firsts) = first_pages(alloc, queue.as_slice()) else {
        return Err(NoFront::Plan(PlanFault::OutOfMemory));
    };
    let mut front = longest_front(alloc, firsts, asked.batches, asked.search)?;
    let Ok(rest) = left_pages(alloc, queue, front.round.pages()) else {
        return Err(NoFront::Plan(PlanFault::OutOfMemory));
    };
    front.rest = rest;
    Ok(front)
}

// The texts of a front.
fn texts_of_front(
    alloc: Global,
    asked: FrontAsked,
    read: &FrontRead,
) -> Result<FrontOutput, CentreFault>
    requires listable { All IsListable read.now.front.rest.items }
    requires listable_aside { All IsListable read.now.aside.items }
    ensures lines { IfOk result
        (λ texts. texts.lines.items ≡ front_text asked read.now.front read.now.aside.items) }
    ensures rest { IfOk result (λ texts. texts.rest.items ≡ page_file read.now.front.rest.items) }
    ensures aside { IfOk result (λ texts. texts.aside.items ≡ aside_file asked.sets_aside read.now.aside.items) }
    ensures memory { IfErr result (λ e. e ≡ CentreFault.File file_fault.OutOfMemory) }
{
    let mut lines = GrowingSink::new(alloc);
    if print_front(asked, read, &mut lines).is_err() {
        return Err(CentreFault::File(FileFault::OutOfMemory));
    }
    let lines = lines.into_bytes();
    let rest = written_pages(alloc, read.front.rest.as_slice())?;
    if !asked.sets_aside {
        let aside = Vec::new(alloc);
        return Ok(FrontOutput { lines, rest, aside });
    }
    let aside = written_pages(alloc, read.aside.as_slice())?;
    Ok(FrontOutput { lines, rest, aside })
}

// The page file of the pages.
fn written_pages(alloc: Global, pages: &[Page]) -> Result<Vec<u8>, CentreFault>
    requires { All IsListable pages.now }
    ensures file { IfOk result (λ file. file.items ≡ page_file pages.now) }
    ensures memory { IfErr result (λ e. e ≡ CentreFault.File file_fault.OutOfMemory) }
{
    let mut sink = GrowingSink::new(alloc);
    write_page_file(alloc, pages, &mut sink).map_err(|_| CentreFault::File(
        FileFault::OutOfMemory,
    ))?;
    Ok(sink.into_bytes())
}

// Writes the page files of the pages that are left and that are set aside, and then the certificate of one page more.
fn put_others<S: Sink>(
    texts: &FrontOutput,
    beyond: &Option<Certificate>,
    rest: &mut S,
    aside: &mut S,
    why: &mut S,
) -> Result<(), FileFault>
    requires { HasCertificateText beyond.now }
    ensures rest { S.is_known → OnOk result (TookAll S.Sink rest.old rest.new texts.now.rest.items) }
    ensures aside { S.is_known → OnOk result (TookAll S.Sink aside.old aside.new texts.now.aside.items) }
    ensures why { S.is_known → OnOk result (TookAll S.Sink why.old why.new (certificate_text beyond.now)) }
    ensures lost { IfErr result (λ e. e ≡ FileFault.Write) }
    ensures explained { OnErr result (ExplainsOthers S.Sink rest.old rest.new aside.old aside.new why.old why.new
        texts.now.rest.items texts.now.aside.items (certificate_text beyond.now)) }
{
    put_whole(rest, texts.rest.as_slice())?;
    put_whole(aside, texts.aside.as_slice())?;
    put_why(beyond, why)?;
    Ok(())
}

// Writes the certificate, if there is one.
fn put_why<S: Sink>(why: &Option<Certificate>, sink: &mut S) -> Result<(), FileFault>
    requires { HasCertificateText why.now }
    ensures delivers { S.is_known →
        Delivers result (S.taken sink.old) (S.taken sink.new) (certificate_text why.now) }
    ensures lost { IfErr result (λ e. e ≡ FileFault.Write) }
    ensures failures { CountsFailures result (S.failures sink.old) (S.failures sink.new) }
{
    let Some(certificate) = why else {
        return Ok(());
    };
    let Certificate { end, batches, tree } = certificate;
    write_text(*end, *batches, tree, sink).map_err(|_| FileFault::Write)
}

// Prints the counts of a front, with its bound where that is below its batches, and the lines on the other pages.
fn print_front<O: Sink>(asked: FrontAsked, read: &FrontRead, out: &mut O) -> Result<(), FileFault>
    ensures printed { O.is_known → OnOk result
        (O.taken out.new ≡ O.taken out.old ++ front_text asked read.now.front read.now.aside.items) }
{
    print_bounded(&read.front.bounded, out)?;
    print_others(asked, read, out)
}

/// Prints how many pages are left; what is shown of one page more, where that is no more than the batches that were asked for; and,
/// where it is asked for, how many pages are set aside.
#[tactic(auto, unfolding(crate::specs::Lines::left_text, crate::specs::Lines::aside_text))]
pub(crate) fn print_others<O: Sink>(
    asked: FrontAsked,
    read: &FrontRead,
    out: &mut O,
) -> Result<(), FileFault>
    ensures printed { O.is_known → OnOk result
        (O.taken out.new ≡ O.taken out.old ++ others_text asked read.now.front read.now.aside.items) }
{
    let front = &read.front;
    print_numbers(out, &[("left ", front.rest.len() as u64)], "\n")?;
    print_why(&front.why, asked.batches, out)?;
    if !asked.sets_aside {
        return Ok(());
    }
    print_numbers(out, &[("oversized ", read.aside.len() as u64)], "\n")
}

// Prints what is shown of one page more, where there is one and it is no more than the batches that were asked for.
#[tactic(auto, unfolding(crate::specs::Lines::undecided_text))]
fn print_why<O: Sink>(why: &Option<Certificate>, batches: u32, out: &mut O) -> Result<(), FileFault>
    ensures delivers { O.is_known →
        Delivers result (O.taken out.old) (O.taken out.new) (why_text batches why.now) }
    ensures lost { IfErr result (λ e. e ≡ FileFault.Write) }
    ensures failures { CountsFailures result (O.failures out.old) (O.failures out.new) }
{
    let Some(why) = why else {
        return Ok(());
    };
    if batches < why.batches {
        return Ok(());
    }
    let number = [("at least ", why.batches as u64)];
    print_numbers(out, &number, " batches with one page more\n")
}
